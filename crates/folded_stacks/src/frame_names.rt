//! The names of frames and processes, each with a number.

ghost use Rattle.std.specs.Prelude.{◌≡◌, ◌↔◌, ◌++◌, ◌∷◌, [], IsTrue, IfOk, OnOk, Some, slice_get};
ghost use Rattle.std.specs.Bool.{OnTrue};
ghost use Rattle.folded_stacks.specs.FrameNames.{HasAtMostOneMore, name_at};

use std::alloc::{AllocError, Global};
use std::collections::HashMap;
use std::marker::Model;

/// The names of frames and processes, each with a number.
#[derive(Drop)]
pub struct FrameNames {
    texts: Vec<Vec<u8>>,
    // The number of each. It is looked up in the list again, so that no answer depends on it.
    numbers: HashMap<Vec<u8>, u32>,
}

/// They are a list, and a number is a place in it.
impl Model for FrameNames {
    ghost use Rattle.std.specs.Prelude.{ℕ, List, map};

    ghost Value = { List (List ℕ) };

    ghost view = { λ names. map (λ text. text.items) names.texts.items };
}

// Whether two texts are the same.
fn is_same(one: &[u8], other: &[u8]) -> bool
    ensures { IsTrue result ↔ (one.now ≡ other.now) }
{
    one == other
}

impl FrameNames {
    /// No names.
    pub fn new(alloc: Global) -> Self
        ensures { result ≡ [] }
    {
        FrameNames {
            texts: Vec::new(alloc),
            numbers: HashMap::new(alloc),
        }
    }

    /// The name with a number, and no bytes if there is none.
    pub fn text_of(&self, number: u32) -> &[u8]
        ensures { result.now ≡ name_at self.now number }
    {
        match self.texts.get(number as usize) {
            Some(text) => text.as_slice(),
            None => &[],
        }
    }

    // Whether a name has a number.
    fn has(&self, number: u32, text: &[u8]) -> bool
        ensures { OnTrue result (slice_get self.now number ≡ Some text.now) }
    {
        match self.texts.get(number as usize) {
            Some(known) if is_same(known.as_slice(), text) => true,
            _ => false,
        }
    }

    // Gives a new name the next number.
    fn add(&mut self, text: &[u8]) -> Result<u32, AllocError>
        ensures number { IfOk result (λ number. slice_get self.new number ≡ Some text.now) }
        ensures names { OnOk result (self.new ≡ self.old ++ text.now ∷ []) }
        ensures kept { HasAtMostOneMore self.old self.new text.now }
    {
        let Ok(number) = u32::try_from(self.texts.len()) else {
            return Err(AllocError);
        };
        let alloc = *self.texts.allocator();
        let key = text.to_vec(alloc)?;
        let kept = text.to_vec(alloc)?;
        self.texts.push(kept)?;
        self.numbers.insert(key, number)?;
        Ok(number)
    }

    /// The number of a name, which gets the next one if it is new. Fails if memory is refused, or if there are 2^32 names.
    pub fn number_of(&mut self, text: &[u8]) -> Result<u32, AllocError>
        ensures number { IfOk result (λ number. slice_get self.new number ≡ Some text.now) }
        ensures names { HasAtMostOneMore self.old self.new text.now }
    {
        let known = self.numbers.get(text).copied();
        if let Some(number) = known {
            if self.has(number, text) {
                return Ok(number);
            }
        }
        self.add(text)
    }
}
