//! The numbers of the names of places that were looked up.

ghost use Rattle.std.specs.Prelude.{◌≡◌, [], IfSome, None, OnErr, OnOk};
ghost use Rattle.fold_stacks.specs.Places.{IsInSomeSlot, PutsInSlot, PutsNothing, PutsNumber, number_among};

use std::alloc::{AllocError, Global};
use std::collections::HashMap;
use std::marker::Model;

// How many of the last ones are kept apart: of so many the walks of one program mostly have each of their frames.
const SLOTS: usize = 1 << 14;

/// A place in a file, as a key.
#[derive(Clone, Copy, Debug, PartialEq, Eq, Hash)]
pub(crate) struct PlaceKey {
    /// The file's number.
    pub(crate) file: u32,
    /// The address.
    pub(crate) address: u64,
}

/// A place, and the number of its name.
#[derive(Clone, Copy, Debug)]
pub(crate) struct NumberedPlace {
    pub(crate) key: PlaceKey,
    pub(crate) number: u32,
}

/// The numbers of the names of places that were looked up. Those of the last ones are in slots, so that most look-ups take one comparison.
#[derive(Drop)]
pub(crate) struct PlaceNumbers {
    known: HashMap<PlaceKey, u32>,
    // None until one is kept.
    slots: Vec<Option<NumberedPlace>>,
}

/// A clause sees the places with their numbers. What is in a slot is among them.
impl Model for PlaceNumbers {
    ghost use Rattle.std.specs.Prelude.{ℕ, List};
    ghost use Rattle.fold_stacks.specs.declared.places.PlaceKey.{PlaceKey};
    ghost use Rattle.fold_stacks.specs.Places.{SlotsAreOf};

    ghost Value = { List (PlaceKey × ℕ) };

    ghost view = { λ places. places.known.entries };

    ghost invariant = { λ places. SlotsAreOf places.known.entries places.slots.items };
}

// The slot of a place: addresses of one file that are near each other have different ones.
fn slot_of(key: PlaceKey) -> usize {
    let mixed = key.address ^ (key.address >> 14) ^ (u64::from(key.file) << 7);
    (mixed % SLOTS as u64) as usize
}

// The number of a place, if its slot has that.
fn number_in(slots: &[Option<NumberedPlace>], key: PlaceKey) -> Option<u32>
    ensures { IfSome result (λ number. IsInSomeSlot slots.now (record { key = key; number = number })) }
{
    match slots.get(slot_of(key)) {
        Some(Some(known)) if known.key == key => Some(known.number),
        _ => None,
    }
}

// Puts a place in its slot, in place of another.
fn put(slots: &mut Vec<Option<NumberedPlace>>, place: NumberedPlace)
    ensures { PutsInSlot place slots.old.items slots.new.items }
{
    let slot = slot_of(place.key);
    if slot < slots.len() {
        slots[slot] = Some(place);
    }
}

// Makes so many slots, if there are none yet.
fn start(slots: &mut Vec<Option<NumberedPlace>>, count: usize) -> Result<(), AllocError>
    ensures { PutsNothing slots.old.items slots.new.items }
{
    if slots.is_empty() {
        slots.resize(count, None)?;
    }
    Ok(())
}

impl PlaceNumbers {
    /// No numbers.
    pub(crate) fn new(alloc: Global) -> Self
        ensures { result ≡ [] }
    {
        PlaceNumbers {
            known: HashMap::new(alloc),
            slots: Vec::new(alloc),
        }
    }

    /// The number of the name of a place, if it is kept.
    pub(crate) fn get(&mut self, key: PlaceKey) -> Option<u32>
        ensures number { result ≡ number_among self.old key }
        ensures same { self.new ≡ self.old }
    {
        if let Some(number) = number_in(self.slots.as_slice(), key) {
            return Some(number);
        }
        let number = self.known.get(&key).copied()?;
        put(&mut self.slots, NumberedPlace { key, number });
        Some(number)
    }

    /// Keeps the number of the name of a place. Fails if memory is refused.
    pub(crate) fn keep(&mut self, key: PlaceKey, number: u32) -> Result<(), AllocError>
        requires { number_among self.old key ≡ None }
        ensures ok { OnOk result (PutsNumber key number self.old self.new) }
        ensures err { OnErr result (self.new ≡ self.old) }
    {
        start(&mut self.slots, SLOTS)?;
        self.known.insert(key, number)?;
        put(&mut self.slots, NumberedPlace { key, number });
        Ok(())
    }
}
