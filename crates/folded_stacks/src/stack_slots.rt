//! Where counted stacks are in a list, by their hashes.

ghost use Rattle.std.specs.Prelude.{◌≡◌, ◌↔◌, IfSome, IsTrue};
ghost use Rattle.std.specs.Bool.{OnTrue};
ghost use Rattle.folded_stacks.specs.StackLists.{HasStackAt};

use std::alloc::{AllocError, Global};

/// A stack by the numbers of its names, and what its samples count for.
#[derive(Debug, Drop)]
pub(crate) struct CountedStack {
    pub(crate) stack: Vec<u32>,
    pub(crate) hash: u32,
    pub(crate) count: u64,
}

// Where a stack with this hash is in the list, if one is kept here.
#[derive(Clone, Copy, Debug)]
struct Slot {
    hash: u32,
    place: Option<u32>,
}

/// Where stacks are in a list, each in the slot of its hash or in the next one that is empty. At least half of the slots are empty. The
/// list is asked again, so that no answer depends on them.
#[derive(Debug, Drop)]
pub(crate) struct StackSlots {
    // As many as a power of two, or none.
    slots: Vec<Slot>,
}

// How many slots there are at first.
const FEWEST: usize = 1 << 10;

const EMPTY: Slot = Slot {
    hash: 0,
    place: None,
};

/// A hash of a stack.
pub(crate) fn hash_of(stack: &[u32]) -> u32 {
    let mut hash: u64 = 0;
    for number in stack {
        hash = (hash.rotate_left(5) ^ u64::from(*number)).wrapping_mul(0x9e37_79b9_7f4a_7c15);
    }
    (hash >> 32) as u32
}

// Whether two stacks are the same.
fn is_same(one: &[u32], other: &[u32]) -> bool
    ensures { IsTrue result ↔ (one.now ≡ other.now) }
{
    one == other
}

// Whether a stack is at a place of a list.
fn is_at(stacks: &[CountedStack], place: u32, stack: &[u32]) -> bool
    ensures { OnTrue result (HasStackAt stacks.now place stack.now) }
{
    match stacks.get(place as usize) {
        Some(known) => is_same(known.stack.as_slice(), stack),
        None => false,
    }
}

impl StackSlots {
    /// No stacks.
    pub(crate) fn new(alloc: Global) -> Self {
        StackSlots {
            slots: Vec::new(alloc),
        }
    }

    // The slot of a hash.
    fn first(&self, hash: u32) -> usize {
        hash as usize & self.slots.len().saturating_sub(1)
    }

    // The slot behind another.
    fn next(&self, slot: usize) -> usize {
        slot.wrapping_add(1) & self.slots.len().saturating_sub(1)
    }

    /// The place of a stack with this hash in a list, if it is kept.
    pub(crate) fn place_of(&self, stacks: &[CountedStack], hash: u32, stack: &[u32]) -> Option<u32>
        ensures { IfSome result (λ place. HasStackAt stacks.now place stack.now) }
    {
        let mut at = self.first(hash);
        for _ in 0..self.slots.len() {
            let Some(slot) = self.slots.get(at) else {
                return None;
            };
            let Some(place) = slot.place else {
                return None;
            };
            if slot.hash == hash && is_at(stacks, place, stack) {
                return Some(place);
            }
            at = self.next(at);
        }
        None
    }

    /// Keeps the place of a stack with this hash, if a slot is empty.
    pub(crate) fn keep(&mut self, hash: u32, place: u32) {
        let mut at = self.first(hash);
        for _ in 0..self.slots.len() {
            match self.slots.get(at) {
                Some(slot) if slot.place.is_some() => at = self.next(at),
                _ => break,
            }
        }
        if let Some(slot) = self.slots.get_mut(at) {
            *slot = Slot {
                hash,
                place: Some(place),
            };
        }
    }

    // Keeps the places of all stacks of a list.
    fn keep_all(&mut self, stacks: &[CountedStack]) {
        let mut place: u32 = 0;
        for counted in stacks {
            self.keep(counted.hash, place);
            place = place.saturating_add(1);
        }
    }

    /// Takes care that at least half of the slots stay empty with one stack more than in a list. Fails if memory is refused.
    pub(crate) fn make_room(&mut self, stacks: &[CountedStack]) -> Result<(), AllocError> {
        if stacks.len() < self.slots.len() / 2 {
            return Ok(());
        }
        let count = self.slots.len().saturating_mul(2).max(FEWEST);
        self.slots.clear();
        self.slots.resize(count, EMPTY)?;
        self.keep_all(stacks);
        Ok(())
    }
}
