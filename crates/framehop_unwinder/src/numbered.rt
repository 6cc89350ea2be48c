//! Values in slots that are used again, each under a number that is given once.

ghost use Rattle.std.specs.Prelude.{◌≡◌, ◌≢◌, ◌++◌, ◌∷◌, ◌<◌, [], true, false, None, Some, length, option_copied, slice_set, slice_index_or, IfOk, IfSome, IfNone, OnErr, OnOk};
ghost use Rattle.std.specs.List.{All};
ghost use Rattle.framehop_unwinder.specs.ByNumber.{held, is_held};
ghost use Rattle.framehop_unwinder.specs.NumberedViews.{IsNumbered, by_number};

use std::alloc::{AllocError, Global};

/// The number that a value was given, and the slot that it was put in.
#[derive(Debug, Clone, Copy, PartialEq, Eq)]
pub(crate) struct Place {
    pub(crate) number: u64,
    pub(crate) slot: usize,
}

/// Values in slots. Each has a number of its own, from 0 on. A slot whose value was let go is used
/// again, under a new number.
#[derive(Drop)]
pub(crate) struct Numbered<T> {
    pub(crate) values: Vec<Option<T>>,
    numbers: Vec<u64>,
    next: u64,
}

// A slot without a value, if there is one.
fn vacant_slot<T>(values: &[Option<T>]) -> Option<usize>
    ensures inside { IfSome result (λ slot. slot < length values.now) }
    ensures vacant { IfSome result (λ slot. slice_index_or values.now slot None ≡ None) }
{
    for slot in 0..values.len() {
        if values[slot].is_none() {
            return Some(slot);
        }
    }
    None
}

impl<T: Drop> Numbered<T> {
    /// No value, and no number was given.
    pub(crate) fn new(alloc: Global) -> Self
        ensures values { by_number result ≡ [] }
        ensures numbered { IsNumbered result }
    {
        Numbered {
            values: Vec::new(alloc),
            numbers: Vec::new(alloc),
            next: 0,
        }
    }

    /// The slot that was given a number last, if there is one. A place is mostly right about it.
    pub(crate) fn slot_of(&self, place: Place) -> Option<usize>
        ensures inside { IfSome result (λ slot. slot < length self.now.numbers.items) }
        ensures here { IfSome result (λ slot.
            slice_index_or self.now.numbers.items slot 0 ≡ place.number) }
        ensures nowhere { IfNone result (All (λ n. n ≢ place.number) self.now.numbers.items) }
    {
        match self.numbers.get(place.slot) {
            Some(number) if *number == place.number => Some(place.slot),
            _ => self
                .numbers
                .iter()
                .position(|number| *number == place.number),
        }
    }

    /// Puts a value in a slot, under the next number. Fails if there is no memory for a slot, or after
    /// 2^64 - 1 numbers.
    pub(crate) fn add(&mut self, value: T) -> Result<Place, AllocError>
        requires { IsNumbered self.old }
        ensures number { IfOk result (λ place. place.number ≡ length (by_number self.old)) }
        ensures added { OnOk result (by_number self.new ≡ by_number self.old ++ Some value ∷ []) }
        ensures refused { OnErr result (by_number self.new ≡ by_number self.old) }
        ensures numbered { IsNumbered self.new }
    {
        let number = self.next;
        if number == u64::MAX {
            return Err(AllocError);
        }
        if let Some(slot) = vacant_slot(&self.values) {
            self.values[slot] = Some(value);
            self.numbers[slot] = number;
            self.next = number + 1;
            return Ok(Place { number, slot });
        }
        let slot = self.values.len();
        self.values.reserve(1)?;
        self.numbers.reserve(1)?;
        self.values.push_reserved(Some(value));
        self.numbers.push_reserved(number);
        self.next = number + 1;
        Ok(Place { number, slot })
    }

    /// Whether a value is held under a number.
    pub(crate) fn holds(&self, place: Place) -> bool
        requires { IsNumbered self.now }
        ensures { result ≡ is_held (by_number self.now) place.number }
    {
        match self.slot_of(place) {
            Some(slot) => self.values[slot].is_some(),
            None => false,
        }
    }

    /// The value under a number, if one is held.
    pub(crate) fn get(&self, place: Place) -> Option<&T>
        requires { IsNumbered self.now }
        ensures { option_copied result ≡ held (by_number self.now) place.number }
    {
        match self.slot_of(place) {
            Some(slot) => self.values[slot].as_ref(),
            None => None,
        }
    }

    /// Lets the value under a number go, if one is held. Returns whether it was.
    pub(crate) fn remove(&mut self, place: Place) -> bool
        requires { IsNumbered self.old }
        ensures held { result ≡ is_held (by_number self.old) place.number }
        ensures removed { result ≡ true
            → by_number self.new ≡ slice_set (by_number self.old) place.number None }
        ensures same { result ≡ false → by_number self.new ≡ by_number self.old }
        ensures numbered { IsNumbered self.new }
    {
        let Some(slot) = self.slot_of(place) else {
            return false;
        };
        if self.values[slot].is_none() {
            return false;
        }
        self.values[slot] = None;
        true
    }
}
