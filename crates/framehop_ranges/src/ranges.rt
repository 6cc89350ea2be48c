//! Ranges of addresses and their values, built from address 0 upwards.

ghost use Rattle.std.specs.Prelude.{◌≡◌, ◌≤◌, ◌^◌, ℕ, IfOk, OnErr, length};
ghost use Rattle.framehop_ranges.specs.RangeValues.{last_or};
ghost use Rattle.framehop_ranges.specs.Ranges.{AddsNone, AreSame, Sound, Extends, end_value, range_at};

use crate::entry::RangeEntry;
use crate::same::SameValue;
use std::alloc::{AllocError, Global};

/// The values of the addresses from 0 up to an end, in ranges. The same value goes on in one range.
#[derive(Drop)]
pub struct Ranges<V> {
    // The value below the first start.
    pub(crate) before: V,
    pub(crate) entries: Vec<RangeEntry<V>>,
    // Where the next range starts.
    pub(crate) done: u64,
}

// The value from the last start on.
#[inline(always)]
fn last_value<V: Copy>(before: V, entries: &[RangeEntry<V>]) -> V
    ensures { result ≡ last_or before entries.now }
{
    match entries.last() {
        Some(entry) => entry.value,
        None => before,
    }
}

impl<V: SameValue> Ranges<V> {
    /// The addresses up to an end have one value, for which a table has no entry.
    pub fn new(alloc: Global, end: u64, value: V) -> Self
        ensures sound { Sound result }
        ensures none { length result.entries.items ≡ 0 }
        ensures value { (address : ℕ) → range_at result address ≡ value }
        ensures done { result.done ≡ end }
    {
        Ranges {
            before: value,
            entries: Vec::new(alloc),
            done: end,
        }
    }

    /// Where the next range starts.
    #[inline(always)]
    pub fn done(&self) -> u64
        ensures { result ≡ self.now.done }
    {
        self.done
    }

    /// Gives the addresses up to an end a value, from where the ranges are done; nothing changes if they are
    /// done beyond it, or if memory is refused. No range is added if the last value goes on.
    #[inline(always)]
    pub fn extend(&mut self, end: u64, value: V) -> Result<(), AllocError>
        requires sound { Sound self.old }
        requires fits { end ≤ 2 ^ 32 }
        ensures extends { IfOk result (λ _. Extends self.old end value self.new) }
        ensures goes_on { IfOk result (λ _. end_value self.old ≡ value → AddsNone self.old self.new) }
        ensures passed { IfOk result (λ _. end ≤ self.old.done → AddsNone self.old self.new) }
        ensures refused { OnErr result (AreSame self.old self.new) }
    {
        if end <= self.done {
            return Ok(());
        }
        if !last_value(self.before, &self.entries).is_same(value) {
            let start = self.done as u32;
            self.entries.push(RangeEntry { start, value })?;
        }
        self.done = end;
        Ok(())
    }
}
