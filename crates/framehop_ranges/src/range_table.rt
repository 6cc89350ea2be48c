//! A table of values, and its look-up.

ghost use Rattle.std.specs.Prelude.{◌≡◌, ◌≤◌, ◌<◌, ◌+◌, ◌*◌, ◌^◌, ◌-◌, ℕ, suc, IfOk, length};
ghost use Rattle.std.specs.List.{All};
ghost use Rattle.std.specs.List.Sorted.{IsPartitionPoint};
ghost use Rattle.framehop_ranges.specs.Blocks.{AreBlocksOf, IsPart, Passes};
ghost use Rattle.framehop_ranges.specs.RangeValues.{Differ};
ghost use Rattle.framehop_ranges.specs.Rises.{Rises};

use crate::blocks::{block_of, blocks_of};
use crate::entry::RangeEntry;
use crate::ranges::Ranges;
use crate::same::SameValue;
use sorted_starts::halve_items;
use std::alloc::{AllocError, Global};

/// What a look-up found.
#[derive(Debug, Clone, Copy, PartialEq, Eq)]
pub struct RangeLookup<V> {
    /// The value.
    pub value: V,
    /// How many of the table's starts were read.
    pub starts_read: u32,
}

/// A value for each address of 32 bits, by the starts of the ranges where it changes. How many ranges start below each
/// block of `2^shift` addresses is kept beside them, so that a look-up searches the entries of one block.
#[derive(Drop)]
pub struct RangeTable<V> {
    before: V,
    entries: Vec<RangeEntry<V>>,
    blocks: Vec<u32>,
    shift: u32,
    ghost rises: { Rises entries.items },
    ghost fit: { All (λ entry. entry.start < 2 ^ 32) entries.items },
    ghost differ: { Differ before entries.items },
    ghost shifts: { shift < 32 },
    ghost counted: { AreBlocksOf (2 ^ shift) entries.items blocks.items },
}

// Some of a table's entries: from one place up to another.
#[derive(Clone, Copy)]
struct Part {
    first: usize,
    end: usize,
}

// By how many bits an address is shifted for its block: so many that there are no more blocks up to the last start than
// a quarter of the entries, and one.
fn shift_for<V: Copy>(entries: &[RangeEntry<V>]) -> u32
    ensures { result < 32 }
{
    let Some(last) = entries.last() else {
        return 0;
    };
    let blocks = entries.len() as u64 / 4;
    let mut shift = 0;
    'shifts: while shift < 31 && u64::from(last.start >> shift) > blocks {
        shift += 1;
    }
    shift
}

impl<V: SameValue> RangeTable<V> {
    ghost use Rattle.framehop_ranges.specs.RangeTables.{CountsChanges, near_count, range_count, value_at};
    ghost use Rattle.framehop_ranges.specs.Ranges.{Sound, range_at};

    /// The table of some ranges; from their end on their last value goes on. Fails if memory is refused.
    pub fn try_new(alloc: Global, ranges: Ranges<V>) -> Result<Self, AllocError>
        requires { Sound ranges }
        ensures values { IfOk result (λ table. (address : ℕ) → value_at table address ≡ range_at ranges address) }
        ensures count { IfOk result (λ table. range_count table ≡ length ranges.entries.items) }
    {
        let Ranges {
            before,
            mut entries,
            done: _,
        } = ranges;
        // Room that the lists grew into and don't need is given back, or kept if memory is refused.
        entries.shrink_to_fit();
        let shift = shift_for(&entries);
        let mut blocks = blocks_of(alloc, &entries, shift)?;
        blocks.shrink_to_fit();
        Ok(RangeTable {
            before,
            entries,
            blocks,
            shift,
        })
    }

    /// At how many addresses the value is another than at the address before.
    pub fn change_count(&self) -> usize
        ensures { CountsChanges self.now result }
    {
        let count = self.entries.len();
        let Some(first) = self.entries.first() else {
            return 0;
        };
        // Before address 0 there is none.
        if first.start == 0 { count - 1 } else { count }
    }

    // How many entries start below a block of addresses.
    #[inline(always)]
    fn starts_below(&self, block: usize) -> usize
        ensures { Passes (block * 2 ^ self.now.shift) self.now.entries.items result }
    {
        match self.blocks.get(block) {
            Some(passed) => *passed as usize,
            None => self.entries.len(),
        }
    }

    // The entries among which the last that starts at or below an address is: those in the address's block.
    #[inline(always)]
    fn part(&self, address: u32) -> Part
        ensures part { IsPart self.now.entries.items address result.first result.end }
        ensures few { result.end - result.first ≤ 2 ^ self.now.shift }
        ensures near { result.end - result.first ≡ near_count self.now address }
    {
        let block = block_of(address, self.shift);
        let first = self.starts_below(block);
        let end = self.starts_below(block + 1);
        Part { first, end }
    }

    // The value at an address, if so many entries start at or below it.
    #[inline(always)]
    fn value_of(&self, count: usize, address: u32) -> V
        requires bound { count ≤ length self.now.entries.items }
        requires partition { IsPartitionPoint (λ entry. entry.start ≤ address)
            (λ entry. address < entry.start) self.now.entries.items count }
        ensures { result ≡ value_at self.now address }
    {
        match count {
            0 => self.before,
            count => self.entries[count - 1].value,
        }
    }

    /// The value at an address. Of n starts it reads at most ceil(log2(n)) + 1, and at most `shift + 1`, however many
    /// there are; of the m in the address's block at least floor(log2(m + 1)).
    pub fn look_up(&self, address: u32) -> RangeLookup<V>
        ensures value { result.value ≡ value_at self.now address }
        ensures few { (k : ℕ) → range_count self.now ≤ 2 ^ k → result.starts_read ≤ suc k }
        ensures near { result.starts_read ≤ suc self.now.shift }
        ensures enough { (k : ℕ) → 2 ^ k ≤ suc (near_count self.now address) → k ≤ result.starts_read }
    {
        let Part { first, end } = self.part(address);
        let halved = halve_items(&self.entries[first..end], address);
        RangeLookup {
            value: self.value_of(first + halved.at_or_below, address),
            starts_read: halved.reads,
        }
    }
}
