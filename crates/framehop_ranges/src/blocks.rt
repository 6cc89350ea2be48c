//! Where the entries of each block of addresses begin.

ghost use Rattle.std.specs.Prelude.{◌≡◌, ◌≤◌, ◌<◌, ◌+◌, ◌*◌, ◌^◌, length, IfOk};
ghost use Rattle.std.specs.List.{AllWithin};
ghost use Rattle.std.specs.List.Sorted.{IsNonDecreasingBy};
ghost use Rattle.framehop_ranges.specs.Blocks.{Passes, AreBlocksOf};
ghost use Rattle.framehop_ranges.specs.Rises.{Rises};

use crate::entry::RangeEntry;
use std::alloc::{AllocError, Global};

// How many addresses a block has.
fn block_size(shift: u32) -> u64
    requires { shift < 32 }
    ensures size { result ≡ 2 ^ shift }
    ensures fits { result ≤ 2 ^ 31 }
{
    1 << shift
}

// The block that an address is in.
#[inline(always)]
pub(crate) fn block_of(address: u32, shift: u32) -> usize
    requires { shift < 32 }
    ensures small { result < 2 ^ 32 }
    ensures low { result * 2 ^ shift ≤ address }
    ensures high { address < (result + 1) * 2 ^ shift }
{
    (address >> shift) as usize
}

// How many entries start below a limit, of which the first ones are known to.
fn passed_from<V: Copy>(entries: &[RangeEntry<V>], from: usize, limit: u64) -> usize
    requires ordered { IsNonDecreasingBy (λ entry. entry.start) entries.now }
    requires within { from ≤ length entries.now }
    requires below { AllWithin (λ entry. entry.start < limit) entries.now 0 from }
    ensures { Passes limit entries.now result }
{
    let mut passed = from;
    'starts: while passed < entries.len() {
        if limit <= u64::from(entries[passed].start) {
            return passed;
        }
        passed += 1;
    }
    passed
}

// How many entries start below the first address of each block of `2^shift`, up to the block with the last start.
pub(crate) fn blocks_of<V: Copy>(
    alloc: Global,
    entries: &[RangeEntry<V>],
    shift: u32,
) -> Result<Vec<u32>, AllocError>
    requires rises { Rises entries.now }
    requires fits { shift < 32 }
    ensures { IfOk result (λ blocks. AreBlocksOf (2 ^ shift) entries.now blocks.items) }
{
    let size = block_size(shift);
    let mut blocks = Vec::new(alloc);
    let mut passed = 0;
    let mut limit: u64 = 0;
    'limits: while passed < entries.len() {
        // No more entries are passed than there are addresses below the start of this one.
        let _start = entries[passed].start;
        blocks.push(passed as u32)?;
        limit += size;
        passed = passed_from(entries, passed, limit);
    }
    Ok(blocks)
}
