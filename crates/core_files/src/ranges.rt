//! The range that contains an address.

ghost use Rattle.std.specs.Prelude.{◌≡◌, ◌↔◌, ◌≤◌, length, nat_le, IsTrue, IfSome};
ghost use Rattle.std.specs.Option.{option_map};
ghost use Rattle.core_files.specs.Memory.{byte_among, executable_at, is_lost};
ghost use Rattle.core_files.specs.Ranges.{any_loses, range_at, BeginAtOrBelow, IsIncreasing};
ghost use Rattle.core_files.specs.RangeViews.{range_seen, ranges_seen};

use crate::memory_range::MemoryRange;

/// Ranges, and whether each is known to end before the next begins, so that a range is found by halving.
#[derive(Clone, Copy, Debug)]
pub(crate) struct Ranges<'m, 'a> {
    pub(crate) ranges: &'m [MemoryRange<'a>],
    increasing: bool,
    ghost in_order: { IsTrue increasing → IsIncreasing (ranges_seen ranges.now) },
}

// Whether each range ends before the next begins.
fn is_increasing(ranges: &[MemoryRange<'_>]) -> bool
    ensures { IsTrue result ↔ IsIncreasing (ranges_seen ranges.now) }
{
    for next in 1..ranges.len() {
        if !ranges[next - 1].is_before(&ranges[next]) {
            return false;
        }
    }
    true
}

// Whether some bytes of one of the ranges were lost.
pub(crate) fn any_loses(ranges: &[MemoryRange<'_>]) -> bool
    ensures { result ≡ any_loses (ranges_seen ranges.now) }
{
    for range in ranges {
        if range.lost > 0 {
            return true;
        }
    }
    false
}

// The first range that contains an address, by a pass over all.
fn range_by_pass<'a>(ranges: &[MemoryRange<'a>], address: u64) -> Option<MemoryRange<'a>>
    ensures range { option_map range_seen result ≡ range_at (ranges_seen ranges.now) address }
    ensures begins { IfSome result (λ range. range.address ≤ address) }
{
    for range in ranges {
        if range.contains(address) {
            return Some(*range);
        }
    }
    None
}

// How many ranges begin at an address or below it, by halving.
fn count_at_or_below(ranges: &[MemoryRange<'_>], address: u64) -> usize
    requires { IsIncreasing (ranges_seen ranges.now) }
    ensures bound { result ≤ length ranges.now }
    ensures partition { BeginAtOrBelow (ranges_seen ranges.now) address result }
{
    ranges.partition_point(
        |range: &MemoryRange<'_>| -> bool
            ensures { result ≡ nat_le range.now.address address }
        { range.address <= address },
    )
}

// The first range that contains an address, by halving.
fn range_by_halving<'a>(ranges: &[MemoryRange<'a>], address: u64) -> Option<MemoryRange<'a>>
    requires { IsIncreasing (ranges_seen ranges.now) }
    ensures range { option_map range_seen result ≡ range_at (ranges_seen ranges.now) address }
    ensures begins { IfSome result (λ range. range.address ≤ address) }
{
    match count_at_or_below(ranges, address) {
        0 => None,
        count => {
            let range = ranges[count - 1];
            if range.contains(address) {
                Some(range)
            } else {
                None
            }
        }
    }
}

impl<'m, 'a> Ranges<'m, 'a> {
    // These ranges.
    pub(crate) fn new(ranges: &'m [MemoryRange<'a>]) -> Self
        ensures { result.ranges.now ≡ ranges.now }
    {
        Ranges {
            ranges,
            increasing: is_increasing(ranges),
        }
    }

    // Whether they are known to increase.
    pub(crate) fn is_increasing(&self) -> bool
        ensures { IsTrue result → IsIncreasing (ranges_seen self.now.ranges.now) }
    {
        self.increasing
    }

    // The first range that contains an address.
    pub(crate) fn range_at(&self, address: u64) -> Option<MemoryRange<'a>>
        ensures range { option_map range_seen result ≡ range_at (ranges_seen self.now.ranges.now) address }
        ensures begins { IfSome result (λ range. range.address ≤ address) }
    {
        if self.increasing {
            range_by_halving(self.ranges, address)
        } else {
            range_by_pass(self.ranges, address)
        }
    }

    // The byte at an address, of the first range that contains it.
    pub(crate) fn byte(&self, address: u64) -> Option<u8>
        ensures { result ≡ byte_among (ranges_seen self.now.ranges.now) address }
    {
        let Some(range) = self.range_at(address) else {
            return None;
        };
        range.byte(address)
    }

    // Whether what is at an address may be executed, by the first range that contains it.
    pub(crate) fn executable_at(&self, address: u64) -> Option<bool>
        ensures { result ≡ executable_at (ranges_seen self.now.ranges.now) address }
    {
        match self.range_at(address) {
            Some(range) => Some(range.executable),
            None => None,
        }
    }

    // Whether the byte at an address was lost, of the first range that contains it.
    pub(crate) fn loses(&self, address: u64) -> bool
        ensures { result ≡ is_lost (ranges_seen self.now.ranges.now) address }
    {
        match self.range_at(address) {
            Some(range) => range.loses(address),
            None => false,
        }
    }
}
