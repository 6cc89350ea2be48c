//! Bytes that follow each other in the memory of a core.

ghost use Rattle.std.specs.Prelude.{◌≡◌, ◌≤◌, ◌<◌, ◌+◌, length, option_map, IfSome, IfNone, None};
ghost use Rattle.core_files.specs.Memory.{byte_among};
ghost use Rattle.core_files.specs.Ranges.{byte_in, contains, range_at};
ghost use Rattle.core_files.specs.RangeViews.{range_seen, ranges_seen};
ghost use Rattle.core_images.specs.Runs.{AreKnown, NoneBegins};
ghost use Rattle.core_images.specs.RunViews.{run_seen};

use core_files::MemoryRange;

/// Bytes that follow each other.
#[derive(Clone, Copy, Debug)]
pub(crate) enum Run<'a> {
    /// So many zeros.
    Zeros(u64),
    /// These bytes.
    Bytes(&'a [u8]),
}

// Whether an address is in a range.
fn contains(range: &MemoryRange<'_>, address: u64) -> bool
    ensures { result ≡ contains address (range_seen range.now) }
{
    range.address <= address && address - range.address < range.size
}

// The first range that contains an address.
#[tactic(auto, unfolding(core_files::specs::Ranges::range_at))]
fn range_at<'a>(segments: &[MemoryRange<'a>], address: u64) -> Option<MemoryRange<'a>>
    ensures { option_map range_seen result ≡ range_at (ranges_seen segments.now) address }
{
    for segment in segments {
        if contains(segment, address) {
            return Some(*segment);
        }
    }
    None
}

// How many addresses from one on come before the next range begins: so many at most.
fn size_before_next(segments: &[MemoryRange<'_>], address: u64, size: u64) -> u64
    ensures most { result ≤ size }
    ensures some { 0 < size → 0 < result }
    ensures none { NoneBegins (λ range. range.address) address result segments.now }
{
    let mut left = size;
    for segment in segments {
        if segment.address > address {
            left = left.min(segment.address - address);
        }
    }
    left
}

// The bytes of a range from an address on, so many at most: those of its zeros, or those after them.
fn run_in<'a>(range: &MemoryRange<'a>, address: u64, size: u64) -> Option<Run<'a>>
    requires begins { range.now.address ≤ address }
    requires size { 0 < size }
    ensures known { IfSome result
        (λ run. AreKnown (λ at. byte_in at (range_seen range.now)) address (run_seen run)) }
    ensures most { IfSome result (λ run. length (run_seen run) ≤ size) }
    ensures none { IfNone result (byte_in address (range_seen range.now) ≡ None) }
{
    let offset = address - range.address;
    match offset.checked_sub(range.zeros) {
        Some(at) => {
            if at >= range.bytes.len() as u64 {
                return None;
            }
            let left = &range.bytes[at as usize..];
            Some(Run::Bytes(&left[..size.min(left.len() as u64) as usize]))
        }
        None => Some(Run::Zeros(size.min(range.zeros - offset))),
    }
}

/// The bytes of a core's memory from an address on, so many at most: none if the byte there isn't known.
pub(crate) fn run_at<'a>(segments: &[MemoryRange<'a>], address: u64, size: u64) -> Option<Run<'a>>
    requires { 0 < size }
    ensures known { IfSome result
        (λ run. AreKnown (byte_among (ranges_seen segments.now)) address (run_seen run)) }
    ensures most { IfSome result (λ run. length (run_seen run) ≤ size) }
    ensures none { IfNone result (byte_among (ranges_seen segments.now) address ≡ None) }
{
    let Some(range) = range_at(segments, address) else {
        return None;
    };
    let most = size.min(range.size - (address - range.address));
    run_in(&range, address, size_before_next(segments, address, most))
}
