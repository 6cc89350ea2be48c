//! Ranges of a process, and what is known of the code that they have.

ghost use Rattle.std.specs.Prelude.{◌≡◌, Some, IfOk, IfSome, drop, slice_get};
ghost use Rattle.std.specs.Option.{option_copied};
ghost use Rattle.sample_stacks.specs.Known.{IsFound, LeavesFewer, code_at, code_in, known_at, ranges_seen};

use crate::ranges::CodeRange;
use perf_processes::MappedFile;
use std::alloc::{AllocError, Global};

/// What is known of the code of a range.
#[derive(Clone, Copy, Debug)]
pub enum RangeCode {
    /// No frame was there yet.
    Untouched,
    /// The file isn't there, or has no code there.
    Missing,
    /// It was loaded as a module.
    Loaded {
        /// Where the segment begins, as the file states it.
        base_svma: u64,
        /// Where it begins in memory.
        base_avma: u64,
        /// All bytes of the file.
        bytes: &'static [u8],
    },
}

/// A range, and what is known of its code.
#[derive(Clone, Copy, Debug)]
pub struct KnownRange {
    /// The range.
    pub range: CodeRange,
    /// Its code.
    pub code: RangeCode,
}

/// A range of several.
#[derive(Clone, Copy, Debug)]
pub struct FoundRange {
    /// Its index.
    pub index: usize,
    /// The range.
    pub known: KnownRange,
}

// What was known of the code of a range.
fn code_of(known: &[KnownRange], range: &CodeRange) -> RangeCode {
    let index = known.partition_point(|other| other.range.start < range.start);
    match known.get(index) {
        Some(other) if other.range == *range => other.code,
        _ => RangeCode::Untouched,
    }
}

/// Ranges, with what was known of their code before.
pub fn with_known_code(
    alloc: Global,
    ranges: &[CodeRange],
    known: &[KnownRange],
) -> Result<Vec<KnownRange>, AllocError>
    ensures { IfOk result (λ found. ranges_seen found.items ≡ ranges.now) }
{
    let mut found = Vec::new(alloc);
    for range in ranges {
        found.push(KnownRange {
            range: *range,
            code: code_of(known, range),
        })?;
    }
    Ok(found)
}

/// The range that has an address.
pub fn find_range(ranges: &[KnownRange], address: u64) -> Option<FoundRange>
    ensures found { IfSome result (λ found. IsFound address ranges.now found) }
    ensures index { IfSome result (λ found. slice_get ranges.now found.index ≡ Some found.known) }
{
    let index = ranges.partition_point(|known| known.range.end <= address);
    let Some(known) = ranges.get(index) else {
        return None;
    };
    if address < known.range.start || known.range.end <= address {
        return None;
    }
    Some(FoundRange {
        index,
        known: *known,
    })
}

/// Takes what the code of a range is. The ranges stay.
pub fn set_code(ranges: &mut Vec<KnownRange>, index: usize, code: RangeCode)
    ensures ranges { ranges_seen ranges.new.items ≡ ranges_seen ranges.old.items }
    ensures fewer { LeavesFewer ranges.old.items index code ranges.new.items }
{
    if let Some(known) = ranges.get_mut(index) {
        known.code = code;
    }
}

// The bytes of a file from an offset on.
fn bytes_from(bytes: &'static [u8], offset: u64) -> &'static [u8]
    ensures { result.now ≡ drop offset bytes.now }
{
    if offset >= bytes.len() as u64 {
        return &[];
    }
    &bytes[offset as usize..]
}

// The code of a mapping from an address on.
fn code_in(code: RangeCode, mapping: &MappedFile, address: u64) -> &'static [u8]
    ensures { result.now ≡ code_in code mapping.now address }
{
    let RangeCode::Loaded { bytes, .. } = code else {
        return &[];
    };
    match mapping
        .offset
        .checked_add(address.saturating_sub(mapping.address))
    {
        Some(offset) => bytes_from(bytes, offset),
        None => &[],
    }
}

// The first range that has an address.
fn known_at(ranges: &[KnownRange], address: u64) -> Option<&KnownRange>
    ensures { option_copied result ≡ known_at ranges.now address }
{
    ranges.iter().find(|known| known.range.start <= address && address < known.range.end)
}

/// The code at an address: the bytes of the file from there on, if the range that has the address was loaded, and else none.
pub fn code_at(ranges: &[KnownRange], address: u64) -> &'static [u8]
    ensures { result.now ≡ code_at ranges.now address }
{
    match known_at(ranges, address) {
        Some(known) => code_in(known.code, &known.range.mapping, address),
        None => &[],
    }
}
