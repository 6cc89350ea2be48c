//! Ranges of addresses, by the mappings of a process.

ghost use Rattle.std.specs.Prelude.{◌≡◌, ◌++◌, min, max, IfOk, OnOk};
ghost use Rattle.sample_stacks.specs.Merging.{part, ranges_of, with_mapping};
ghost use Rattle.sample_stacks.specs.Ranges.{AreApart, AreOfLastMappings};

use perf_processes::MappedFile;
use std::alloc::{AllocError, Global};

/// Addresses that are mapped from a file.
#[derive(Clone, Copy, Debug, PartialEq, Eq)]
pub struct CodeRange {
    /// The first address.
    pub start: u64,
    /// The address behind the last.
    pub end: u64,
    /// The mapping, which may have more addresses that later ones took away.
    pub mapping: MappedFile,
}

// The lesser of two numbers.
fn lesser(one: u64, other: u64) -> u64
    ensures { result ≡ min one other }
{
    if one < other { one } else { other }
}

// The greater of two numbers.
fn greater(one: u64, other: u64) -> u64
    ensures { result ≡ max one other }
{
    if one < other { other } else { one }
}

// Adds the part of a mapping between two addresses, if there is an address.
fn push_part(
    found: &mut Vec<CodeRange>,
    mapping: MappedFile,
    start: u64,
    end: u64,
) -> Result<(), AllocError>
    ensures { OnOk result (found.new.items ≡ found.old.items ++ part mapping start end) }
{
    if start < end {
        found.push(CodeRange {
            start,
            end,
            mapping,
        })?;
    }
    Ok(())
}

// Ranges with the addresses of a mapping that they don't have.
fn with_mapping(
    alloc: Global,
    ranges: &[CodeRange],
    mapping: MappedFile,
) -> Result<Vec<CodeRange>, AllocError>
    ensures { IfOk result (λ found. found.items ≡ with_mapping mapping ranges.now) }
{
    let end = mapping.address.saturating_add(mapping.size);
    let mut found = Vec::new(alloc);
    let mut start = mapping.address;
    for range in ranges {
        push_part(&mut found, mapping, start, lesser(end, range.start))?;
        found.push(*range)?;
        start = greater(start, range.end);
    }
    push_part(&mut found, mapping, start, end)?;
    Ok(found)
}

// The ranges of mappings, from the last one on.
fn merged_ranges(alloc: Global, mappings: &[MappedFile]) -> Result<Vec<CodeRange>, AllocError>
    ensures { IfOk result (λ found. found.items ≡ ranges_of mappings.now) }
{
    let mut found = Vec::new(alloc);
    let mut left = mappings.len();
    'mappings: while left > 0 {
        left -= 1;
        found = with_mapping(alloc, found.as_slice(), mappings[left])?;
    }
    Ok(found)
}

/// The addresses of a process by its mappings, the latest last, in the order of the addresses: an address is of the last mapping that
/// has it. The last address of all is of none.
pub fn code_ranges(alloc: Global, mappings: &[MappedFile]) -> Result<Vec<CodeRange>, AllocError>
    ensures apart { IfOk result (λ ranges. AreApart 0 ranges.items) }
    ensures of_last { IfOk result (λ ranges. AreOfLastMappings ranges.items mappings.now) }
{
    merged_ranges(alloc, mappings)
}
