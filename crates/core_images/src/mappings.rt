//! The mappings of a file.

ghost use Rattle.std.specs.Prelude.{◌≡◌, ◌≤◌, ◌<◌, ◌++◌, option_map, IfOk, IfSome, IfNone, None, OnOk};
ghost use Rattle.core_files.specs.FileViews.{mapping_of};
ghost use Rattle.core_files.specs.NoteViews.{mappings_of};
ghost use Rattle.core_images.specs.Images.{are_apart_from, has_offset, if_named, mapping_at, mappings_named};
ghost use Rattle.core_images.specs.Runs.{AreKnown, NoneBegins};
ghost use Rattle.core_images.specs.RunViews.{file_byte, run_seen};

use crate::runs::{Run, run_at};
use core_files::{MappedFile, MemoryRange};
use std::alloc::{AllocError, Global};

/// Whether each mapping begins where those before it end, or after that.
pub(crate) fn are_apart(mappings: &[MappedFile<'_>]) -> bool
    ensures { result ≡ are_apart_from 0 (mappings_of mappings.now) }
{
    let mut end = 0;
    for mapping in mappings {
        if mapping.start < end || mapping.end < mapping.start {
            return false;
        }
        end = mapping.end;
    }
    true
}

// Adds a mapping, if it is of a file with this name.
fn push_named<'a>(
    named: &mut Vec<MappedFile<'a>>,
    next: &MappedFile<'a>,
    name: &[u8],
) -> Result<(), AllocError>
    ensures { OnOk result (mappings_of named.new.items
        ≡ mappings_of named.old.items ++ if_named name.now (mapping_of next.now)) }
{
    if next.name == name {
        named.push(*next)?;
    }
    Ok(())
}

/// The mappings of a file with this name, in their order.
pub(crate) fn mappings_named<'a>(
    alloc: Global,
    mappings: &[MappedFile<'a>],
    name: &[u8],
) -> Result<Vec<MappedFile<'a>>, AllocError>
    ensures { IfOk result
        (λ named. mappings_of named.items ≡ mappings_named name.now (mappings_of mappings.now)) }
{
    let mut named = Vec::new(alloc);
    for mapping in mappings {
        push_named(&mut named, mapping, name)?;
    }
    Ok(named)
}

// Whether a mapping has the byte at an offset of its file.
fn has_offset(mapping: &MappedFile<'_>, offset: u64) -> bool
    ensures { result ≡ has_offset offset (mapping_of mapping.now) }
{
    mapping.offset <= offset && offset - mapping.offset < mapping.end.saturating_sub(mapping.start)
}

// The first mapping that has it.
fn mapping_at<'a>(mappings: &[MappedFile<'a>], offset: u64) -> Option<MappedFile<'a>>
    ensures { option_map mapping_of result ≡ mapping_at (mappings_of mappings.now) offset }
{
    for mapping in mappings {
        if has_offset(mapping, offset) {
            return Some(*mapping);
        }
    }
    None
}

// How many offsets from one on come before the next mapping begins: so many at most.
fn size_before_next(mappings: &[MappedFile<'_>], offset: u64, size: u64) -> u64
    ensures most { result ≤ size }
    ensures some { 0 < size → 0 < result }
    ensures none { NoneBegins (λ mapping. mapping.offset) offset result mappings.now }
{
    let mut left = size;
    for mapping in mappings {
        if mapping.offset > offset {
            left = left.min(mapping.offset - offset);
        }
    }
    left
}

/// The bytes of a file with these mappings from an offset on: none if the byte there isn't known.
pub(crate) fn run_of_file<'a>(
    segments: &[MemoryRange<'a>],
    mappings: &[MappedFile<'_>],
    offset: u64,
) -> Option<Run<'a>>
    ensures known { IfSome result
        (λ run. AreKnown (file_byte segments.now mappings.now) offset (run_seen run)) }
    ensures none { IfNone result (file_byte segments.now mappings.now offset ≡ None) }
{
    let Some(mapping) = mapping_at(mappings, offset) else {
        return None;
    };
    let left = mapping.end - mapping.start - (offset - mapping.offset);
    run_at(
        segments,
        mapping.end - left,
        size_before_next(mappings, offset, left),
    )
}
