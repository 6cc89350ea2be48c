//! What the segments of a core have.

ghost use Rattle.std.specs.Prelude.{◌≡◌, ◌<◌, ◌+◌, ◌-◌, ◌^◌, length, Ok, Err, IfOk, IfErr};
ghost use Rattle.std.specs.Option.{option_copied};
ghost use Rattle.elf_files.specs.Segments.{is_note_segment};
ghost use Rattle.core_files.specs.CoreFiles.{all_ok, bytes_left, is_loaded, loaded_apart, may_be_executed, noted_apart};
ghost use Rattle.core_files.specs.NoteViews.{notes_seen};
ghost use Rattle.core_files.specs.RangeViews.{ranges_seen};
ghost use Rattle.core_files.specs.Ranges.{after_zeros};
ghost use Rattle.core_files.specs.Refusals.{Appends, Gives, by_elf};
ghost use Rattle.core_files.specs.SegmentViews.{AppendsNotes, AppendsRanges, loaded_of, noted_of, notes_at, notes_by, parts_seen, ranges_at, ranges_by};

use crate::bytes::{bytes_after, first_bytes};
use crate::error::CoreError;
use crate::lists::push;
use crate::memory_range::MemoryRange;
use crate::segment_bytes::SegmentBytes;
use elf_files::{ElfError, ElfFile, Note, Notes, Segment, SegmentKind};
use std::alloc::Global;

// The bytes of a loaded segment, by those that were read of it: how many zeros there are first, and the others.
fn loaded_apart<'a>(
    parts: &'a [SegmentBytes],
    index: u32,
    segment: &Segment,
) -> Result<(u64, &'a [u8]), ElfError>
    ensures ok { IfOk result (λ found. loaded_apart (parts_seen parts.now) index segment.now
        ≡ Ok (after_zeros found.0 found.1.now)) }
    ensures err { IfErr result (λ e. loaded_apart (parts_seen parts.now) index segment.now ≡ Err e) }
{
    match parts.get(index as usize) {
        Some(part) if part.is_of(segment) => Ok((part.zeros, part.bytes.as_slice())),
        _ => Err(ElfError::Truncated {
            offset: segment.offset,
        }),
    }
}

// The bytes of a segment of notes, by those that were read of it.
fn noted_apart<'a>(
    parts: &'a [SegmentBytes],
    index: u32,
    segment: &Segment,
) -> Result<&'a [u8], ElfError>
    ensures ok { IfOk result (λ found. noted_apart (parts_seen parts.now) index segment.now ≡ Ok found.now) }
    ensures err { IfErr result (λ e. noted_apart (parts_seen parts.now) index segment.now ≡ Err e) }
    ensures within { IfOk result (λ found. segment.now.offset + length found.now < 2 ^ 64) }
{
    match parts.get(index as usize) {
        Some(part) if part.is_of(segment) && part.has_all_of(segment) => Ok(part.bytes.as_slice()),
        _ => Err(ElfError::Truncated {
            offset: segment.offset,
        }),
    }
}

// The bytes that a file has of a segment.
fn bytes_left<'a>(bytes: &'a [u8], segment: &Segment) -> &'a [u8]
    ensures { result.now ≡ bytes_left bytes.now segment.now }
{
    let offset = segment.offset.min(bytes.len() as u64) as usize;
    let rest = bytes_after(bytes, offset);
    first_bytes(rest, segment.file_size.min(rest.len() as u64) as usize)
}

// How many bytes of a segment were lost, if these are left: so many zeros, and then others.
fn lost_bytes(segment: &Segment, zeros: u64, bytes: &[u8]) -> u64
    ensures { result ≡ segment.now.file_size - length (after_zeros zeros bytes.now) }
{
    let after = segment.file_size.saturating_sub(zeros);
    after.saturating_sub(bytes.len() as u64)
}

// The bytes of the loaded segment with a number: how many zeros there are first, and the others.
fn loaded_bytes<'a>(
    elf: &ElfFile<'a>,
    parts: Option<&'a [SegmentBytes]>,
    index: u32,
    segment: &Segment,
) -> Result<(u64, &'a [u8]), ElfError>
    ensures ok { IfOk result (λ found. loaded_of (option_copied parts.entry) elf.now index segment.now
        ≡ Ok (after_zeros found.0 found.1.now)) }
    ensures err { IfErr result
        (λ e. loaded_of (option_copied parts.entry) elf.now index segment.now ≡ Err e) }
{
    match parts {
        Some(parts) => loaded_apart(parts, index, segment),
        None => Ok((0, bytes_left(elf.bytes, segment))),
    }
}

// The bytes of the segment of notes with a number.
fn noted_bytes<'a>(
    elf: &ElfFile<'a>,
    parts: Option<&'a [SegmentBytes]>,
    index: u32,
    segment: &Segment,
) -> Result<&'a [u8], ElfError>
    ensures ok { IfOk result
        (λ found. noted_of (option_copied parts.entry) elf.now index segment.now ≡ Ok found.now) }
    ensures err { IfErr result
        (λ e. noted_of (option_copied parts.entry) elf.now index segment.now ≡ Err e) }
    ensures within { IfOk result (λ found. segment.now.offset + length found.now < 2 ^ 64) }
{
    match parts {
        Some(parts) => noted_apart(parts, index, segment),
        None => elf.segment_bytes(segment),
    }
}

// Whether a segment is loaded.
fn is_loaded(segment: &Segment) -> bool
    ensures { result ≡ is_loaded segment.now.kind }
{
    matches!(segment.kind, SegmentKind::Load)
}

// Whether what is in a segment may be executed.
fn may_be_executed(segment: &Segment) -> bool
    ensures { result ≡ may_be_executed segment.now.flags }
{
    segment.flags % 2 == 1
}

// Adds what a loaded segment has in memory.
fn push_loaded<'a>(
    all: &mut Vec<MemoryRange<'a>>,
    elf: &ElfFile<'a>,
    parts: Option<&'a [SegmentBytes]>,
    index: u32,
) -> Result<(), CoreError>
    requires { index < elf.now.header.segment_count }
    ensures { AppendsRanges all.old.items all.new.items result
        (ranges_at (option_copied parts.entry) elf.now index) }
{
    let segment = elf.segment(index)?;
    if !is_loaded(&segment) {
        return Ok(());
    }
    let (zeros, bytes) = loaded_bytes(elf, parts, index, &segment)?;
    push(
        all,
        MemoryRange {
            address: segment.address,
            size: segment.memory_size,
            zeros,
            bytes,
            lost: lost_bytes(&segment, zeros, bytes),
            executable: may_be_executed(&segment),
        },
    )?;
    Ok(())
}

/// The loaded segments, whose bytes were read apart or are in the file's.
pub(crate) fn loaded_ranges<'a>(
    alloc: Global,
    elf: &ElfFile<'a>,
    parts: Option<&'a [SegmentBytes]>,
) -> Result<Vec<MemoryRange<'a>>, CoreError>
    ensures { Gives (λ ranges. ranges_seen ranges.items) result
        (ranges_by (option_copied parts.entry) elf.now) }
{
    let mut ranges = Vec::new(alloc);
    for index in 0..elf.segment_count() {
        push_loaded(&mut ranges, elf, parts, index)?;
    }
    Ok(ranges)
}

// Whether a segment has notes.
fn is_note(segment: &Segment) -> bool
    ensures { result ≡ is_note_segment segment.now.kind }
{
    matches!(segment.kind, SegmentKind::Note)
}

// Adds all notes of a segment.
fn push_all<'a>(notes: &mut Vec<Note<'a>>, all: Notes<'a>) -> Result<(), CoreError>
    ensures { Appends (notes_seen notes.old.items) (notes_seen notes.new.items) result (by_elf (all_ok all.entry)) }
{
    let mut left = all;
    'notes: loop {
        let Some(note) = left.next()? else {
            return Ok(());
        };
        push(notes, note)?;
    }
}

// Adds the notes of a segment of notes.
fn push_notes<'a>(
    all: &mut Vec<Note<'a>>,
    elf: &ElfFile<'a>,
    parts: Option<&'a [SegmentBytes]>,
    index: u32,
) -> Result<(), CoreError>
    requires { index < elf.now.header.segment_count }
    ensures { AppendsNotes all.old.items all.new.items result
        (notes_at (option_copied parts.entry) elf.now index) }
{
    let segment = elf.segment(index)?;
    if !is_note(&segment) {
        return Ok(());
    }
    let bytes = noted_bytes(elf, parts, index, &segment)?;
    push_all(all, Notes::new_at(bytes, segment.alignment, segment.offset))
}

/// The notes, whose bytes were read apart or are in the file's.
pub(crate) fn core_notes<'a>(
    alloc: Global,
    elf: &ElfFile<'a>,
    parts: Option<&'a [SegmentBytes]>,
) -> Result<Vec<Note<'a>>, CoreError>
    ensures { Gives (λ notes. notes_seen notes.items) result
        (notes_by (option_copied parts.entry) elf.now) }
{
    let mut notes = Vec::new(alloc);
    for index in 0..elf.segment_count() {
        push_notes(&mut notes, elf, parts, index)?;
    }
    Ok(notes)
}
