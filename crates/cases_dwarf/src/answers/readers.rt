//! Questions to readers about what they have left.

use crate::answers::numbers::ask_fixed;
use crate::answers::question::{Question, UNKNOWN, text, with_errors};
use dwarf_constants::{ReaderOffsetId, Result};
use dwarf_readers::{Endianity, Reader, ReaderOffset};
use std::alloc::Global;

/// What a reader answers, and from where to where it has bytes left then.
pub fn answer<R: Reader>(
    alloc: Global,
    reader: &mut R,
    question: Question<'_>,
) -> anyhow::Result<String> {
    let answer = with_errors(alloc, ask_move(alloc, reader, question))?;
    if answer.as_str() == UNKNOWN {
        return Ok(answer);
    }
    let start = reader.offset_id().0;
    let end = start.saturating_add(reader.len().into_u64());
    Ok(format!(in alloc; "{answer} at {start}..{end}")?)
}

// Moves of the start or the end of a reader. Other questions are passed on, here and below.
fn ask_move<R: Reader>(alloc: Global, reader: &mut R, question: Question<'_>) -> Result<String> {
    match question.name {
        "empty" => {
            reader.empty();
            text(alloc, Ok(()))
        }
        "truncate" => text(
            alloc,
            reader.truncate(ReaderOffset::from_u8(question.byte())),
        ),
        "skip" => text(alloc, reader.skip(ReaderOffset::from_u8(question.byte()))),
        _ => ask_search(alloc, reader, question),
    }
}

// An offset of at most 32 bits. Any other is `UnsupportedOffset`, since readers differ in their offsets.
pub fn narrow<O: ReaderOffset>(offset: Result<O>) -> Result<u32> {
    u32::from_u64(offset?.into_u64())
}

// How far the reader is after itself once it has skipped three bytes.
fn behind<R: Reader>(reader: &R) -> Result<u32> {
    let mut later = *reader;
    later.skip(ReaderOffset::from_u8(3))?;
    narrow(Ok(later.offset_from(reader)))
}

// Questions about offsets.
fn ask_search<R: Reader>(alloc: Global, reader: &mut R, question: Question<'_>) -> Result<String> {
    match question.name {
        "is_big_endian" => text(alloc, Ok(reader.endian().is_big_endian())),
        "is_empty" => text(alloc, Ok(reader.is_empty())),
        "relative" => {
            let found = reader.lookup_offset_id(ReaderOffsetId(question.numbers[0]));
            text(alloc, Ok(found.map(|offset| offset.into_u64())))
        }
        "behind" => text(alloc, behind(reader)),
        "find" => text(alloc, narrow(reader.find(question.byte()))),
        _ => ask_bytes(alloc, reader, question),
    }
}

// The bytes of a part, and its offset.
fn part<R: Reader>(alloc: Global, part: Result<R>) -> Result<String> {
    let part = part?;
    let digits = hex::encode(alloc, part.to_slice(alloc)?.as_slice())?;
    Ok(format!(in alloc; "{digits} from {}", part.offset_id().0)?)
}

// What gives bytes and texts.
fn ask_bytes<R: Reader>(alloc: Global, reader: &mut R, question: Question<'_>) -> Result<String> {
    match question.name {
        "bytes" => part(alloc, Ok(*reader)),
        "split" => part(alloc, reader.split(ReaderOffset::from_u8(question.byte()))),
        "terminated" => part(alloc, reader.read_null_terminated_slice()),
        "text" => Ok(String::from_str(alloc, &reader.to_string(alloc)?)?),
        "lossy" => Ok(String::from_str(alloc, &reader.to_string_lossy(alloc)?)?),
        _ => ask_fixed(alloc, reader, question),
    }
}
