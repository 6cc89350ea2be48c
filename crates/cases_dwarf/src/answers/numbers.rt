//! Questions to readers about numbers.

use crate::answers::question::{Question, text, unknown};
use crate::answers::readers::narrow;
use dwarf_constants::{Format, Result};
use dwarf_readers::{Reader, leb128, read_u8_array};
use std::alloc::Global;

/// Numbers whose length the call names. Other questions are passed on, here and below.
pub fn ask_fixed<R: Reader>(
    alloc: Global,
    reader: &mut R,
    question: Question<'_>,
) -> Result<String> {
    match question.name {
        "u8" => text(alloc, reader.read_u8()),
        "i8" => text(alloc, reader.read_i8()),
        "u16" => text(alloc, reader.read_u16()),
        "i16" => text(alloc, reader.read_i16()),
        "u32" => text(alloc, reader.read_u32()),
        "i32" => text(alloc, reader.read_i32()),
        "u64" => text(alloc, reader.read_u64()),
        "i64" => text(alloc, reader.read_i64()),
        "u128" => text(alloc, reader.read_u128()),
        "array" => text(alloc, read_u8_array::<3, R>(reader)),
        _ => ask_sized(alloc, reader, question),
    }
}

// Numbers whose length is given in bytes.
fn ask_sized<R: Reader>(alloc: Global, reader: &mut R, question: Question<'_>) -> Result<String> {
    match question.name {
        "uint" => {
            let size = usize::from(question.byte()).clamp(1, 8);
            text(alloc, reader.read_uint(size))
        }
        "address_size" => text(alloc, reader.read_address_size()),
        "address" => text(alloc, reader.read_address(question.byte())),
        "sized_offset" => text(alloc, narrow(reader.read_sized_offset(question.byte()))),
        _ => ask_formatted(alloc, reader, question),
    }
}

// A length that begins a unit, and the format that it has.
fn initial_length<R: Reader>(reader: &mut R) -> Result<(u32, Format)> {
    let (length, format) = reader.read_initial_length()?;
    Ok((narrow(Ok(length))?, format))
}

// Numbers whose length the format gives, which is that of 32 or 64 bits.
fn ask_formatted<R: Reader>(
    alloc: Global,
    reader: &mut R,
    question: Question<'_>,
) -> Result<String> {
    let format = match question.byte() {
        64 => Format::Dwarf64,
        _ => Format::Dwarf32,
    };
    match question.name {
        "word" => text(alloc, narrow(reader.read_word(format))),
        "length" => text(alloc, narrow(reader.read_length(format))),
        "offset" => text(alloc, narrow(reader.read_offset(format))),
        "initial_length" => text(alloc, initial_length(reader)),
        _ => ask_leb128(alloc, reader, question),
    }
}

// Numbers of variable length (DWARF 5, 7.6), by the reader's own calls and by `leb128`'s.
fn ask_leb128<R: Reader>(alloc: Global, reader: &mut R, question: Question<'_>) -> Result<String> {
    match question.name {
        "skip_leb128" => text(alloc, reader.skip_leb128()),
        "uleb128" => text(alloc, reader.read_uleb128()),
        "uleb128_u32" => text(alloc, reader.read_uleb128_u32()),
        "uleb128_u16" => text(alloc, reader.read_uleb128_u16()),
        "sleb128" => text(alloc, reader.read_sleb128()),
        "free_skip" => text(alloc, leb128::read::skip(reader)),
        "free_uleb128" => text(alloc, leb128::read::unsigned(reader)),
        "free_uleb128_u16" => text(alloc, leb128::read::u16(reader)),
        "free_sleb128" => text(alloc, leb128::read::signed(reader)),
        _ => unknown(alloc),
    }
}
