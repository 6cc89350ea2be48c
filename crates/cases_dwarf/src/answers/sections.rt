//! Questions to sections of declarations, strings and addresses.

use crate::answers::question::{Question, unknown, with_errors};
use dwarf_constants::{Format, Result};
use dwarf_offsets::{
    DebugAbbrevOffset, DebugAddrBase, DebugAddrIndex, DebugLineStrOffset, DebugStrOffset,
    DebugStrOffsetsIndex,
};
use dwarf_read_core::{
    Abbreviation, AddrHeader, DebugAbbrev, DebugAddr, DebugLineStr, DebugStr, DebugStrOffsets,
};
use dwarf_readers::{DebugStrOffsetsBase, Reader, ReaderOffset};
use std::alloc::Global;

/// What a section with a reader's bytes answers.
pub fn answer<R: Reader>(
    alloc: Global,
    reader: R,
    question: Question<'_>,
) -> anyhow::Result<String> {
    with_errors(alloc, ask(alloc, reader, question))
}

fn ask<R: Reader>(alloc: Global, reader: R, question: Question<'_>) -> Result<String> {
    match question.name {
        "table" => declarations(alloc, reader, question),
        "string" => string(alloc, reader, question),
        "line_string" => line_string(alloc, reader, question),
        "string_offset" => string_offset(alloc, reader, question),
        "address" => address(alloc, reader, question),
        "sets" => sets(alloc, reader),
        _ => unknown(alloc),
    }
}

// Adds the code, the tag, whether entries have children, and the names and forms, with the values that are given.
fn add_declaration(shown: &mut String, declaration: &Abbreviation) -> Result<()> {
    let children = if declaration.has_children() {
        "has"
    } else {
        "no"
    };
    write!(
        shown,
        "{} {:x} {children}",
        declaration.code(),
        declaration.tag()
    )?;
    for attribute in declaration.attributes() {
        write!(shown, " {:x}:{:x}", attribute.name(), attribute.form().0)?;
        if let Some(value) = attribute.implicit_const_value() {
            write!(shown, "={value}")?;
        }
    }
    shown.write(", ")?;
    Ok(())
}

// The declarations of the table at an offset, of all codes up to 32.
fn declarations<R: Reader>(alloc: Global, reader: R, question: Question<'_>) -> Result<String> {
    let offset = DebugAbbrevOffset(ReaderOffset::from_u64(question.numbers[0])?);
    let table = DebugAbbrev::from(reader).abbreviations(alloc, offset)?;
    let mut shown = String::new(alloc);
    for code in 0..33 {
        if let Some(declaration) = table.get(code) {
            add_declaration(&mut shown, declaration)?;
        }
    }
    shown.write("end")?;
    Ok(shown)
}

// A string, and where it begins.
fn placed<R: Reader>(alloc: Global, string: R) -> Result<String> {
    let start = string.offset_id().0;
    Ok(format!(in alloc; "{} at {start}", string.to_string(alloc)?.as_str())?)
}

// The string at an offset.
fn string<R: Reader>(alloc: Global, reader: R, question: Question<'_>) -> Result<String> {
    let offset = DebugStrOffset(ReaderOffset::from_u64(question.numbers[0])?);
    placed(alloc, DebugStr::from(reader).get_str(offset)?)
}

// The same of a string of line numbers.
fn line_string<R: Reader>(alloc: Global, reader: R, question: Question<'_>) -> Result<String> {
    let offset = DebugLineStrOffset(ReaderOffset::from_u64(question.numbers[0])?);
    placed(alloc, DebugLineStr::from(reader).get_str(offset)?)
}

// The offset of a string, by a base and an index.
fn string_offset<R: Reader>(alloc: Global, reader: R, question: Question<'_>) -> Result<String> {
    let [base, index, _] = question.numbers;
    let base = DebugStrOffsetsBase(ReaderOffset::from_u64(base)?);
    let index = DebugStrOffsetsIndex(ReaderOffset::from_u64(index)?);
    let offset = DebugStrOffsets::from(reader).get_str_offset(Format::Dwarf32, base, index)?;
    Ok(format!(in alloc; "{:#x}", offset.0.into_u64())?)
}

// An address, by its size, a base and an index.
fn address<R: Reader>(alloc: Global, reader: R, question: Question<'_>) -> Result<String> {
    let [_, base, index] = question.numbers;
    let base = DebugAddrBase(ReaderOffset::from_u64(base)?);
    let index = DebugAddrIndex(ReaderOffset::from_u64(index)?);
    let address = DebugAddr::from(reader).get_address(question.byte(), base, index)?;
    Ok(format!(in alloc; "{address:#x}")?)
}

// Adds the offset of a set, its length, the size of addresses, and the addresses.
fn add_set<R: Reader>(shown: &mut String, set: &AddrHeader<R>) -> Result<()> {
    let offset = set.offset().0.into_u64();
    let length = set.length().into_u64();
    write!(
        shown,
        "{offset} length {length} size {}:",
        set.encoding().address_size
    )?;
    for address in set.entries() {
        write!(shown, " {:#x}", address?)?;
    }
    shown.write(", ")?;
    Ok(())
}

// The sets of addresses.
fn sets<R: Reader>(alloc: Global, reader: R) -> Result<String> {
    let mut shown = String::new(alloc);
    for set in DebugAddr::from(reader).headers() {
        add_set(&mut shown, &set?)?;
    }
    shown.write("end")?;
    Ok(shown)
}
