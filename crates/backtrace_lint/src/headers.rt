//! The `.eh_frame_hdr` of a file, and the rows of its table.

ghost use Rattle.std.specs.Prelude.{◌≡◌, ℕ, IfOk, IfErr, Ok, Err};
ghost use Rattle.std.specs.Option.{option_map};
ghost use Rattle.dwarf_call_frames.specs.HeaderTable.{header_table};
ghost use Rattle.dwarf_frame_rows.specs.EncodedPointer.{direct_address};
ghost use Rattle.backtrace_lint.specs.HeaderViews.{AreRows, header_seen};
ghost use Rattle.backtrace_lint.specs.Headers.{header_for, header_in, header_rows, header_section_of, row_read, rows_if_some, rows_if_there, rows_of_table, section_start, with_header};
ghost use Rattle.frame_table_files.specs.FileSections.{with_bits};

use crate::header_tables::{HeaderFault, HeaderRow};
use dwarf_call_frames::{
    BaseAddresses, EhFrameHdr, EhHdrTable, ParsedEhFrameHdr, SectionBaseAddresses,
};
use dwarf_readers::{LittleEndian, Reader};
use elf_files::{ElfError, ElfFile, Section, SectionKind};
use frame_table_files::SectionName;
use std::alloc::{AllocError, Global};

/// The section `.eh_frame_hdr` of a file.
#[derive(Debug, Clone, Copy)]
pub(crate) struct HeaderSection<'a> {
    /// Its address.
    pub(crate) address: u64,
    /// Its bytes.
    pub(crate) bytes: &'a [u8],
}

// A section, if it has bytes in the file.
fn with_bits(found: Option<Section>) -> Option<Section>
    ensures { result ≡ with_bits found }
{
    match found {
        Some(section) if !matches!(section.kind, SectionKind::NoBits) => Some(section),
        _ => None,
    }
}

// The header in a file, if it has one with bytes.
fn header_in<'a>(file: &ElfFile<'a>) -> Result<Option<HeaderSection<'a>>, ElfError>
    ensures ok { IfOk result (λ found. header_in file.now.bytes.now file.now.header ≡ Ok (option_map header_seen found)) }
    ensures err { IfErr result (λ e. header_in file.now.bytes.now file.now.header ≡ Err e) }
{
    let Some(section) = with_bits(file.section_named(b".eh_frame_hdr")?) else {
        return Ok(None);
    };
    let bytes = file.section_bytes(&section)?;
    Ok(Some(HeaderSection {
        address: section.address,
        bytes,
    }))
}

// The header of the file with these bytes, if it has one.
fn header_section_of<'a>(file: &'a [u8]) -> Result<Option<HeaderSection<'a>>, ElfError>
    ensures ok { IfOk result (λ found. header_section_of file.now ≡ Ok (option_map header_seen found)) }
    ensures err { IfErr result (λ e. header_section_of file.now ≡ Err e) }
{
    let file = ElfFile::parse(file)?;
    header_in(&file)
}

/// The header of a file's section of call frames, if there is one.
pub(crate) fn header_for<'a>(
    name: SectionName,
    file: &'a [u8],
) -> Result<Option<HeaderSection<'a>>, ElfError>
    ensures ok { IfOk result (λ found. header_for name file.now ≡ Ok (option_map header_seen found)) }
    ensures err { IfErr result (λ e. header_for name file.now ≡ Err e) }
{
    match name {
        SectionName::EhFrame => header_section_of(file),
        SectionName::DebugFrame => Ok(None),
    }
}

/// What pointers are relative to, with a header at an address.
pub(crate) fn with_header(address: u64, bases: &BaseAddresses) -> BaseAddresses
    ensures { result ≡ with_header address bases.now }
{
    BaseAddresses {
        eh_frame_hdr: SectionBaseAddresses {
            section: Some(address),
            text: bases.eh_frame.text,
            data_base: Some(address),
        },
        eh_frame: bases.eh_frame,
    }
}

// The row of a table with an index, if there is one.
fn row_read<R: Reader>(
    table: &EhHdrTable<'_, R>,
    bases: &BaseAddresses,
    index: usize,
) -> dwarf_constants::Result<Option<HeaderRow>>
    ensures { result ≡ row_read R.Offset.limit index (header_table bases.now.eh_frame_hdr table.now) }
{
    let Some((start, fde)) = table.iter(bases).nth(index)? else {
        return Ok(None);
    };
    Ok(Some(HeaderRow {
        start: start.direct()?,
        fde: fde.direct()?,
    }))
}

// The rows of a table.
fn rows_of_table<R: Reader>(
    alloc: Global,
    table: &EhHdrTable<'_, R>,
    bases: &BaseAddresses,
) -> Result<Result<Vec<HeaderRow>, HeaderFault>, AllocError>
    ensures { IfOk result (AreRows
        (rows_of_table R.Offset.limit (header_table bases.now.eh_frame_hdr table.now))) }
{
    let mut rows = Vec::new(alloc);
    let count = table.iter(bases).size_hint().0;
    for index in 0..count {
        match row_read(table, bases, index) {
            Ok(Some(row)) => rows.push(row)?,
            Ok(None) => return Ok(Ok(rows)),
            Err(error) => return Ok(Err(HeaderFault::UnreadRow(index as u64, error))),
        }
    }
    Ok(Ok(rows))
}

// The rows of a header, if it has some.
fn rows_if_some<R: Reader>(
    alloc: Global,
    header: &ParsedEhFrameHdr<R>,
    bases: &BaseAddresses,
) -> Result<Result<Vec<HeaderRow>, HeaderFault>, AllocError>
    ensures { IfOk result (AreRows (rows_if_some R.Offset.limit bases.now header.now)) }
{
    match header.table() {
        Some(table) => rows_of_table(alloc, &table, bases),
        None => Ok(Err(HeaderFault::NoTable)),
    }
}

/// The address of `.eh_frame`.
pub(crate) fn section_start(bases: &BaseAddresses) -> u64
    ensures { result ≡ section_start bases.now }
{
    bases.eh_frame.section.unwrap_or(0)
}

// The rows of a header, if it says that `.eh_frame` is where it is.
fn rows_if_there<R: Reader>(
    alloc: Global,
    header: &ParsedEhFrameHdr<R>,
    bases: &BaseAddresses,
) -> Result<Result<Vec<HeaderRow>, HeaderFault>, AllocError>
    ensures { IfOk result (AreRows (rows_if_there R.Offset.limit bases.now header.now
        (direct_address header.now.eh_frame_ptr))) }
{
    match header.eh_frame_ptr().direct() {
        Ok(start) if start == section_start(bases) => rows_if_some(alloc, header, bases),
        Ok(start) => Ok(Err(HeaderFault::OtherSection(start))),
        Err(error) => Ok(Err(HeaderFault::Unread(error))),
    }
}

/// The rows of the header with these bytes, or why they can't be compared with the FDEs of its section.
pub(crate) fn header_rows(
    alloc: Global,
    bytes: &[u8],
    bases: &BaseAddresses,
) -> Result<Result<Vec<HeaderRow>, HeaderFault>, AllocError>
    ensures { IfOk result (AreRows (header_rows bases.now bytes.now)) }
{
    match EhFrameHdr::new(bytes, LittleEndian).parse(bases, 8) {
        Ok(header) => rows_if_there(alloc, &header, bases),
        Err(error) => Ok(Err(HeaderFault::Unread(error))),
    }
}
