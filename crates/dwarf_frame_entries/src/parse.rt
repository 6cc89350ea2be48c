//! Reading of entries.

ghost use Rattle.std.specs.Prelude.{◌≡◌, ◌≤◌, ◌-◌};
ghost use Rattle.dwarf_readers.specs.Stretch.{Reads};
ghost use Rattle.dwarf_frame_entries.specs.Entries.{id_at, is_version, return_register_at, sizes_at};
ghost use Rattle.dwarf_frame_entries.specs.EntryViews.{GivesCieAt, GivesEntryWithin, ReadsEntry};
ghost use Rattle.dwarf_frame_entries.specs.Parts.{IsPart};
ghost use Rattle.dwarf_frame_rows.specs.FrameSection.{frame_section};

use crate::augmentation::parse_augmentation;
use crate::cie::{CommonInformationEntry, Head};
use crate::entries::CieOrFde;
use crate::fde::PartialFrameDescriptionEntry;
use crate::section::UnwindSection;
use dwarf_constants::{Error, Format, Register, Result};
use dwarf_frame_rows::{
    _UnwindSectionPrivate, BaseAddresses, CieOffsetEncoding, PointerEncodingParameters,
};
use dwarf_readers::{Reader, ReaderOffset};

// Reads the first entry. There is none at a length of 0.
#[inline(always)]
pub(crate) fn parse_entry<'bases, Section: UnwindSection<R>, R: Reader>(
    section: &Section,
    bases: &'bases BaseAddresses,
    input: &mut R,
) -> Result<Option<CieOrFde<'bases, Section, R>>>
    requires { IsPart (R.stretch (Section.reader section.now)) (R.stretch input.old) }
    ensures { ReadsEntry R.stretch R.Offset.value (frame_section R.Offset.limit Section.kind
        (Section.size section.now) (R.stretch (Section.reader section.now)) bases.now)
        input.old result input.new }
{
    let offset = offset_in(section.section(), input);
    let (length, format) = input.read_initial_length()?;
    if length.into_u64() == 0 {
        return Ok(None);
    }
    let body = input.split(length)?;
    let head = Head { offset, length };
    let entry = parse_body(section, bases, head, format, body)?;
    Ok(Some(entry))
}

// The offset of the reader from the section's start.
#[inline(always)]
fn offset_in<R: Reader>(section: &R, reader: &R) -> R::Offset
    requires { IsPart (R.stretch section.now) (R.stretch reader.now) }
    ensures { R.Offset.value result
        ≡ (R.stretch reader.now).offset - (R.stretch section.now).offset }
{
    reader.offset_from(section)
}

// Reads an entry from its id on. The format is that of its length.
#[inline(always)]
fn parse_body<'bases, Section: UnwindSection<R>, R: Reader>(
    section: &Section,
    bases: &'bases BaseAddresses,
    head: Head<R::Offset>,
    format: Format,
    body: R,
) -> Result<CieOrFde<'bases, Section, R>>
    requires { IsPart (R.stretch (Section.reader section.now)) (R.stretch body) }
    ensures { GivesEntryWithin R.stretch R.Offset.value (frame_section R.Offset.limit Section.kind
        (Section.size section.now) (R.stretch (Section.reader section.now)) bases.now)
        head format body result }
{
    let mut rest = body;
    let id = read_id(Section::cie_offset_encoding(format), &mut rest)?;
    if Section::is_cie(format, id) {
        let cie = parse_cie(section, bases, head, format, rest)?;
        return Ok(CieOrFde::Cie(cie));
    }
    let id_offset = offset_in(section.section(), &body);
    let pointer = R::Offset::from_u64(id)?;
    let Some(cie_offset) = section.resolve_cie_offset(id_offset, pointer) else {
        return Err(Error::OffsetOutOfBounds);
    };
    Ok(CieOrFde::Fde(PartialFrameDescriptionEntry {
        head,
        cie_offset: Section::Offset::from(cie_offset),
        rest,
        section: *section,
        bases,
    }))
}

// Reads an id of this width.
#[inline(always)]
fn read_id<R: Reader>(width: CieOffsetEncoding, input: &mut R) -> Result<u64>
    ensures { Reads result (id_at width (R.stretch input.old)) (R.stretch input.new) }
{
    match width {
        CieOffsetEncoding::U32 => Ok(u64::from(input.read_u32()?)),
        CieOffsetEncoding::U64 => input.read_u64(),
    }
}

// Reads a CIE from its version on.
#[inline(always)]
fn parse_cie<Section: UnwindSection<R>, R: Reader>(
    section: &Section,
    bases: &BaseAddresses,
    head: Head<R::Offset>,
    format: Format,
    input: R,
) -> Result<CommonInformationEntry<R>>
    requires { (R.stretch (Section.reader section.now)).offset ≤ (R.stretch input).offset }
    ensures { GivesCieAt R.stretch R.Offset.value (frame_section R.Offset.limit Section.kind
        (Section.size section.now) (R.stretch (Section.reader section.now)) bases.now)
        head format input result }
{
    let mut rest = input;
    let version = rest.read_u8()?;
    if !is_known(version) {
        return Err(Error::UnknownVersion(u64::from(version)));
    }
    let text = rest.read_null_terminated_slice()?;
    let address_size = read_sizes(section, version, &mut rest)?;
    let code_alignment_factor = rest.read_uleb128()?;
    let data_alignment_factor = rest.read_sleb128()?;
    let register = read_register(version, &mut rest)?;
    let parameters = PointerEncodingParameters {
        bases: &bases.eh_frame,
        func_base: None,
        address_size,
        section: section.section(),
    };
    let augmentation = parse_augmentation(text, &parameters, &mut rest)?;
    Ok(CommonInformationEntry {
        head,
        format,
        version,
        address_size,
        augmentation,
        code_alignment_factor,
        data_alignment_factor,
        return_address_register: Register(register),
        instructions: rest,
    })
}

// Whether this is a version of CIEs.
fn is_known(version: u8) -> bool
    ensures { result ≡ is_version version }
{
    version == 1 || version == 3 || version == 4
}

// Reads the size of an address, if CIEs of this version have it.
#[inline(always)]
fn read_sizes<Section: UnwindSection<R>, R: Reader>(
    section: &Section,
    version: u8,
    input: &mut R,
) -> Result<u8>
    ensures { Reads result (sizes_at Section.kind (Section.size section.now) version
        (R.stretch input.old)) (R.stretch input.new) }
{
    if !Section::has_address_and_segment_sizes(version) {
        return Ok(section.address_size());
    }
    let address_size = input.read_address_size()?;
    let segment_size = input.read_u8()?;
    if segment_size != 0 {
        return Err(Error::UnsupportedSegmentSize);
    }
    Ok(address_size)
}

// Reads the return address register.
#[inline(always)]
fn read_register<R: Reader>(version: u8, input: &mut R) -> Result<u16>
    ensures { Reads result (return_register_at version (R.stretch input.old))
        (R.stretch input.new) }
{
    if version == 1 {
        Ok(u16::from(input.read_u8()?))
    } else {
        input.read_uleb128_u16()
    }
}
