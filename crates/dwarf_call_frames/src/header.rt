//! The section `.eh_frame_hdr`, and its header before the table.

ghost use Rattle.std.specs.Prelude.{◌≡◌, ◌≤◌, IfSome, OnErr};
ghost use Rattle.dwarf_constants.specs.declared.common.SectionId.TheVariants as id;
ghost use Rattle.dwarf_endianity.specs.Answers.{Gives};
ghost use Rattle.dwarf_readers.specs.EndianSlice.{stretch_of};
ghost use Rattle.dwarf_readers.specs.Stretch.{Reads, whole};
ghost use Rattle.dwarf_call_frames.specs.Header.{count_at, header_at};
ghost use Rattle.dwarf_call_frames.specs.HeaderTable.{header_with_table};

use crate::table::EhHdrTable;
use dwarf_constants::constants::DW_EH_PE_omit;
use dwarf_constants::{DwEhPe, Error, Result, SectionId};
use dwarf_frame_rows::{
    BaseAddresses, Pointer, PointerEncodingParameters, parse_encoded_pointer, parse_encoded_value,
    parse_pointer_encoding,
};
use dwarf_read_core::Section;
use dwarf_readers::{EndianSlice, Endianity, Reader};
use std::marker::Model;

/// The section `.eh_frame_hdr` (LSB 5.0, 10.6.2).
#[derive(Debug, Clone, Copy)]
pub struct EhFrameHdr<R> {
    section: R,
}

impl<R> Model for EhFrameHdr<R> {
    ghost Value = { R };

    ghost view = { λ s. s.section };

    ghost inverse = { λ r. record { section = r } };
}

impl<'a, E: Endianity> EhFrameHdr<EndianSlice<'a, E>> {
    /// The section with these bytes.
    pub fn new(section: &'a [u8], endian: E) -> Self
        ensures { stretch_of E.is_big result ≡ whole (E.is_big endian) section.now }
    {
        Self::from(EndianSlice::new(section, endian))
    }
}

impl<R: Reader> EhFrameHdr<R> {
    /// Reads the header, up to the rows of the table. `address_size` is the size of an address in
    /// bytes. Fails with `UnknownVersion` if the version isn't 1, with `UnsupportedPointerEncoding`
    /// if the number of rows isn't encoded as a plain number, and as encoded pointers do.
    pub fn parse(&self, bases: &BaseAddresses, address_size: u8) -> Result<ParsedEhFrameHdr<R>>
        ensures { Gives (λ header. header) result
            (header_at bases.now.eh_frame_hdr address_size (R.stretch self.now)) }
    {
        let mut reader = self.section;
        let version = reader.read_u8()?;
        if version != 1 {
            return Err(Error::UnknownVersion(u64::from(version)));
        }
        let pointer_enc = parse_pointer_encoding(&mut reader)?;
        let count_enc = parse_pointer_encoding(&mut reader)?;
        let table_enc = parse_pointer_encoding(&mut reader)?;
        let parameters = PointerEncodingParameters {
            bases: &bases.eh_frame_hdr,
            func_base: None,
            address_size,
            section: &self.section,
        };
        let eh_frame_ptr = parse_encoded_pointer(pointer_enc, &parameters, &mut reader)?;
        let fde_count = parse_count(count_enc, table_enc, address_size, &mut reader)?;
        Ok(ParsedEhFrameHdr {
            section: self.section,
            address_size,
            eh_frame_ptr,
            table_enc,
            fde_count,
            table: reader,
        })
    }
}

// Reads the number of rows.
fn parse_count<R: Reader>(
    encoding: DwEhPe,
    table_enc: DwEhPe,
    address_size: u8,
    input: &mut R,
) -> Result<u64>
    ensures { Reads result (count_at address_size encoding.0 table_enc.0 (R.stretch input.old))
        (R.stretch input.new) }
{
    if encoding == DW_EH_PE_omit || table_enc == DW_EH_PE_omit {
        return Ok(0);
    }
    if encoding != encoding.format() {
        return Err(Error::UnsupportedPointerEncoding);
    }
    parse_encoded_value(encoding, address_size, input)
}

impl<R> From<R> for EhFrameHdr<R> {
    ghost from_gives = { λ r s. s ≡ r };

    fn from(section: R) -> EhFrameHdr<R> {
        EhFrameHdr { section }
    }
}

impl<R: Reader> Section<R> for EhFrameHdr<R> {
    ghost which = { id.EhFrameHdr };

    ghost section = { λ s. s };

    ghost of = { λ r s gives. gives };

    fn id() -> SectionId {
        SectionId::EhFrameHdr
    }

    fn reader(&self) -> &R {
        &self.section
    }
}

// The encoding that linkers write for pointers of the table: `DW_EH_PE_datarel` and `DW_EH_PE_sdata4`, that is by four bytes from the
// section's start.
const LINKED: DwEhPe = DwEhPe(0x3b);

/// The header of the section, and the bytes of its table.
#[derive(Debug, Drop)]
pub struct ParsedEhFrameHdr<R: Reader> {
    pub(crate) section: R,
    pub(crate) address_size: u8,
    pub(crate) eh_frame_ptr: Pointer,
    pub(crate) table_enc: DwEhPe,
    pub(crate) fde_count: u64,
    pub(crate) table: R,
}

impl<R: Reader> Model for ParsedEhFrameHdr<R> {
    ghost use Rattle.std.specs.Prelude.{◌≤◌};
    ghost use Rattle.dwarf_call_frames.specs.Header.{Header};

    ghost Value = { Header };

    ghost view = { λ header. record {
      section_offset = (R.stretch header.section).offset;
      address_size = header.address_size;
      eh_frame_ptr = header.eh_frame_ptr;
      table_encoding = header.table_enc.0;
      count = header.fde_count;
      rows = R.stretch header.table;
    } };

    ghost invariant = { λ header.
        (R.stretch header.section).offset ≤ (R.stretch header.table).offset };
}

impl<R: Reader> ParsedEhFrameHdr<R> {
    /// The pointer to the start of the section `.eh_frame`.
    pub fn eh_frame_ptr(&self) -> Pointer
        ensures { result ≡ self.now.eh_frame_ptr }
    {
        self.eh_frame_ptr
    }

    // The same header, if its pointers are encoded as linkers write them and addresses have 8 bytes: where this is called, the compiler
    // knows both, and pointers are read without asking how.
    #[inline(always)]
    pub(crate) fn as_linked(&self) -> Option<Self>
        ensures { IfSome result (λ header. header ≡ self.now) }
    {
        if self.table_enc != LINKED || self.address_size != 8 {
            return None;
        }
        Some(ParsedEhFrameHdr {
            section: self.section,
            address_size: 8,
            eh_frame_ptr: self.eh_frame_ptr,
            table_enc: LINKED,
            fde_count: self.fde_count,
            table: self.table,
        })
    }

    /// The table, if it has rows.
    pub fn table(&self) -> Option<EhHdrTable<'_, R>>
        ensures { result ≡ header_with_table self.now }
    {
        if self.fde_count == 0 {
            return None;
        }
        Some(EhHdrTable::new(self))
    }
}
