//! Reading the rows of a table.

ghost use Rattle.std.specs.Prelude.{◌≡◌, ◌≤◌, ◌*◌, OnErr};
ghost use Rattle.dwarf_endianity.specs.Answers.{Gives};
ghost use Rattle.dwarf_readers.specs.Stretch.{Moves};
ghost use Rattle.dwarf_frame_rows.specs.EncodedPointer.{left_by_pointer, pointer_at};
ghost use Rattle.dwarf_endianity.specs.Offset.{offset_below};
ghost use Rattle.dwarf_call_frames.specs.HeaderTable.{LeavesInTable, ReadsInTable, after_rows, left_by_row, pointer_size, row_at, start_at, header_table, target_at};

use crate::header::ParsedEhFrameHdr;
use dwarf_constants::constants::{
    DW_EH_PE_sdata2, DW_EH_PE_sdata4, DW_EH_PE_sdata8, DW_EH_PE_sleb128, DW_EH_PE_udata2,
    DW_EH_PE_udata4, DW_EH_PE_udata8, DW_EH_PE_uleb128,
};
use dwarf_constants::{DwEhPe, Error, Result};
use dwarf_frame_rows::{BaseAddresses, Pointer, PointerEncodingParameters, parse_encoded_pointer};
use dwarf_readers::{Reader, ReaderOffset};

impl<R: Reader> ParsedEhFrameHdr<R> {
    // Reads a pointer of the table.
    #[inline(always)]
    pub(crate) fn parse_pointer(&self, bases: &BaseAddresses, input: &mut R) -> Result<Pointer>
        requires { self.now.section_offset ≤ (R.stretch input.old).offset }
        ensures read { ReadsInTable R.stretch pointer_at
            (header_table bases.now.eh_frame_hdr self.now) input.old result input.new }
        ensures refused { LeavesInTable R.stretch left_by_pointer
            (header_table bases.now.eh_frame_hdr self.now) input.old result input.new }
    {
        let parameters = PointerEncodingParameters {
            bases: &bases.eh_frame_hdr,
            func_base: None,
            address_size: self.address_size,
            section: &self.section,
        };
        parse_encoded_pointer(self.table_enc, &parameters, input)
    }

    // Reads a row: the start of an FDE's code, and the pointer to the FDE.
    pub(crate) fn parse_row(
        &self,
        bases: &BaseAddresses,
        input: &mut R,
    ) -> Result<(Pointer, Pointer)>
        requires { self.now.section_offset ≤ (R.stretch input.old).offset }
        ensures read { ReadsInTable R.stretch row_at
            (header_table bases.now.eh_frame_hdr self.now) input.old result input.new }
        ensures refused { LeavesInTable R.stretch left_by_row
            (header_table bases.now.eh_frame_hdr self.now) input.old result input.new }
    {
        let start = self.parse_pointer(bases, input)?;
        let target = self.parse_pointer(bases, input)?;
        Ok((start, target))
    }

    // The start in the row with this index. Pointers have this size in bytes.
    #[inline(always)]
    pub(crate) fn start_at(&self, size: u8, index: u64, bases: &BaseAddresses) -> Result<u64>
        ensures { result ≡ start_at R.Offset.limit size
            (header_table bases.now.eh_frame_hdr self.now) index }
    {
        let mut input = self.table;
        skip_rows(&mut input, size, index)?;
        self.parse_pointer(bases, &mut input)?.direct()
    }

    // The pointer to an FDE in the row with this index. Pointers have this size in bytes. It is read once, and not in line: a function that
    // grew large by it wouldn't be put in line itself.
    #[inline(never)]
    pub(crate) fn target_at(&self, size: u8, index: u64, bases: &BaseAddresses) -> Result<Pointer>
        ensures { result ≡ target_at R.Offset.limit size
            (header_table bases.now.eh_frame_hdr self.now) index }
    {
        let mut input = self.table;
        skip_rows(&mut input, size, index)?;
        input.skip(R::Offset::from_u8(size))?;
        self.parse_pointer(bases, &mut input)
    }
}

// The size in bytes of pointers of this encoding, if it doesn't depend on their values.
pub(crate) fn pointer_size(encoding: DwEhPe) -> Result<u8>
    ensures { Gives (λ size. size) result (pointer_size encoding.0) }
{
    match encoding.format() {
        DW_EH_PE_uleb128 | DW_EH_PE_sleb128 => Err(Error::VariableLengthSearchTable),
        DW_EH_PE_udata2 | DW_EH_PE_sdata2 => Ok(2),
        DW_EH_PE_udata4 | DW_EH_PE_sdata4 => Ok(4),
        DW_EH_PE_udata8 | DW_EH_PE_sdata8 => Ok(8),
        _ => Err(Error::UnknownPointerEncoding(encoding)),
    }
}

// Skips rows whose pointers have this size in bytes.
#[inline(always)]
pub(crate) fn skip_rows<R: Reader>(input: &mut R, size: u8, count: u64) -> Result<()>
    ensures moved { Moves result (after_rows R.Offset.limit size count (R.stretch input.old))
        (R.stretch input.new) }
    ensures unchanged { OnErr result (R.stretch input.new ≡ R.stretch input.old) }
{
    input.skip(offset_of_row(size, count)?)
}

// The size in bytes of rows whose pointers have this size.
#[inline(always)]
fn offset_of_row<O: ReaderOffset>(size: u8, count: u64) -> Result<O>
    ensures { Gives O.value result (offset_below O.limit (count * (2 * size))) }
{
    // By this conversion it is known that offsets are below 2^64.
    let _zero = O::from_u8(0).into_u64();
    match count.checked_mul(2 * u64::from(size)) {
        Some(offset) => O::from_u64(offset),
        None => Err(Error::UnsupportedOffset),
    }
}
