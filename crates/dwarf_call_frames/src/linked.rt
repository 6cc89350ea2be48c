//! Headers as linkers write them, of which a look-up decodes no encoding.

ghost use Rattle.std.specs.Prelude.{◌≡◌, ◌≤◌, ◌<◌, ◌+◌, ◌*◌, false, Ok, IfSome, drop, length, take};
ghost use Rattle.dwarf_endianity.specs.Answers.{Gives};
ghost use Rattle.dwarf_endianity.specs.ByteOrder.{number_of};
ghost use Rattle.dwarf_call_frames.specs.Halving.{halving};
ghost use Rattle.dwarf_call_frames.specs.Linked.{BeginsLinked, GivesNamed, HasRows, IsKeptOf, linked_pointer, linked_rows, offset_from, target_in};

use dwarf_constants::{Error, Result};
use dwarf_endianity::{Endianity, LittleEndian};
use dwarf_frame_rows::BaseAddresses;
use std::cmp::Ordering;

/// What is kept of a header, so that a look-up decodes no encoding, if its encodings are those that linkers write: a pointer to
/// `.eh_frame` of four bytes that is relative to itself (`DW_EH_PE_pcrel` and `DW_EH_PE_sdata4`), the number of rows in four bytes
/// (`DW_EH_PE_udata4`), and a table of pointers of four bytes that are relative to the header (`DW_EH_PE_datarel` and
/// `DW_EH_PE_sdata4`). Numbers are little-endian, and addresses have 8 bytes.
#[derive(Debug, Clone, Copy)]
pub struct LinkedHeader {
    // The address at which `.eh_frame` starts.
    section_start: u64,
    // The address that pointers of the table are relative to.
    base: u64,
    // How many rows the table has, at least one.
    count: usize,
}

// Whether bytes begin with the version and the three encodings of such a header.
fn begins_linked(bytes: &[u8]) -> bool
    requires { 4 ≤ length bytes.now }
    ensures { BeginsLinked bytes.now result }
{
    bytes[0] == 1 && bytes[1] == 0x1b && bytes[2] == 0x03 && bytes[3] == 0x3b
}

// The number in the four bytes at this offset.
fn number_in(bytes: &[u8], at: usize) -> u32
    requires { at + 4 ≤ length bytes.now }
    ensures { result ≡ number_of false (take 4 (drop at bytes.now)) }
{
    LittleEndian.read_u32(&bytes[at..])
}

// The pointer of four bytes at this offset, which is relative to a base.
#[inline(always)]
fn pointer_in(bytes: &[u8], base: u64, at: usize) -> u64
    requires { at + 4 ≤ length bytes.now }
    ensures { result ≡ linked_pointer base (drop at bytes.now) }
{
    let value = i64::from(LittleEndian.read_i32(&bytes[at..]));
    base.wrapping_add(value.cast_unsigned())
}

// The bytes of the table: those after the version, the encodings, the pointer to `.eh_frame` and the number of rows.
#[inline(always)]
fn table_of(bytes: &[u8]) -> &[u8]
    requires { 12 ≤ length bytes.now }
    ensures { result.now ≡ drop 12 bytes.now }
{
    &bytes[12..]
}

impl LinkedHeader {
    /// What is kept of the header of these bytes: `None` unless its encodings are those that linkers write, the base addresses that
    /// its pointers are relative to are known, and its table has rows, for which there are bytes.
    pub fn of(bytes: &[u8], bases: &BaseAddresses) -> Option<LinkedHeader>
        ensures { IfSome result (IsKeptOf bases.now bytes.now) }
    {
        if bytes.len() < 12 || !begins_linked(bytes) {
            return None;
        }
        let start = bases.eh_frame_hdr.section?;
        let base = bases.eh_frame_hdr.data_base?;
        let section_start = pointer_in(bytes, start.wrapping_add(4), 4);
        let count = number_in(bytes, 8) as usize;
        if count == 0 || (bytes.len() - 12) / 8 < count {
            return None;
        }
        Some(LinkedHeader {
            section_start,
            base,
            count,
        })
    }

    // The index of the row that halving reaches.
    #[inline(always)]
    fn row_for(&self, table: &[u8], address: u64) -> usize
        requires some { 0 < self.now.count }
        requires room { 8 * self.now.count ≤ length table.now }
        ensures within { result < self.now.count }
        ensures reached { (halving address (linked_rows self.now table.now)).reached
            ≡ Ok (target_in self.now table.now result) }
    {
        let mut first = 0;
        let mut count = self.count;
        'halves: while count > 1 {
            let half = count / 2;
            let pivot = first + half;
            match pointer_in(table, self.base, 8 * pivot).cmp(&address) {
                Ordering::Equal => return pivot,
                Ordering::Less => {
                    first = pivot;
                    count -= half;
                }
                Ordering::Greater => count = half,
            }
        }
        first
    }

    // The offset from the start of `.eh_frame` of an address.
    fn offset_of(&self, address: u64) -> Result<u64>
        ensures { Gives (λ offset. offset) result (offset_from self.now address) }
    {
        match address.checked_sub(self.section_start) {
            Some(offset) => Ok(offset),
            None => Err(Error::OffsetOutOfBounds),
        }
    }

    /// The offset from the start of `.eh_frame` of the FDE in the row for an address, as [`EhHdrTable::lookup`] and
    /// [`EhHdrTable::pointer_to_offset`] give it. Fails with `OffsetOutOfBounds` if the pointer to the FDE is below the section's
    /// start. The bytes have to be those of the header.
    ///
    /// [`EhHdrTable::lookup`]: crate::EhHdrTable::lookup
    /// [`EhHdrTable::pointer_to_offset`]: crate::EhHdrTable::pointer_to_offset
    pub fn fde_offset(&self, bytes: &[u8], address: u64) -> Result<u64>
        requires { HasRows bytes.now self.now }
        ensures { GivesNamed self.now bytes.now address result }
    {
        let table = table_of(bytes);
        let row = self.row_for(table, address);
        self.offset_of(pointer_in(table, self.base, 8 * row + 4))
    }
}
