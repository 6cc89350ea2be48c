//! The table, and lookups in it.

ghost use Rattle.std.specs.Prelude.{◌≡◌, ◌≤◌, ◌<◌, ◌+◌, ◌^◌, ℕ};
ghost use Rattle.dwarf_endianity.specs.Answers.{Gives};
ghost use Rattle.dwarf_call_frames.specs.Header.{offset_of_pointer};
ghost use Rattle.dwarf_call_frames.specs.HeaderTable.{GivesHalvingIn, header_row, starts_read, header_table};

use crate::header::ParsedEhFrameHdr;
use crate::iter::EhHdrTableIter;
use crate::rows::pointer_size;
use dwarf_constants::{Error, Result};
use dwarf_frame_rows::{BaseAddresses, Pointer};
use dwarf_offsets::EhFrameOffset;
use dwarf_readers::{Counted, Reader, ReaderOffset, Steps, count_steps};
use std::cmp::Ordering;
use std::marker::Model;
use std::sync::ledger::Ledger;

/// The table of a header, which has at least one row. Linkers write the rows in the order of their
/// starts, which lookups rely on to find the right one; in any other order they still end, with
/// some row or an error.
#[derive(Debug, Drop)]
pub struct EhHdrTable<'a, R: Reader> {
    hdr: &'a ParsedEhFrameHdr<R>,
}

impl<'a, R: Reader> Model for EhHdrTable<'a, R> {
    ghost use Rattle.std.specs.Prelude.{◌<◌};
    ghost use Rattle.dwarf_call_frames.specs.Header.{Header};

    ghost Value = { Header };

    ghost view = { λ table. table.hdr.now };

    ghost invariant = { λ table. 0 < table.hdr.now.count };
}

impl<'a, R: Reader> EhHdrTable<'a, R> {
    // The table of a header that has rows.
    pub(crate) fn new(hdr: &'a ParsedEhFrameHdr<R>) -> Self
        requires { 0 < hdr.now.count }
        ensures { result ≡ hdr.now }
    {
        EhHdrTable { hdr }
    }

    /// The rows in their order.
    pub fn iter<'bases>(&self, bases: &'bases BaseAddresses) -> EhHdrTableIter<'a, 'bases, R>
        ensures { result ≡ header_table bases.now.eh_frame_hdr self.now }
    {
        EhHdrTableIter::new(self.hdr, bases)
    }

    /// The pointer to the FDE in the row for an address: if starts increase, the last row whose
    /// start is at or below the address, or else the first row. The FDE may not contain the
    /// address.
    ///
    /// Fails with `VariableLengthSearchTable` if pointers have no common size, with
    /// `UnknownPointerEncoding` if their size isn't 2, 4 or 8 bytes by their encoding, with
    /// `UnsupportedPointerEncoding` at a start that is an indirect pointer, and if the bytes end.
    pub fn lookup(&self, address: u64, bases: &BaseAddresses) -> Result<Pointer>
        ensures { result ≡ header_row R.Offset.limit address
            (header_table bases.now.eh_frame_hdr self.now) }
    {
        count_steps(TableLookup {
            table: self,
            address,
            bases,
        })
    }

    /// As `lookup`; it counts a step for each start that it reads, which are at most ceil(log2(n))
    /// of n rows, in any order.
    pub fn lookup_counted<L: Ledger>(
        &self,
        address: u64,
        bases: &BaseAddresses,
        steps: &mut Steps<L>,
    ) -> Result<Pointer>
        ensures row { result ≡ header_row R.Offset.limit address
            (header_table bases.now.eh_frame_hdr self.now) }
        ensures counted { steps.new ≡ steps.old + starts_read R.Offset.limit address
            (header_table bases.now.eh_frame_hdr self.now) }
        ensures few { (k : ℕ) → self.now.count ≤ 2 ^ k → steps.new ≤ steps.old + k }
    {
        match self.hdr.as_linked() {
            Some(hdr) => EhHdrTable::new(&hdr).look_up(address, bases, steps),
            None => self.look_up_apart(address, bases, steps),
        }
    }

    // The same, in code of its own, so that each of the two halves in few instructions.
    #[cold]
    #[inline(never)]
    fn look_up_apart<L: Ledger>(
        &self,
        address: u64,
        bases: &BaseAddresses,
        steps: &mut Steps<L>,
    ) -> Result<Pointer>
        ensures row { result ≡ header_row R.Offset.limit address
            (header_table bases.now.eh_frame_hdr self.now) }
        ensures counted { steps.new ≡ steps.old + starts_read R.Offset.limit address
            (header_table bases.now.eh_frame_hdr self.now) }
        ensures few { (k : ℕ) → self.now.count ≤ 2 ^ k → steps.new ≤ steps.old + k }
    {
        self.look_up(address, bases, steps)
    }

    // The same, by the header as it is given.
    #[inline(always)]
    fn look_up<L: Ledger>(
        &self,
        address: u64,
        bases: &BaseAddresses,
        steps: &mut Steps<L>,
    ) -> Result<Pointer>
        ensures row { result ≡ header_row R.Offset.limit address
            (header_table bases.now.eh_frame_hdr self.now) }
        ensures counted { steps.new ≡ steps.old + starts_read R.Offset.limit address
            (header_table bases.now.eh_frame_hdr self.now) }
        ensures few { (k : ℕ) → self.now.count ≤ 2 ^ k → steps.new ≤ steps.old + k }
    {
        let hdr = self.hdr;
        let size = pointer_size(hdr.table_enc)?;
        self.halve(size, address, bases, steps)
    }

    // Halves the rows until one is left, or until a start is the address.
    #[inline(always)]
    fn halve<L: Ledger>(
        &self,
        size: u8,
        address: u64,
        bases: &BaseAddresses,
        steps: &mut Steps<L>,
    ) -> Result<Pointer>
        ensures { GivesHalvingIn R.Offset.limit size address
            (header_table bases.now.eh_frame_hdr self.now) result steps.old steps.new }
    {
        let hdr = self.hdr;
        let mut first = 0;
        let mut count = hdr.fde_count;
        'halves: while count > 1 {
            let half = count / 2;
            let pivot = first + half;
            steps.tick();
            match hdr.start_at(size, pivot, bases)?.cmp(&address) {
                Ordering::Equal => return hdr.target_at(size, pivot, bases),
                Ordering::Less => {
                    first = pivot;
                    count -= half;
                }
                Ordering::Greater => count = half,
            }
        }
        hdr.target_at(size, first, bases)
    }

    /// The offset from the start of `.eh_frame` of what a pointer of the table points at. Fails
    /// with `UnsupportedPointerEncoding` if the pointer, or that to the section, is indirect, with
    /// `OffsetOutOfBounds` if the pointer is below the section's start, and with
    /// `UnsupportedOffset` if the offset is out of range for the reader.
    pub fn pointer_to_offset(&self, pointer: Pointer) -> Result<EhFrameOffset<R::Offset>>
        ensures { Gives (λ offset. R.Offset.value offset.0) result
            (offset_of_pointer R.Offset.limit self.now pointer) }
    {
        let address = pointer.direct()?;
        let start = self.hdr.eh_frame_ptr().direct()?;
        match address.checked_sub(start) {
            Some(offset) => Ok(EhFrameOffset(R::Offset::from_u64(offset)?)),
            None => Err(Error::OffsetOutOfBounds),
        }
    }
}

// A lookup whose steps nobody asks for.
#[derive(Drop)]
struct TableLookup<'t, 'a, 'b, R: Reader> {
    table: &'t EhHdrTable<'a, R>,
    address: u64,
    bases: &'b BaseAddresses,
}

impl<'t, 'a, 'b, R: Reader> Counted for TableLookup<'t, 'a, 'b, R> {
    ghost use Rattle.std.specs.Prelude.{◌≡◌};
    ghost use Rattle.dwarf_call_frames.specs.HeaderTable.{header_row, header_table};

    type Answer = Result<Pointer>;

    ghost says = { λ c answer n. answer ≡ header_row R.Offset.limit c.address
        (header_table c.bases.now.eh_frame_hdr c.table.now) };

    fn run<L: Ledger>(self, steps: &mut Steps<L>) -> Result<Pointer> {
        self.table.lookup_counted(self.address, self.bases, steps)
    }
}
