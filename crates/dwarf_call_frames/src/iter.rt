//! An iterator over the rows of a table.

ghost use Rattle.std.specs.Prelude.{◌≡◌, IfSome};
ghost use Rattle.std.specs.Iterator.{UpTo, at_most};
ghost use Rattle.std.specs.Iterator.SizeHint.{IsWithinCount};
ghost use Rattle.dwarf_call_frames.specs.HeaderTable.{first_table_row, left_by_nth, nth_row, header_table, without_first, without_rows};

use crate::header::ParsedEhFrameHdr;
use crate::rows::{pointer_size, skip_rows};
use dwarf_constants::Result;
use dwarf_frame_rows::{BaseAddresses, Pointer};
use dwarf_readers::Reader;
use std::marker::Model;

/// The rows of a table that are left. A row is the start of an FDE's code, and the address of the
/// FDE itself. There are as many rows as the header says, also if some can't be read.
#[derive(Debug, Drop)]
pub struct EhHdrTableIter<'a, 'bases, R: Reader> {
    hdr: &'a ParsedEhFrameHdr<R>,
    bases: &'bases BaseAddresses,
    // The bytes from the next row on.
    table: R,
    // How many rows are left.
    remain: u64,
}

impl<'a, 'bases, R: Reader> Model for EhHdrTableIter<'a, 'bases, R> {
    ghost use Rattle.std.specs.Prelude.{◌≤◌};
    ghost use Rattle.dwarf_call_frames.specs.HeaderTable.{HeaderTable, header_table};

    ghost Value = { HeaderTable };

    ghost view = { λ i. record (header_table i.bases.now.eh_frame_hdr i.hdr.now) {
      count = i.remain;
      bytes = R.stretch i.table;
    } };

    ghost invariant = { λ i. i.hdr.now.section_offset ≤ (R.stretch i.table).offset };
}

impl<'a, 'bases, R: Reader> EhHdrTableIter<'a, 'bases, R> {
    // The rows of a table.
    pub(crate) fn new(hdr: &'a ParsedEhFrameHdr<R>, bases: &'bases BaseAddresses) -> Self
        ensures { result ≡ header_table bases.now.eh_frame_hdr hdr.now }
    {
        EhHdrTableIter {
            hdr,
            bases,
            table: hdr.table,
            remain: hdr.fde_count,
        }
    }

    /// The next row, or `None` after the last. Fails if the row can't be read, which counts as one
    /// row.
    pub fn next(&mut self) -> Result<Option<(Pointer, Pointer)>>
        ensures row { result ≡ first_table_row self.old }
        ensures left { self.new ≡ without_first self.old }
    {
        if self.remain == 0 {
            return Ok(None);
        }
        self.remain -= 1;
        let row = self.hdr.parse_row(self.bases, &mut self.table)?;
        Ok(Some(row))
    }

    /// The row after the next `n` rows, which it skips without reading them. Fails with
    /// `VariableLengthSearchTable` or `UnknownPointerEncoding` if rows have no common size, with
    /// `UnsupportedOffset` if the size of `n` rows is no offset, and with `UnexpectedEof` if there
    /// aren't as many bytes; the rows that are left are then as before. Fails also as `next` does.
    pub fn nth(&mut self, n: usize) -> Result<Option<(Pointer, Pointer)>>
        ensures row { result ≡ nth_row R.Offset.limit n self.old }
        ensures left { self.new ≡ left_by_nth self.old (without_rows R.Offset.limit n self.old) }
    {
        let hdr = self.hdr;
        let size = pointer_size(hdr.table_enc)?;
        let n = n as u64;
        skip_rows(&mut self.table, size, n)?;
        self.remain = self.remain.saturating_sub(n);
        self.next()
    }
}

impl<'a, 'bases, R: Reader> Iterator for EhHdrTableIter<'a, 'bases, R> {
    ghost use Rattle.std.specs.Iterator.{YieldsFirst, at_most};
    ghost use Rattle.dwarf_call_frames.specs.HeaderTable.{rows_of};

    type Item = Result<(Pointer, Pointer)>;

    ghost next_gives = { YieldsFirst rows_of };

    ghost remaining = { λ t. at_most t.count };

    fn next(&mut self) -> Option<Result<(Pointer, Pointer)>> {
        EhHdrTableIter::next(self).transpose()
    }

    fn size_hint(&self) -> (usize, Option<usize>)
        ensures lower { IsWithinCount result.0 (at_most self.now.count) }
        ensures upper { IfSome result.1 (UpTo (at_most self.now.count)) }
        ensures exact { result ≡ (self.now.count, Some self.now.count) }
    {
        let remain = self.remain as usize;
        (remain, Some(remain))
    }
}
