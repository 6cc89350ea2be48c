//! The index of the first level, with an entry for each page.

ghost use Rattle.std.specs.Prelude.{◌≡◌, ◌<◌, ◌≤◌, ◌+◌, ◌*◌, drop, length, Ok, Err, IfOk, IfErr, true, false};
ghost use Rattle.framehop_compact_tables.specs.Index.{index_offset, index_count, index_start, index_page, index_is_whole};
ghost use Rattle.framehop_errors.specs.declared.compact_format.CompactFormatError.TheVariants.{Truncated};

use crate::bytes::{is_within, u32_after, u32_at};
use framehop_errors::CompactFormatError;
use sorted_starts::{Starts, count_at_most};

/// The index of the first level (`unwind_info_section_header_index_entry`).
#[derive(Clone, Copy, Debug)]
pub(crate) struct Index<'a> {
    pub(crate) bytes: &'a [u8],
    offset: u32,
    // The bytes from the entries on.
    entries: &'a [u8],
    pub(crate) count: u32,
    ghost header: { 28 ≤ length bytes.now },
    ghost at: { offset ≡ index_offset bytes.now },
    ghost counted: { count ≡ index_count bytes.now },
    ghost whole: { offset + 12 * count ≤ length bytes.now },
    ghost from_entries: { entries.now ≡ drop offset bytes.now },
}

impl<'a> Index<'a> {
    // The index, if the header and all of the index are there.
    pub(crate) fn read(bytes: &'a [u8]) -> Result<Index<'a>, CompactFormatError>
        ensures ok { IfOk result (λ index. (index.bytes.now ≡ bytes.now) × (index_is_whole bytes.now ≡ true)) }
        ensures err { IfErr result (λ e. (e ≡ Truncated) × (index_is_whole bytes.now ≡ false)) }
    {
        if !is_within(bytes, 0, 28) {
            return Err(CompactFormatError::Truncated);
        }
        let offset = u32_at(bytes, 20);
        let count = u32_at(bytes, 24);
        if !is_within(bytes, offset as usize, 12 * count as usize) {
            return Err(CompactFormatError::Truncated);
        }
        Ok(Index {
            bytes,
            offset,
            entries: &bytes[offset as usize..],
            count,
        })
    }

    // The offset of an entry's page.
    pub(crate) fn page_offset(&self, row: usize) -> u32
        requires { row < index_count self.now.bytes.now }
        ensures { result ≡ index_page self.now.bytes.now row }
    {
        u32_at(self.bytes, self.offset as usize + 12 * row + 4)
    }
}

impl Starts for Index<'_> {
    ghost count = { λ index. index_count index.bytes.now };

    ghost start = { λ index. index_start index.bytes.now };

    fn start_count(&self) -> usize {
        self.count as usize
    }

    fn start_at(&self, row: usize) -> u32 {
        u32_at(self.bytes, self.offset as usize + 12 * row)
    }

    #[inline(always)]
    fn count_at_or_below(&self, row: usize, more: usize, address: u32) -> usize {
        let start = u32_after(self.entries, 12 * row, 12 * more);
        count_at_most(u64::from(start), u64::from(address))
    }
}
