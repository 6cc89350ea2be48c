//! Whether a section's tables increase.

ghost use Rattle.std.specs.Prelude.{◌≡◌, ◌<◌, ◌+◌, ◌↔◌, Ok, Err, IfOk, IfErr, IsTrue};
ghost use Rattle.framehop_compact_tables.specs.Index.{index_count};
ghost use Rattle.framehop_compact_tables.specs.Functions.{page_of};
ghost use Rattle.framehop_compact_tables.specs.Increasing.{HasIncreasingPage, HaveIncreasingPages, IsIncreasing};

use crate::index::Index;
use crate::page::page_at;
use crate::page_entries::PageEntries;
use crate::search::rows_increase;
use framehop_errors::CompactFormatError;
use sorted_starts::Starts;

// The entries of the page of an entry of the index.
#[inline(always)]
pub(crate) fn page_of<'a>(
    index: &Index<'a>,
    row: usize,
) -> Result<PageEntries<'a>, CompactFormatError>
    requires { row < index_count index.now.bytes.now }
    ensures ok { IfOk result (λ entries. (entries.bytes.now ≡ index.now.bytes.now)
        × (page_of index.now.bytes.now row ≡ Ok entries.page)) }
    ensures err { IfErr result (λ e. page_of index.now.bytes.now row ≡ Err e) }
{
    let bytes = index.bytes;
    let page = page_at(bytes, index.page_offset(row), index.start_at(row))?;
    let entries = &bytes[page.entries_offset()..];
    let before = &bytes[page.entries_offset().saturating_sub(1)..];
    Ok(PageEntries {
        bytes,
        page,
        entries,
        before,
    })
}

// Whether the page of an entry can be read, and its starts increase.
fn has_increasing_page(index: &Index<'_>, row: usize) -> bool
    requires { row < index_count index.now.bytes.now }
    ensures { IsTrue result ↔ HasIncreasingPage index.now.bytes.now row }
{
    match page_of(index, row) {
        Ok(entries) => rows_increase(&entries),
        Err(_) => false,
    }
}

// Whether all pages can be read, and their starts increase.
fn pages_increase(index: &Index<'_>) -> bool
    requires { 0 < index_count index.now.bytes.now }
    ensures { IsTrue result ↔ HaveIncreasingPages index.now.bytes.now }
{
    for row in 0..index.start_count() - 1 {
        if !has_increasing_page(index, row) {
            return false;
        }
    }
    true
}

/// Whether the tables of `__unwind_info` are whole and the starts in each increase strictly: those of the index, which has
/// an entry, and those of the page of every entry but the last. Linkers write them so.
pub fn is_increasing(bytes: &[u8]) -> bool
    ensures { IsTrue result ↔ IsIncreasing bytes.now }
{
    let Ok(index) = Index::read(bytes) else {
        return false;
    };
    if index.count == 0 || !rows_increase(&index) {
        return false;
    }
    pages_increase(&index)
}
