//! The pages of the second level, each a list of functions.

ghost use Rattle.std.specs.Prelude.{◌≡◌, ◌<◌, ◌≤◌, ◌+◌, ◌*◌, ◌^◌, length, IfOk};
ghost use Rattle.framehop_compact_tables.specs.Bytes.{capped_sum};
ghost use Rattle.framehop_compact_tables.specs.Pages.{regular_page, compressed_page, page_header_at, page_at, entries_offset, entry_count, entry_size};

use crate::bytes::{is_within, u16_at, u32_at};
use framehop_errors::CompactFormatError;

/// A page of the second level. Offsets are from the section's start.
#[derive(Clone, Copy, Debug, PartialEq, Eq)]
pub enum Page {
    /// Entries of a start and an encoding, 8 bytes each (`UNWIND_SECOND_LEVEL_REGULAR`).
    Regular {
        /// Where the entries are.
        entries_offset: u32,
        /// How many there are.
        entry_count: u16,
    },
    /// Entries of a start relative to the page's, and the index of an encoding, 4 bytes each
    /// (`UNWIND_SECOND_LEVEL_COMPRESSED`).
    Compressed {
        /// The page's start.
        start: u32,
        /// Where the entries are.
        entries_offset: u32,
        /// How many there are.
        entry_count: u16,
        /// Where the page's own encodings are.
        encodings_offset: u32,
        /// How many there are.
        encoding_count: u16,
    },
}

const REGULAR: u32 = 2;

const COMPRESSED: u32 = 3;

// Where a part of a page is.
fn part_offset(page: u32, part: u16) -> u32
    ensures { result ≡ capped_sum page part }
{
    page.saturating_add(u32::from(part))
}

// The header of a regular page.
fn regular_page(bytes: &[u8], offset: u32) -> Page
    requires { offset + 8 ≤ length bytes.now }
    ensures { result ≡ regular_page bytes.now offset }
{
    let at = offset as usize;
    Page::Regular {
        entries_offset: part_offset(offset, u16_at(bytes, at + 4)),
        entry_count: u16_at(bytes, at + 6),
    }
}

// The header of a compressed page.
fn compressed_page(bytes: &[u8], offset: u32, start: u32) -> Page
    requires { offset + 12 ≤ length bytes.now }
    ensures { result ≡ compressed_page bytes.now offset start }
{
    let at = offset as usize;
    Page::Compressed {
        start,
        entries_offset: part_offset(offset, u16_at(bytes, at + 4)),
        entry_count: u16_at(bytes, at + 6),
        encodings_offset: part_offset(offset, u16_at(bytes, at + 8)),
        encoding_count: u16_at(bytes, at + 10),
    }
}

// The header of the page at an offset.
#[inline(always)]
fn page_header_at(bytes: &[u8], offset: u32, start: u32) -> Result<Page, CompactFormatError>
    ensures { result ≡ page_header_at bytes.now offset start }
{
    let at = offset as usize;
    if !is_within(bytes, at, 4) {
        return Err(CompactFormatError::Truncated);
    }
    match u32_at(bytes, at) {
        REGULAR if is_within(bytes, at, 8) => Ok(regular_page(bytes, offset)),
        COMPRESSED if is_within(bytes, at, 12) => Ok(compressed_page(bytes, offset, start)),
        REGULAR | COMPRESSED => Err(CompactFormatError::Truncated),
        kind => Err(CompactFormatError::BadPageKind(kind)),
    }
}

// The page at an offset, with its entries whole.
#[inline(always)]
pub(crate) fn page_at(bytes: &[u8], offset: u32, start: u32) -> Result<Page, CompactFormatError>
    ensures page { result ≡ page_at bytes.now offset start }
    ensures whole { IfOk result (λ page.
        entries_offset page + entry_size page * entry_count page ≤ length bytes.now) }
{
    let page = page_header_at(bytes, offset, start)?;
    if !is_within(
        bytes,
        page.entries_offset(),
        page.entry_size() * page.entry_count(),
    ) {
        return Err(CompactFormatError::Truncated);
    }
    Ok(page)
}

impl Page {
    // Where the entries are.
    pub(crate) fn entries_offset(self) -> usize
        ensures value { result ≡ entries_offset self }
        ensures few { result < 2 ^ 32 }
    {
        match self {
            Page::Regular { entries_offset, .. } => entries_offset as usize,
            Page::Compressed { entries_offset, .. } => entries_offset as usize,
        }
    }

    // How many there are.
    pub(crate) fn entry_count(self) -> usize
        ensures value { result ≡ entry_count self }
        ensures few { result < 2 ^ 16 }
    {
        match self {
            Page::Regular { entry_count, .. } => usize::from(entry_count),
            Page::Compressed { entry_count, .. } => usize::from(entry_count),
        }
    }

    // How many bytes an entry has.
    pub(crate) fn entry_size(self) -> usize
        ensures value { result ≡ entry_size self }
        ensures few { result ≤ 8 }
    {
        match self {
            Page::Regular { .. } => 8,
            Page::Compressed { .. } => 4,
        }
    }
}
