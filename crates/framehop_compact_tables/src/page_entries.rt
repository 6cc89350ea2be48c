//! The entries of a page, each a function.

ghost use Rattle.std.specs.Prelude.{◌≡◌, ◌<◌, ◌≤◌, ◌+◌, ◌-◌, ◌*◌, ◌/◌, ◌%◌, ◌^◌, ℕ, ◌↔◌, nat_le, if◌then◌else◌, length, drop};
ghost use Rattle.framehop_compact_tables.specs.Bytes.{capped_sum};
ghost use Rattle.framehop_compact_tables.specs.Index.{common_offset, common_count};
ghost use Rattle.framehop_compact_tables.specs.Pages.{entries_offset, entry_count, entry_size, entry_start, encoding_at, indexed_encoding, encoding_of};

use crate::bytes::{is_within, u32_after, u32_at, u32_below};
use crate::page::Page;
use framehop_errors::CompactFormatError;
use sorted_starts::{Starts, count_at_most};

/// The entries of a page.
#[derive(Clone, Copy, Debug)]
pub(crate) struct PageEntries<'a> {
    pub(crate) bytes: &'a [u8],
    pub(crate) page: Page,
    // The bytes from the entries on.
    pub(crate) entries: &'a [u8],
    // The bytes from one below the entries on, if there is one there.
    pub(crate) before: &'a [u8],
    ghost header: { 28 ≤ length bytes.now },
    ghost whole: { entries_offset page + entry_size page * entry_count page ≤ length bytes.now },
    ghost from_entries: { entries.now ≡ drop (entries_offset page) bytes.now },
    ghost from_before: { before.now ≡ drop (entries_offset page - 1) bytes.now },
}

// The encoding at an offset.
#[inline(always)]
fn encoding_at(bytes: &[u8], offset: usize) -> Result<u32, CompactFormatError>
    requires { offset < 2 ^ 60 }
    ensures { result ≡ encoding_at bytes.now offset }
{
    if !is_within(bytes, offset, 4) {
        return Err(CompactFormatError::Truncated);
    }
    Ok(u32_at(bytes, offset))
}

// The encoding with an index: the common ones first, then the page's.
#[inline(always)]
fn indexed_encoding(
    bytes: &[u8],
    encodings_offset: u32,
    encoding_count: u16,
    index: u8,
) -> Result<u32, CompactFormatError>
    requires { 28 ≤ length bytes.now }
    ensures { result ≡ indexed_encoding bytes.now encodings_offset encoding_count index }
{
    let common_count = u32_at(bytes, 8);
    let index = u32::from(index);
    if index < common_count {
        return encoding_at(bytes, u32_at(bytes, 4) as usize + 4 * index as usize);
    }
    let own = index - common_count;
    if own < u32::from(encoding_count) {
        return encoding_at(bytes, encodings_offset as usize + 4 * own as usize);
    }
    Err(CompactFormatError::BadEncodingIndex)
}

// What a sum of two numbers is at most if it is at most an address once it stops at the greatest number of 32 bits.
#[inline(always)]
fn limit_of_sums(address: u32) -> u64
    ensures limit { (a b : ℕ) → a < 2 ^ 32 → b < 2 ^ 32 → (a + b ≤ result) ↔ (capped_sum a b ≤ address) }
    ensures few { result ≤ 2 ^ 33 }
{
    if address == u32::MAX {
        1 << 33
    } else {
        u64::from(address)
    }
}

// 1 if an entry of a compressed page with this start and this word starts at or below an address, else 0.
#[inline(always)]
fn count_of_compressed(start: u32, word: u32, address: u32) -> usize
    ensures { result ≡ (if nat_le (capped_sum start (word % 0x1000000)) address then 1 else 0) }
{
    let sum = u64::from(u32::MAX) + u64::from(word % 0x100_0000);
    count_at_most(sum, limit_of_sums(address) + u64::from(u32::MAX - start))
}

// The same by the word that begins one byte lower, whose high 24 bits are the distance from the page's start: no comparison waits
// for a mask.
#[inline(always)]
fn count_of_lower(start: u32, word: u32, address: u32) -> usize
    ensures { result ≡ (if nat_le (capped_sum start (word / 256)) address then 1 else 0) }
{
    let sum = 256 * u64::from(u32::MAX) + u64::from(word);
    let limit = limit_of_sums(address) + u64::from(u32::MAX - start);
    count_at_most(sum, 256 * limit + 255)
}

impl PageEntries<'_> {
    // The encoding of an entry.
    #[inline(always)]
    pub(crate) fn encoding(&self, entry: usize) -> Result<u32, CompactFormatError>
        requires { entry < entry_count self.now.page }
        ensures { result ≡ encoding_of self.now.bytes.now self.now.page entry }
    {
        match self.page {
            Page::Regular { entries_offset, .. } => {
                Ok(u32_at(self.bytes, entries_offset as usize + 8 * entry + 4))
            }
            Page::Compressed {
                entries_offset,
                encodings_offset,
                encoding_count,
                ..
            } => {
                let word = u32_at(self.bytes, entries_offset as usize + 4 * entry);
                let index = (word >> 24) as u8;
                indexed_encoding(self.bytes, encodings_offset, encoding_count, index)
            }
        }
    }
}

impl Starts for PageEntries<'_> {
    ghost count = { λ entries. entry_count entries.page };

    ghost start = { λ entries. entry_start entries.bytes.now entries.page };

    fn start_count(&self) -> usize {
        self.page.entry_count()
    }

    #[inline(always)]
    fn start_at(&self, row: usize) -> u32 {
        match self.page {
            Page::Regular { entries_offset, .. } => {
                u32_at(self.bytes, entries_offset as usize + 8 * row)
            }
            Page::Compressed {
                start,
                entries_offset,
                ..
            } => {
                let word = u32_at(self.bytes, entries_offset as usize + 4 * row);
                start.saturating_add(word % 0x100_0000)
            }
        }
    }

    #[inline(always)]
    fn count_at_or_below(&self, row: usize, more: usize, address: u32) -> usize {
        match self.page {
            Page::Regular { .. } => {
                let start = u32_after(self.entries, 8 * row, 8 * more);
                count_at_most(u64::from(start), u64::from(address))
            }
            Page::Compressed {
                start,
                entries_offset,
                ..
            } => {
                if entries_offset == 0 {
                    let word = u32_after(self.entries, 4 * row, 4 * more);
                    count_of_compressed(start, word, address)
                } else {
                    let word = u32_below(self.before, 4 * row, 4 * more);
                    count_of_lower(start, word, address)
                }
            }
        }
    }
}
