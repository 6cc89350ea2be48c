//! How many symbols the hash tables of a dynamic section say that there are.

ghost use Rattle.std.specs.Prelude.{◌≡◌, ◌<◌, ◌≤◌, ◌^◌, length, option_map, max, fold, IfSome};
ghost use Rattle.elf_segments.specs.DynamicViews.{gnu_seen};
ghost use Rattle.elf_segments.specs.HashTables.{buckets_size, buckets_start, chain_end, count_by_gnu_hash, count_by_hash, count_by_table, count_up_to, gnu_table, words};

use crate::bytes::{bytes_after, first_bytes, u32_at};

/// What counts of a `DT_GNU_HASH`.
#[derive(Clone, Copy, Debug)]
pub(crate) struct GnuHash<'a> {
    /// The index of the first symbol that it has.
    pub(crate) first: u32,
    /// The indices with which chains begin.
    pub(crate) buckets: &'a [u8],
    /// The hashes of the symbols from the first on, and what follows.
    pub(crate) hashes: &'a [u8],
}

// The size of a word.
const WORD_SIZE: usize = 4;

/// The number of symbols by a `DT_HASH`, which has a chain for each symbol.
pub(crate) fn count_by_hash(table: &[u8]) -> Option<u64>
    ensures { result ≡ count_by_hash table.now }
{
    if table.len() < 8 {
        return None;
    }
    Some(u64::from(u32_at(table, 4)))
}

// Where the buckets begin.
fn buckets_start(table: &[u8]) -> u64
    requires { 16 ≤ length table.now }
    ensures { result ≡ buckets_start table.now }
{
    16 + 8 * u64::from(u32_at(table, 8))
}

// How many bytes they have.
fn buckets_size(table: &[u8]) -> u64
    requires { 16 ≤ length table.now }
    ensures { result ≡ buckets_size table.now }
{
    4 * u64::from(u32_at(table, 0))
}

// A `DT_GNU_HASH` whose buckets are all there.
fn gnu_table(table: &[u8]) -> Option<GnuHash<'_>>
    ensures { option_map gnu_seen result ≡ gnu_table table.now }
{
    if table.len() < 16 {
        return None;
    }
    let start = buckets_start(table);
    let size = buckets_size(table);
    let Some(buckets) = first_bytes(bytes_after(table, start), size) else {
        return None;
    };
    Some(GnuHash {
        first: u32_at(table, 4),
        buckets,
        hashes: bytes_after(table, start + size),
    })
}

// The index of the symbol that ends the chain of one, whose hash is the first of these.
#[tactic(auto, using(crate::proofs::Entries::entries_more))]
fn chain_end(symbol: u32, hashes: &[u8]) -> Option<u64>
    ensures end { result ≡ chain_end symbol hashes.now }
    ensures fits { IfSome result (λ end. end < 2 ^ 63) }
{
    for index in 0..hashes.len() / WORD_SIZE {
        if u32_at(hashes, WORD_SIZE * index) % 2 == 1 {
            return Some(u64::from(symbol) + index as u64);
        }
    }
    None
}

// The greatest of the words that some bytes have.
#[tactic(auto, using(crate::proofs::Entries::entries_more))]
fn greatest_word(bytes: &[u8]) -> u32
    ensures { result ≡ fold max 0 (words bytes.now) }
{
    let mut greatest = 0;
    for index in 0..bytes.len() / WORD_SIZE {
        greatest = greatest.max(u32_at(bytes, WORD_SIZE * index));
    }
    greatest
}

// The number of symbols up to the end of the chain that begins with one.
fn count_up_to(table: &GnuHash<'_>, symbol: u32) -> Option<u64>
    ensures { result ≡ count_up_to (gnu_seen table.now) symbol }
{
    let Some(before) = symbol.checked_sub(table.first) else {
        return None;
    };
    match chain_end(symbol, bytes_after(table.hashes, 4 * u64::from(before))) {
        Some(last) => Some(last + 1),
        None => None,
    }
}

// The number of symbols by a `DT_GNU_HASH`.
fn count_by_table(table: &GnuHash<'_>) -> Option<u64>
    ensures { result ≡ count_by_table (gnu_seen table.now) }
{
    match greatest_word(table.buckets) {
        0 => Some(u64::from(table.first)),
        last => count_up_to(table, last),
    }
}

/// The number of symbols by a `DT_GNU_HASH` with these bytes.
pub(crate) fn count_by_gnu_hash(bytes: &[u8]) -> Option<u64>
    ensures { result ≡ count_by_gnu_hash bytes.now }
{
    match gnu_table(bytes) {
        Some(table) => count_by_table(&table),
        None => None,
    }
}
