//! The symbols of a file for dynamic linking, by its dynamic section.

ghost use Rattle.std.specs.Prelude.{◌≡◌, ◌*◌, option_and_then, option_map};
ghost use Rattle.std.specs.Option.{option_copied};
ghost use Rattle.elf_segments.specs.Bytes.{first_bytes};
ghost use Rattle.elf_segments.specs.DynamicSymbols.{dynamic_symbols, entries_of, is_symbol_size, strings_of, symbol_count, symbols_moved, symbols_of, table_of, with_strings};
ghost use Rattle.elf_segments.specs.DynamicViews.{dynamic_seen, symbols_seen};
ghost use Rattle.elf_segments.specs.HashTables.{count_by_gnu_hash, count_by_hash};

use crate::bytes::first_bytes;
use crate::dynamic::{DynamicSection, Tag, dynamic_bytes};
use crate::hash_tables::{count_by_gnu_hash, count_by_hash};
use crate::table_symbols::SYMBOL_SIZE;
use elf_files::ElfFile;

/// The symbols of a file for dynamic linking.
#[derive(Clone, Copy, Debug)]
pub struct DynamicSymbols<'a> {
    /// Their entries (`Elf64_Sym`).
    pub table: &'a [u8],
    /// The strings in which their names are.
    pub strings: &'a [u8],
}

// The number of symbols by a `DT_HASH`, if there is one.
fn count_if_hash(table: Option<&[u8]>) -> Option<u64>
    ensures { result ≡ option_and_then count_by_hash (option_copied table.entry) }
{
    match table {
        Some(table) => count_by_hash(table),
        None => None,
    }
}

// The number of symbols by a `DT_GNU_HASH`, if there is one.
fn count_if_gnu_hash(table: Option<&[u8]>) -> Option<u64>
    ensures { result ≡ option_and_then count_by_gnu_hash (option_copied table.entry) }
{
    match table {
        Some(table) => count_by_gnu_hash(table),
        None => None,
    }
}

// The number of symbols by either hash table.
fn symbol_count(section: &DynamicSection<'_>) -> Option<u64>
    ensures { result ≡ symbol_count (dynamic_seen section.now) }
{
    match count_if_hash(section.bytes_of(Tag::Hash)) {
        Some(count) => Some(count),
        None => count_if_gnu_hash(section.bytes_of(Tag::GnuHash)),
    }
}

// The first entries, if there are so many.
fn first_entries(bytes: &[u8], count: u64) -> Option<&[u8]>
    ensures { option_copied result ≡ first_bytes (24 * count) bytes.now }
{
    match (SYMBOL_SIZE as u64).checked_mul(count) {
        Some(size) => first_bytes(bytes, size),
        None => None,
    }
}

// So many entries.
fn entries_of<'a>(section: &DynamicSection<'a>, count: u64) -> Option<&'a [u8]>
    ensures { option_copied result ≡ entries_of (dynamic_seen section.now) count }
{
    match section.bytes_of(Tag::Symbols) {
        Some(bytes) => first_entries(bytes, count),
        None => None,
    }
}

// Whether the size of an entry is that of an `Elf64_Sym`.
fn is_symbol_size(size: Option<u64>) -> bool
    ensures { result ≡ is_symbol_size size }
{
    match size {
        Some(size) => size == SYMBOL_SIZE as u64,
        None => false,
    }
}

// The entries, all of them.
fn table_of<'a>(section: &DynamicSection<'a>) -> Option<&'a [u8]>
    ensures { option_copied result ≡ table_of (dynamic_seen section.now) }
{
    if !is_symbol_size(section.value_of(Tag::SymbolSize)) {
        return None;
    }
    match symbol_count(section) {
        Some(count) => entries_of(section, count),
        None => None,
    }
}

// The strings.
fn strings_of<'a>(section: &DynamicSection<'a>) -> Option<&'a [u8]>
    ensures { option_copied result ≡ strings_of (dynamic_seen section.now) }
{
    let Some(size) = section.value_of(Tag::StringsSize) else {
        return None;
    };
    match section.bytes_of(Tag::Strings) {
        Some(bytes) => first_bytes(bytes, size),
        None => None,
    }
}

// The symbols with these entries.
fn with_strings<'a>(section: &DynamicSection<'a>, table: &'a [u8]) -> Option<DynamicSymbols<'a>>
    ensures { option_map symbols_seen result ≡ with_strings (dynamic_seen section.now) table.now }
{
    match strings_of(section) {
        Some(strings) => Some(DynamicSymbols { table, strings }),
        None => None,
    }
}

// The symbols by a dynamic section.
fn symbols_of<'a>(section: &DynamicSection<'a>) -> Option<DynamicSymbols<'a>>
    ensures { option_map symbols_seen result ≡ symbols_of (dynamic_seen section.now) }
{
    match table_of(section) {
        Some(table) => with_strings(section, table),
        None => None,
    }
}

// Those of a file whose dynamic section has these bytes, and addresses so much above the file's.
fn symbols_moved<'a>(file: &ElfFile<'a>, moved: u64, bytes: &'a [u8]) -> Option<DynamicSymbols<'a>>
    ensures { option_map symbols_seen result
        ≡ symbols_moved file.now.bytes.now file.now.header moved bytes.now }
{
    symbols_of(&DynamicSection {
        file: *file,
        bytes,
        moved,
    })
}

/// The symbols of a file for dynamic linking, by the addresses that its dynamic section states, or else as they are in the memory of a
/// process in which the file is loaded so much above the addresses that it states: the dynamic linker writes them there. None if the
/// dynamic section, a hash table, all symbols or all strings aren't there.
pub fn dynamic_symbols<'a>(file: &ElfFile<'a>, moved: u64) -> Option<DynamicSymbols<'a>>
    ensures { option_map symbols_seen result
        ≡ dynamic_symbols file.now.bytes.now file.now.header moved }
{
    let Some(bytes) = dynamic_bytes(file) else {
        return None;
    };
    match symbols_moved(file, 0, bytes) {
        Some(symbols) => Some(symbols),
        None => symbols_moved(file, moved, bytes),
    }
}
