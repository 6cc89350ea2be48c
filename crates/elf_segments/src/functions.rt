//! The function at an address of a file by its symbols for dynamic linking.

ghost use Rattle.std.specs.Prelude.{◌≡◌, ◌==◌, option_map, position};
ghost use Rattle.std.specs.Option.{option_copied};
ghost use Rattle.elf_files.specs.SymbolViews.{symbol_seen};
ghost use Rattle.elf_segments.specs.DynamicFunctions.{dynamic_function, function_by, name_at, with_name};
ghost use Rattle.elf_segments.specs.DynamicViews.{symbols_seen};

use crate::bytes::bytes_after;
use crate::symbols::{DynamicSymbols, dynamic_symbols};
use crate::table_symbols::{TableSymbol, function_at};
use elf_files::{ElfFile, Symbol};

// Where the first 0 of some bytes is.
fn first_zero(bytes: &[u8]) -> Option<usize>
    ensures { result ≡ position (λ byte. byte == 0) bytes.now }
{
    bytes.iter().position(|byte| *byte == 0)
}

// The name at an index of strings.
fn name_at(strings: &[u8], index: u32) -> Option<&[u8]>
    ensures { option_copied result ≡ name_at strings.now index }
{
    let bytes = bytes_after(strings, u64::from(index));
    match first_zero(bytes) {
        Some(size) => Some(&bytes[..size]),
        None => None,
    }
}

// A symbol with its name.
fn with_name<'a>(strings: &'a [u8], symbol: &TableSymbol) -> Option<Symbol<'a>>
    ensures { option_map symbol_seen result ≡ with_name strings.now symbol.now }
{
    match name_at(strings, symbol.name_offset) {
        Some(name) => Some(Symbol {
            name,
            kind: symbol.kind,
            section_index: symbol.section_index,
            value: symbol.value,
            size: symbol.size,
        }),
        None => None,
    }
}

// The function at an address by some symbols.
fn function_by<'a>(symbols: &DynamicSymbols<'a>, address: u64) -> Option<Symbol<'a>>
    ensures { option_map symbol_seen result ≡ function_by (symbols_seen symbols.now) address }
{
    match function_at(symbols.table, address) {
        Some(symbol) => with_name(symbols.strings, &symbol),
        None => None,
    }
}

/// The function at an address of a file, by its symbols for dynamic linking (`dynamic_symbols`): of those that contain it one that begins
/// last, and the first of these in the table. None if its name can't be read.
pub fn dynamic_function<'a>(file: &ElfFile<'a>, moved: u64, address: u64) -> Option<Symbol<'a>>
    ensures { option_map symbol_seen result
        ≡ dynamic_function file.now.bytes.now file.now.header moved address }
{
    match dynamic_symbols(file, moved) {
        Some(symbols) => function_by(&symbols, address),
        None => None,
    }
}
