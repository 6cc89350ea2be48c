//! Symbols in their table (`Elf64_Sym`), and the function at an address.

ghost use Rattle.std.specs.Prelude.{◌≡◌, ◌≤◌, ◌+◌, length, Some};
ghost use Rattle.list_laws.specs.Greatest.{greater_of};
ghost use Rattle.elf_files.specs.Symbols.{is_function, symbol_kind};
ghost use Rattle.elf_segments.specs.TableSymbols.{all_symbols, function_at, has_address, symbol_from, with_earlier};

use crate::bytes::{u16_at, u32_at, u64_at};
use elf_files::SymbolKind;

/// A symbol in its table.
#[derive(Clone, Copy, Debug)]
pub(crate) struct TableSymbol {
    /// Where its name is in the strings.
    pub(crate) name_offset: u32,
    /// What it is.
    pub(crate) kind: SymbolKind,
    /// The index of the section that it is in.
    pub(crate) section_index: u16,
    /// Its address.
    pub(crate) value: u64,
    /// How many bytes it takes there.
    pub(crate) size: u64,
}

/// The size of a symbol.
pub(crate) const SYMBOL_SIZE: usize = 24;

// What a symbol is, by the low four bits of `st_info`.
fn symbol_kind(number: u8) -> SymbolKind
    ensures { result ≡ symbol_kind number }
{
    match number {
        2 => SymbolKind::Function,
        10 => SymbolKind::IndirectFunction,
        number => SymbolKind::Other(number),
    }
}

// The symbol at an offset of a table.
fn symbol_from(table: &[u8], at: usize) -> TableSymbol
    requires { at + 24 ≤ length table.now }
    ensures { result ≡ symbol_from table.now at }
{
    TableSymbol {
        name_offset: u32_at(table, at),
        kind: symbol_kind(table[at + 4] % 16),
        section_index: u16_at(table, at + 6),
        value: u64_at(table, at + 8),
        size: u64_at(table, at + 16),
    }
}

// Whether a symbol is a function.
fn is_function(kind: SymbolKind) -> bool
    ensures { result ≡ is_function kind }
{
    matches!(kind, SymbolKind::Function | SymbolKind::IndirectFunction)
}

// Whether a symbol is a function that is defined in the file and contains an address.
fn has_address(symbol: &TableSymbol, address: u64) -> bool
    ensures { result ≡ has_address address symbol.now }
{
    is_function(symbol.kind)
        && symbol.section_index != 0
        && symbol.value <= address
        && address - symbol.value < symbol.size
}

// The one of two symbols that begins later, the first if both begin at one address.
fn later(first: TableSymbol, second: Option<TableSymbol>) -> TableSymbol
    ensures { Some result ≡ greater_of (λ symbol. symbol.value) (Some first) second }
{
    match second {
        Some(second) if first.value < second.value => second,
        _ => first,
    }
}

// Of a symbol and what was found among those after it, the function at an address.
fn with_earlier(
    address: u64,
    symbol: TableSymbol,
    found: Option<TableSymbol>,
) -> Option<TableSymbol>
    ensures { result ≡ with_earlier address symbol found }
{
    if has_address(&symbol, address) {
        Some(later(symbol, found))
    } else {
        found
    }
}

/// The function at an address: of those that contain it one that begins last, and the first of these in the table.
pub(crate) fn function_at(table: &[u8], address: u64) -> Option<TableSymbol>
    ensures { result ≡ function_at address (all_symbols table.now) }
{
    let mut found = None;
    let mut left = table.len() / SYMBOL_SIZE;
    'symbols: while left > 0 {
        left -= 1;
        found = with_earlier(address, symbol_from(table, SYMBOL_SIZE * left), found);
    }
    found
}
