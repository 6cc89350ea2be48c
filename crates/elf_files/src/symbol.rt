//! Symbols, and the function at an address.

ghost use Rattle.std.specs.Prelude.{◌≡◌, ◌≤◌, ◌+◌, ◌*◌, length, Ok, Err, Some, IfOk, IfErr, IfSome, true};
ghost use Rattle.std.specs.Option.{option_map};
ghost use Rattle.list_laws.specs.Greatest.{greater_of};
ghost use Rattle.elf_files.specs.Symbols.{symbol_kind, symbol_from, is_function, has_address, function_at, all_symbols, symbol_for_address, symbol_table};
ghost use Rattle.elf_files.specs.SectionViews.{sections_in};
ghost use Rattle.elf_files.specs.SymbolViews.{ContainsAddress, HasAddress, function_by, named_in, symbol_seen, with_earlier};

use crate::bytes::{u16_at, u32_at, u64_at};
use crate::error::ElfError;
use crate::file::ElfFile;
use crate::section::Section;
use crate::section_table::{DynamicSymbolTables, SectionTable, SymbolTables};

/// What a symbol is (the low four bits of `st_info`).
#[derive(Debug, Clone, Copy, PartialEq, Eq)]
pub enum SymbolKind {
    /// `STT_FUNC`.
    Function,
    /// `STT_GNU_IFUNC`, a function that gives the address of another one.
    IndirectFunction,
    /// Any other number.
    Other(u8),
}

/// A symbol of a function.
#[derive(Debug, Clone, Copy, PartialEq, Eq)]
pub struct Symbol<'a> {
    /// Its name.
    pub name: &'a [u8],
    /// What it is.
    pub kind: SymbolKind,
    /// The index of the section that it is in (`st_shndx`).
    pub section_index: u16,
    /// Its address.
    pub value: u64,
    /// How many bytes it takes there.
    pub size: u64,
}

/// A symbol in its table (`Elf64_Sym`).
#[derive(Debug, Clone, Copy)]
pub(crate) struct SymbolEntry {
    pub(crate) name_offset: u32,
    pub(crate) kind: SymbolKind,
    pub(crate) section_index: u16,
    pub(crate) value: u64,
    pub(crate) size: u64,
}

const SYMBOL_SIZE: usize = 24;

// What a symbol is, by a number.
fn symbol_kind(number: u8) -> SymbolKind
    ensures { result ≡ symbol_kind number }
{
    match number {
        2 => SymbolKind::Function,
        10 => SymbolKind::IndirectFunction,
        number => SymbolKind::Other(number),
    }
}

// The symbol at an offset of a table.
fn symbol_from(bytes: &[u8], at: usize) -> SymbolEntry
    requires { at + 24 ≤ length bytes.now }
    ensures { result ≡ symbol_from bytes.now at }
{
    SymbolEntry {
        name_offset: u32_at(bytes, at),
        kind: symbol_kind(bytes[at + 4] % 16),
        section_index: u16_at(bytes, at + 6),
        value: u64_at(bytes, at + 8),
        size: u64_at(bytes, at + 16),
    }
}

impl SymbolEntry {
    // Whether it is a function.
    fn is_function(&self) -> bool
        ensures { result ≡ is_function self.now.kind }
    {
        matches!(
            self.kind,
            SymbolKind::Function | SymbolKind::IndirectFunction
        )
    }

    // Whether it is a function that contains an address.
    fn has_address(&self, address: u64) -> bool
        ensures { result ≡ has_address address self.now }
    {
        self.is_function()
            && self.section_index != 0
            && self.value <= address
            && address - self.value < self.size
    }

    // The one of two symbols that begins later, this one if both begin at one address.
    fn or_later(self, other: Option<SymbolEntry>) -> SymbolEntry
        ensures later { Some result ≡ greater_of (λ symbol. symbol.value) (Some self) other }
    {
        match other {
            Some(other) if self.value < other.value => other,
            _ => self,
        }
    }
}

// Of a symbol and what was found among those after it, the function at an address.
fn with_earlier(
    address: u64,
    symbol: SymbolEntry,
    found: Option<SymbolEntry>,
) -> Option<SymbolEntry>
    ensures { result ≡ with_earlier address symbol found }
{
    if symbol.has_address(address) {
        Some(symbol.or_later(found))
    } else {
        found
    }
}

// The function at an address.
fn function_at(table: &[u8], address: u64) -> Option<SymbolEntry>
    ensures function { result ≡ function_at address (all_symbols table.now) }
    ensures contains { HasAddress address result }
{
    let mut found = None;
    let mut left = table.len() / SYMBOL_SIZE;
    'symbols: while left > 0 {
        left -= 1;
        found = with_earlier(address, symbol_from(table, SYMBOL_SIZE * left), found);
    }
    found
}

// The symbol table of some sections.
fn symbol_table(sections: &SectionTable<'_>) -> Option<Section>
    ensures { result ≡ symbol_table (sections_in sections.now) }
{
    match sections.find(&SymbolTables) {
        Some(section) => Some(section),
        None => sections.find(&DynamicSymbolTables),
    }
}

impl<'a> ElfFile<'a> {
    // A symbol with its name.
    fn with_name(&self, section: &Section, symbol: SymbolEntry) -> Result<Symbol<'a>, ElfError>
        ensures ok { IfOk result (λ found. named_in self.now section.now symbol ≡ Ok (Some (symbol_seen found))) }
        ensures err { IfErr result (λ e. named_in self.now section.now symbol ≡ Err e) }
        ensures same { IfOk result (λ found. (found.kind ≡ symbol.kind) × (found.value ≡ symbol.value)
            × (found.size ≡ symbol.size)) }
    {
        let strings = self.linked_strings(section.offset, section.link)?;
        let name = strings.string_at(symbol.name_offset)?;
        Ok(Symbol {
            name,
            kind: symbol.kind,
            section_index: symbol.section_index,
            value: symbol.value,
            size: symbol.size,
        })
    }

    // The function at an address by a symbol table.
    fn function_in(&self, address: u64, section: &Section) -> Result<Option<Symbol<'a>>, ElfError>
        ensures ok { IfOk result (λ found. function_by self.now address section.now
            ≡ Ok (option_map symbol_seen found)) }
        ensures err { IfErr result (λ e. function_by self.now address section.now ≡ Err e) }
        ensures contains { IfOk result (λ found. IfSome found (ContainsAddress address)) }
    {
        if section.entry_size != SYMBOL_SIZE as u64 {
            return Err(ElfError::BadEntrySize {
                offset: section.offset,
            });
        }
        let table = self.section_bytes(section)?;
        let Some(symbol) = function_at(table, address) else {
            return Ok(None);
        };
        Ok(Some(self.with_name(section, symbol)?))
    }

    /// The function at an address, by the symbols of the file (`SHT_SYMTAB`), or else by those for dynamic linking
    /// (`SHT_DYNSYM`) if it has none: of the functions that contain the address one that begins last, the first of these in
    /// the table. It passes over the table once. Fails if the table or the name can't be read: with `Truncated`,
    /// `BadEntrySize`, `CompressedSection`, `NoSuchSection`, `NotStringTable` or `BadString`.
    pub fn symbol_for_address(&self, address: u64) -> Result<Option<Symbol<'a>>, ElfError>
        ensures ok { IfOk result (λ found. symbol_for_address self.now.bytes.now self.now.header address
            ≡ Ok (option_map symbol_seen found)) }
        ensures err { IfErr result
            (λ e. symbol_for_address self.now.bytes.now self.now.header address ≡ Err e) }
        ensures contains { IfOk result (λ found. IfSome found (ContainsAddress address)) }
    {
        let sections = self.section_table()?;
        match symbol_table(&sections) {
            Some(section) => self.function_in(address, &section),
            None => Ok(None),
        }
    }
}
