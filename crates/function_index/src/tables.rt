//! The symbol table of a file.

ghost use Rattle.std.specs.Prelude.{◌≡◌, false, is_some, option_map};
ghost use Rattle.std.specs.Option.{option_copied};
ghost use Rattle.elf_files.specs.Sections.{is_string_table};
ghost use Rattle.function_index.specs.TableViews.{symbols_seen};
ghost use Rattle.function_index.specs.Tables.{first_section, has_symbols, linked_strings, strings_in, symbol_section, symbols_by_sections, symbols_by_segments, symbols_in, symbols_of, table_in};

use elf_files::{ElfFile, Section, SectionKind};
use elf_segments::{dynamic_symbols, has_named_sections};

/// A symbol table and the strings that its names are in.
#[derive(Clone, Copy, Debug)]
pub(crate) struct SymbolBytes<'a> {
    /// The entries.
    pub(crate) table: &'a [u8],
    /// The names.
    pub(crate) strings: &'a [u8],
}

// Whether a section is a symbol table, or one for dynamic linking.
fn has_symbols(dynamic: bool, kind: SectionKind) -> bool
    ensures { result ≡ has_symbols dynamic kind }
{
    match kind {
        SectionKind::SymbolTable => !dynamic,
        SectionKind::DynamicSymbols => dynamic,
        _ => false,
    }
}

// The first section that is a symbol table, or one for dynamic linking.
#[tactic(auto, using(crate::proofs::TableEntries::entries_more))]
fn first_section(file: &ElfFile<'_>, dynamic: bool) -> Option<Section>
    ensures { result ≡ first_section file.now.bytes.now file.now.header dynamic }
{
    for index in 0..file.section_count() {
        let Ok(section) = file.section(index) else {
            return None;
        };
        if has_symbols(dynamic, section.kind) {
            return Some(section);
        }
    }
    None
}

/// Whether a file has a symbol table that isn't only for dynamic linking.
pub fn has_symbol_table(file: &ElfFile<'_>) -> bool
    ensures { result ≡ is_some (first_section file.now.bytes.now file.now.header false) }
{
    first_section(file, false).is_some()
}

// Whether a section has strings.
fn is_string_table(kind: SectionKind) -> bool
    ensures { result ≡ is_string_table kind }
{
    matches!(kind, SectionKind::StringTable)
}

// The strings that a section has.
fn strings_in<'a>(file: &ElfFile<'a>, section: &Section) -> Option<&'a [u8]>
    ensures { option_copied result ≡ strings_in file.now.bytes.now section.now }
{
    if !is_string_table(section.kind) {
        return None;
    }
    match file.section_bytes(section) {
        Ok(bytes) => Some(bytes),
        Err(_) => None,
    }
}

// The strings that a section names.
fn linked_strings<'a>(file: &ElfFile<'a>, section: &Section) -> Option<&'a [u8]>
    ensures { option_copied result ≡ linked_strings file.now.bytes.now file.now.header section.now }
{
    let index = u64::from(section.link);
    if index >= file.section_count() {
        return None;
    }
    match file.section(index) {
        Ok(strings) => strings_in(file, &strings),
        Err(_) => None,
    }
}

// The entries of a section with symbols.
fn table_in<'a>(file: &ElfFile<'a>, section: &Section) -> Option<&'a [u8]>
    ensures { option_copied result ≡ table_in file.now.bytes.now section.now }
{
    if section.entry_size != 24 {
        return None;
    }
    match file.section_bytes(section) {
        Ok(bytes) => Some(bytes),
        Err(_) => None,
    }
}

// The symbols of a section, with their names.
fn symbols_in<'a>(file: &ElfFile<'a>, section: &Section) -> Option<SymbolBytes<'a>>
    ensures { option_map symbols_seen result ≡ symbols_in file.now.bytes.now file.now.header section.now }
{
    let Some(table) = table_in(file, section) else {
        return None;
    };
    match linked_strings(file, section) {
        Some(strings) => Some(SymbolBytes { table, strings }),
        None => None,
    }
}

// The section with the symbols of a file, or else with those for dynamic linking.
fn symbol_section(file: &ElfFile<'_>) -> Option<Section>
    ensures { result ≡ symbol_section file.now.bytes.now file.now.header }
{
    match first_section(file, false) {
        Some(section) => Some(section),
        None => first_section(file, true),
    }
}

// The symbols of a file by its sections.
fn symbols_by_sections<'a>(file: &ElfFile<'a>) -> Option<SymbolBytes<'a>>
    ensures { option_map symbols_seen result ≡ symbols_by_sections file.now.bytes.now file.now.header }
{
    match symbol_section(file) {
        Some(section) => symbols_in(file, &section),
        None => None,
    }
}

// The symbols for dynamic linking of a file without sections whose names can be read.
fn symbols_by_segments<'a>(file: &ElfFile<'a>) -> Option<SymbolBytes<'a>>
    ensures { option_map symbols_seen result ≡ symbols_by_segments file.now.bytes.now file.now.header }
{
    if has_named_sections(file) {
        return None;
    }
    match dynamic_symbols(file, 0) {
        Some(symbols) => Some(SymbolBytes {
            table: symbols.table,
            strings: symbols.strings,
        }),
        None => None,
    }
}

/// The symbols of a file: those of its sections, or if these can't be read, of its segments.
pub(crate) fn symbols_of<'a>(file: &ElfFile<'a>) -> Option<SymbolBytes<'a>>
    ensures { option_map symbols_seen result ≡ symbols_of file.now.bytes.now file.now.header }
{
    match symbols_by_sections(file) {
        Some(symbols) => Some(symbols),
        None => symbols_by_segments(file),
    }
}
