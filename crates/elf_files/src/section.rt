//! Sections.

ghost use Rattle.std.specs.Prelude.{◌≡◌, ◌≤◌, ◌+◌, length};
ghost use Rattle.elf_files.specs.Sections.{section_kind, section_from, has_no_bits, is_string_table, is_compressed, is_note_section};

use crate::bytes::{u32_at, u64_at};

/// What a section is (`sh_type`).
#[derive(Debug, Clone, Copy, PartialEq, Eq)]
pub enum SectionKind {
    /// `SHT_NULL`.
    Null,
    /// `SHT_PROGBITS`.
    ProgramBits,
    /// `SHT_SYMTAB`.
    SymbolTable,
    /// `SHT_STRTAB`.
    StringTable,
    /// `SHT_NOTE`.
    Note,
    /// `SHT_NOBITS`, a section with no bytes in the file.
    NoBits,
    /// `SHT_DYNSYM`.
    DynamicSymbols,
    /// Any other number.
    Other(u32),
}

/// A section, by its section header (`Elf64_Shdr`).
#[derive(Debug, Clone, Copy, PartialEq, Eq)]
pub struct Section {
    /// Where its name is in the section with the names of sections.
    pub name_offset: u32,
    /// What it is.
    pub kind: SectionKind,
    /// Its flags (`sh_flags`).
    pub flags: u64,
    /// The address of its bytes in memory, 0 if they aren't there.
    pub address: u64,
    /// The offset of its bytes in the file.
    pub offset: u64,
    /// How many bytes it has: in the file, or in memory if it has none in the file.
    pub size: u64,
    /// The index of another section, whose meaning depends on the kind (`sh_link`).
    pub link: u32,
    /// More, whose meaning depends on the kind (`sh_info`).
    pub info: u32,
    /// How its bytes are aligned.
    pub alignment: u64,
    /// How many bytes an entry has, if it is a table.
    pub entry_size: u64,
}

// Bytes are compressed (SHF_COMPRESSED).
const COMPRESSED: u64 = 0x800;

// What a section is, by a number.
fn section_kind(number: u32) -> SectionKind
    ensures { result ≡ section_kind number }
{
    match number {
        0 => SectionKind::Null,
        1 => SectionKind::ProgramBits,
        2 => SectionKind::SymbolTable,
        3 => SectionKind::StringTable,
        7 => SectionKind::Note,
        8 => SectionKind::NoBits,
        11 => SectionKind::DynamicSymbols,
        number => SectionKind::Other(number),
    }
}

// The section of the section header at an offset.
pub(crate) fn section_from(bytes: &[u8], at: usize) -> Section
    requires { at + 64 ≤ length bytes.now }
    ensures { result ≡ section_from bytes.now at }
{
    Section {
        name_offset: u32_at(bytes, at),
        kind: section_kind(u32_at(bytes, at + 4)),
        flags: u64_at(bytes, at + 8),
        address: u64_at(bytes, at + 16),
        offset: u64_at(bytes, at + 24),
        size: u64_at(bytes, at + 32),
        link: u32_at(bytes, at + 40),
        info: u32_at(bytes, at + 44),
        alignment: u64_at(bytes, at + 48),
        entry_size: u64_at(bytes, at + 56),
    }
}

impl Section {
    // Whether it has no bytes in the file.
    pub(crate) fn has_no_bits(&self) -> bool
        ensures { result ≡ has_no_bits self.now.kind }
    {
        matches!(self.kind, SectionKind::NoBits)
    }

    // Whether it is a string table.
    pub(crate) fn is_string_table(&self) -> bool
        ensures { result ≡ is_string_table self.now.kind }
    {
        matches!(self.kind, SectionKind::StringTable)
    }

    // Whether its bytes are compressed.
    pub(crate) fn is_compressed(&self) -> bool
        ensures { result ≡ is_compressed self.now }
    {
        self.flags / COMPRESSED % 2 == 1
    }

    // Whether it has notes.
    pub(crate) fn is_note(&self) -> bool
        ensures { result ≡ is_note_section self.now.kind }
    {
        matches!(self.kind, SectionKind::Note)
    }
}
