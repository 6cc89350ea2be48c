//! The sections of a file from which call frames or symbols would be read, if they weren't compressed.

ghost use Rattle.std.specs.Prelude.{◌≡◌, IfOk};
ghost use Rattle.std.specs.List.{filter};
ghost use Rattle.backtrace.specs.Unread.{has_section, is_compressed, is_unread, section_of, text_of, unread_sections, unread_symbols};

use elf_files::{ElfFile, Section};
use std::alloc::{AllocError, Global};

/// A section with call frames or symbols.
#[derive(Clone, Copy, Debug, PartialEq, Eq)]
pub(crate) enum ReadSection {
    /// `.eh_frame`.
    EhFrame,
    /// `.debug_frame`.
    DebugFrame,
    /// `.zdebug_frame`, which older tools write for a compressed `.debug_frame`.
    ZippedDebugFrame,
    /// `.symtab`.
    Symbols,
    /// `.strtab`, which has the names of symbols.
    Names,
    /// `.gnu_debugdata`, a compressed ELF file with symbols.
    MiniDebugInfo,
}

// The bit of a section's flags that says that it is compressed (`SHF_COMPRESSED`).
const COMPRESSED: u64 = 0x800;

impl ReadSection {
    /// The name.
    pub(crate) fn text(self) -> &'static str
        ensures { result.now ≡ text_of self }
    {
        match self {
            ReadSection::EhFrame => ".eh_frame",
            ReadSection::DebugFrame => ".debug_frame",
            ReadSection::ZippedDebugFrame => ".zdebug_frame",
            ReadSection::Symbols => ".symtab",
            ReadSection::Names => ".strtab",
            ReadSection::MiniDebugInfo => ".gnu_debugdata",
        }
    }
}

// The first section of a file with this name, if it can be read.
fn section_of(file: &ElfFile<'_>, which: ReadSection) -> Option<Section>
    ensures { result ≡ section_of file.now.bytes.now file.now.header which }
{
    match file.section_named(which.text().as_bytes()) {
        Ok(Some(section)) => Some(section),
        _ => None,
    }
}

// Whether a file has it.
fn has_section(file: &ElfFile<'_>, which: ReadSection) -> bool
    ensures { result ≡ has_section file.now.bytes.now file.now.header which }
{
    section_of(file, which).is_some()
}

// Whether it is compressed.
fn is_compressed(file: &ElfFile<'_>, which: ReadSection) -> bool
    ensures { result ≡ is_compressed file.now.bytes.now file.now.header which }
{
    match section_of(file, which) {
        Some(section) => section.flags / COMPRESSED % 2 == 1,
        None => false,
    }
}

// Whether it is there and isn't read, of a file whose symbols are in a debug file, or not.
fn is_unread(file: &ElfFile<'_>, has_debug_file: bool, which: ReadSection) -> bool
    ensures { result ≡ is_unread file.now.bytes.now file.now.header has_debug_file which }
{
    match which {
        ReadSection::ZippedDebugFrame => has_section(file, which),
        ReadSection::MiniDebugInfo => {
            has_section(file, which) && !has_section(file, ReadSection::Symbols) && !has_debug_file
        }
        _ => is_compressed(file, which),
    }
}

// Those of some sections of a file that aren't read.
fn unread_among(
    alloc: Global,
    file: &ElfFile<'_>,
    has_debug_file: bool,
    sections: &[ReadSection],
) -> Result<Vec<ReadSection>, AllocError>
    ensures { IfOk result (λ unread. unread.items
        ≡ filter (is_unread file.now.bytes.now file.now.header has_debug_file) sections.now) }
{
    let mut unread = Vec::new(alloc);
    for section in sections {
        if is_unread(file, has_debug_file, *section) {
            unread.push(*section)?;
        }
    }
    Ok(unread)
}

/// The sections of a file with these bytes that aren't read, if it has a debug file or not: compressed ones, and those of
/// symbols that aren't elsewhere.
pub(crate) fn unread_sections(
    alloc: Global,
    bytes: &[u8],
    has_debug_file: bool,
) -> Result<Vec<ReadSection>, AllocError>
    ensures { IfOk result (λ unread. unread.items ≡ unread_sections bytes.now has_debug_file) }
{
    let Ok(file) = ElfFile::parse(bytes) else {
        return Ok(Vec::new(alloc));
    };
    let sections = [
        ReadSection::EhFrame,
        ReadSection::DebugFrame,
        ReadSection::ZippedDebugFrame,
        ReadSection::Symbols,
        ReadSection::Names,
        ReadSection::MiniDebugInfo,
    ];
    unread_among(alloc, &file, has_debug_file, sections.as_slice())
}

/// Those of a debug file with these bytes, of which symbols alone are read.
pub(crate) fn unread_symbols(alloc: Global, bytes: &[u8]) -> Result<Vec<ReadSection>, AllocError>
    ensures { IfOk result (λ unread. unread.items ≡ unread_symbols bytes.now) }
{
    let Ok(file) = ElfFile::parse(bytes) else {
        return Ok(Vec::new(alloc));
    };
    let sections = [ReadSection::Symbols, ReadSection::Names];
    unread_among(alloc, &file, true, sections.as_slice())
}
