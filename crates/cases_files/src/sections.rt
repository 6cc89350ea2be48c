//! Sections, their notes, and the build id.

use crate::text::show_digits;
use anyhow::Result;
use elf_files::{ElfFile, Notes, Section, SectionKind};
use shown_text::Shown;

fn kind_number(kind: SectionKind) -> u32 {
    match kind {
        SectionKind::Null => 0,
        SectionKind::ProgramBits => 1,
        SectionKind::SymbolTable => 2,
        SectionKind::StringTable => 3,
        SectionKind::Note => 7,
        SectionKind::NoBits => 8,
        SectionKind::DynamicSymbols => 11,
        SectionKind::Other(number) => number,
    }
}

fn show_notes(mut notes: Notes<'_>, shown: &mut Shown) -> Result<()> {
    for _ in 0..u64::MAX {
        let Some(note) = notes.next()? else {
            break;
        };
        show_digits("note ", note.name, shown);
        shown.hex(" kind 0x", u64::from(note.kind));
        shown.hex(" size 0x", note.descriptor.len() as u64);
        shown.end();
    }
    Ok(())
}

fn show_section(name: &[u8], section: &Section, shown: &mut Shown) {
    shown.hex("section 0x", u64::from(kind_number(section.kind)));
    shown.text(" ");
    shown.bytes(name);
    shown.hex(" flags 0x", section.flags);
    shown.hex(" address 0x", section.address);
    shown.hex(" at 0x", section.offset);
    shown.hex(" size 0x", section.size);
    shown.number(" link ", u64::from(section.link));
    shown.number(" info ", u64::from(section.info));
    shown.number(" aligned ", section.alignment);
    shown.hex(" entries 0x", section.entry_size);
    shown.end();
}

/// Shows the sections of a file, with their notes.
pub(crate) fn show_sections(file: &ElfFile<'_>, shown: &mut Shown) -> Result<()> {
    for index in 0..file.section_count() {
        let section = file.section(index)?;
        show_section(file.section_name(&section)?, &section, shown);
        if matches!(section.kind, SectionKind::Note) {
            show_notes(file.section_notes(&section)?, shown)?;
        }
    }
    Ok(())
}

/// Shows the build id of a file.
pub(crate) fn show_build_id(file: &ElfFile<'_>, shown: &mut Shown) -> Result<()> {
    if let Some(id) = file.build_id()? {
        show_digits("build id ", id, shown);
        shown.end();
    }
    Ok(())
}
