//! Small shared objects, as readelf reads them, and the worked file.

use crate::elf::real_files::{AARCH64, FileSeen, STRIPPED, SectionSeen, X86_64};
use crate::elf::worked::{WORKED, WORKED_SEEN};
use elf_files::{ElfFile, Section, SectionKind, Segment, SegmentKind};
use std::process::Abort;

// Names that no section has.
static ABSENT: [&[u8]; 4] = [b".none", b".sym", b"symtab", b".symtab\0"];

// A section as readelf prints it, whose name is at this offset.
fn section_of(seen: &SectionSeen, name_offset: u32) -> Section {
    Section {
        name_offset,
        kind: seen.kind,
        flags: seen.flags,
        address: seen.address,
        offset: seen.offset,
        size: seen.size,
        link: seen.link,
        info: seen.info,
        alignment: seen.alignment,
        entry_size: seen.entry_size,
    }
}

fn check_sections(rt: &impl Abort, file: &ElfFile<'_>, seen: &FileSeen) {
    assert!(rt; file.section_count() == seen.sections.len() as u64);
    for (index, expected) in seen.sections.iter().enumerate() {
        let index = index as u64;
        assert!(rt; index < file.section_count());
        let section = file.section(index).expect(rt, "a section");
        assert!(rt;
            section == section_of(expected, section.name_offset),
            "{index}"
        );
        assert!(rt; file.section_name(&section) == Ok(expected.name), "{index}");
        assert!(rt;
            file.section_named(expected.name) == Ok(Some(section)),
            "{index}"
        );
    }
    for name in ABSENT {
        assert!(rt; file.section_named(name) == Ok(None));
    }
}

fn check_segments(rt: &impl Abort, file: &ElfFile<'_>, seen: &FileSeen) {
    assert!(rt; u64::from(file.segment_count()) == seen.segments.len() as u64);
    let mut index = 0;
    for expected in seen.segments {
        assert!(rt; index < file.segment_count());
        assert!(rt; file.segment(index) == Ok(*expected), "{index}");
        index += 1;
    }
}

#[test]
fn of_all_files(rt: HostRuntime) {
    for seen in [&WORKED_SEEN, &X86_64, &AARCH64, &STRIPPED] {
        let file = ElfFile::parse(seen.bytes).expect(&rt, "a file");
        assert!(rt; file.machine() == seen.machine && file.kind() == seen.kind);
        assert!(rt; file.entry() == seen.entry && file.build_id() == Ok(Some(seen.build_id)));
        check_sections(&rt, &file, seen);
        check_segments(&rt, &file, seen);
        for (address, function) in seen.functions {
            let found = file.symbol_for_address(*address);
            assert!(rt; found == Ok(*function), "{address:x}");
        }
    }
}

const NOTES: Segment = Segment {
    kind: SegmentKind::Note,
    flags: 4,
    offset: 0x208,
    address: 0x2208,
    file_size: 20,
    memory_size: 20,
    alignment: 4,
};

const SYMBOLS: Section = Section {
    name_offset: 15,
    kind: SectionKind::SymbolTable,
    flags: 0,
    address: 0,
    offset: 0x1d8,
    size: 48,
    link: 2,
    info: 1,
    alignment: 8,
    entry_size: 24,
};

#[test]
fn bytes(rt: HostRuntime) {
    let file = ElfFile::parse(&WORKED).expect(&rt, "a file");
    assert!(rt; file.segment_bytes(&NOTES) == Ok(&WORKED[0x208..0x21c]));
    assert!(rt; file.section_named(b".symtab") == Ok(Some(SYMBOLS)));
    assert!(rt; file.section_bytes(&SYMBOLS) == Ok(&WORKED[0x1d8..0x208]));
    let none = Section {
        kind: SectionKind::NoBits,
        ..SYMBOLS
    };
    assert!(rt; file.section_bytes(&none) == Ok(b"".as_slice()));
}
