//! Sections by their names.

use crate::object::object;
use backtrace_files::FileSections;
use elf_files::ElfFile;
use framehop_modules::ModuleSectionInfo;
use std::test::Fail;

/// Names, and the bytes of the sections that they name, if these are handed out.
static DATA: [(&[u8], Option<&[u8]>); 4] = [
    (b".eh_frame", Some(b"\x11\x12\x13\x14\x15\x16\x17\x18")),
    (b".text", None),
    (b".symtab", None),
    (b".debug_frame", None),
];

/// Names, and where the sections start and end.
static RANGES: [(&[u8], Option<(u64, u64)>); 3] = [
    (b".text", Some((0x1308, 0x1348))),
    (b".eh_frame", Some((0x180, 0x188))),
    (b".got", None),
];

#[test]
fn call_frames_and_ranges(rt: HostRuntime) -> Result<(), Fail> {
    let bytes = object(rt.alloc())?;
    let mut sections = FileSections::new(ElfFile::parse(&bytes)?, 0x1308);
    assert!(rt; sections.base_svma() == 0x1308);
    for (name, data) in &DATA {
        assert!(rt; sections.section_data(name) == *data, "{name:?}");
    }
    for (name, range) in &RANGES {
        let found = match sections.section_svma_range(name) {
            Some(found) => Some((found.start, found.end)),
            None => None,
        };
        assert!(rt; found == *range, "{name:?}");
    }
    assert!(rt; sections.segment_data(b".text").is_none());
    assert!(rt; sections.segment_svma_range(b".text").is_none());
    Ok(())
}
