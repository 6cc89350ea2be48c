//! Counts and an index that only the section header at index 0 has.

use crate::elf::worked::worked_with;
use elf_files::ElfFile;

// Bytes of the worked file that are changed, and how many segments and sections it has then. Without a table there are none.
static COUNTS: [(&[(usize, u8)], u32, u64); 3] = [
    // e_phnum with sh_info, e_shnum with sh_size, and e_shstrndx with sh_link.
    (
        &[
            (56, 0xff),
            (57, 0xff),
            (0x78 + 44, 1),
            (60, 0),
            (0x78 + 32, 5),
            (62, 0xff),
            (63, 0xff),
            (0x78 + 40, 2),
        ],
        1,
        5,
    ),
    (&[(40, 0)], 1, 0),
    (&[(40, 0), (32, 0)], 0, 0),
];

#[test]
fn counts(rt: HostRuntime) {
    for (changes, segments, sections) in &COUNTS {
        let bytes = worked_with(changes);
        let file = ElfFile::parse(&bytes).expect(&rt, "a file");
        let counts = (file.segment_count(), file.section_count());
        assert!(rt; counts == (*segments, *sections), "{changes:?}");
        assert!(rt; file.header.names_index == 2, "{changes:?}");
    }
}
