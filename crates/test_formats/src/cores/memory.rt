//! Memory by segments and mapped files.

use core_files::{MappedFile, Memory, MemoryRange};

const LOW: &[u8] = &[1, 2, 3, 4, 5, 6, 7, 8, 9, 10, 11, 12];

const HIGH: &[u8] = &[21, 22, 23, 24, 25, 26, 27, 28];

const ALONE: &[u8] = &[21, 22];

const NINE: &[u8] = &[1, 2, 3, 4, 5, 6, 7, 8, 9];

// A range of addresses, with zeros and bytes, and bytes that were lost.
macro_rules! range {
    ($address:expr, $size:expr, $zeros:expr, $bytes:expr, $lost:expr) => {
        MemoryRange {
            address: $address,
            size: $size,
            zeros: $zeros,
            bytes: $bytes,
            lost: $lost,
            executable: false,
        }
    };
}

// A segment of code, or of data, of which the core has no byte.
macro_rules! left_out {
    ($address:expr, $size:expr, $executable:expr) => {
        MemoryRange {
            address: $address,
            size: $size,
            zeros: 0,
            bytes: b"",
            lost: 0,
            executable: $executable,
        }
    };
}

// Where `LOW` is mapped, from an offset on.
macro_rules! mapped {
    ($offset:expr) => {
        MappedFile {
            start: 0x1000,
            end: 0x1010,
            offset: $offset,
            name: b"/a",
        }
    };
}

// Segments, mappings of `LOW`, and the bytes and the words at addresses.
type Case = (
    &'static [MemoryRange<'static>],
    &'static [MappedFile<'static>],
    &'static [(u64, Option<u8>)],
    &'static [(u64, Option<u64>)],
);

static CASES: [Case; 11] = [
    // words in one segment and over two
    (
        &[range!(0x1000, 12, 0, LOW, 0), range!(0x100c, 8, 0, HIGH, 0)],
        &[],
        &[(0x1013, Some(28)), (0x1014, None)],
        &[
            (0x1000, Some(0x0807_0605_0403_0201)),
            (0x1004, Some(0x0c0b_0a09_0807_0605)),
            (0x1008, Some(0x1817_1615_0c0b_0a09)),
            (0x100c, Some(0x1c1b_1a19_1817_1615)),
            (0x100d, None),
            (0xfff, None),
            (u64::MAX, None),
        ],
    ),
    // out of order
    (
        &[range!(0x100c, 8, 0, HIGH, 0), range!(0x1000, 12, 0, LOW, 0)],
        &[],
        &[],
        &[
            (0x1000, Some(0x0807_0605_0403_0201)),
            (0x1008, Some(0x1817_1615_0c0b_0a09)),
        ],
    ),
    // the first of those that overlap
    (
        &[range!(0x1004, 8, 0, HIGH, 0), range!(0x1000, 12, 0, LOW, 0)],
        &[],
        &[],
        &[(0x1000, Some(0x1817_1615_0403_0201))],
    ),
    // the last word of all
    (
        &[range!(0xffff_ffff_ffff_fff8, 8, 0, HIGH, 0)],
        &[],
        &[(u64::MAX, Some(28))],
        &[
            (0xffff_ffff_ffff_fff8, Some(0x1c1b_1a19_1817_1615)),
            (0xffff_ffff_ffff_fff9, None),
        ],
    ),
    // bytes that are left out are those of the file
    (
        &[range!(0x1000, 16, 0, ALONE, 0)],
        &[mapped!(4)],
        &[],
        &[(0x1000, Some(0x0c0b_0a09_0807_1615)), (0x1001, None)],
    ),
    (
        &[range!(0x1000, 16, 0, ALONE, 0)],
        &[],
        &[],
        &[(0x1000, None)],
    ),
    // bytes that were lost are none of the file
    (
        &[range!(0x1000, 16, 0, ALONE, 3)],
        &[mapped!(0)],
        &[
            (0x1001, Some(22)),
            (0x1002, None),
            (0x1004, None),
            (0x1005, Some(6)),
        ],
        &[(0x1004, None)],
    ),
    (
        &[range!(0x1000, 16, 1, ALONE, 3)],
        &[mapped!(0)],
        &[
            (0x1002, Some(22)),
            (0x1003, None),
            (0x1005, None),
            (0x1006, Some(7)),
        ],
        &[],
    ),
    // zeros before the bytes
    (
        &[range!(0x1000, 12, 3, NINE, 0)],
        &[],
        &[
            (0x0fff, None),
            (0x1000, Some(0)),
            (0x1002, Some(0)),
            (0x1003, Some(1)),
            (0x100b, Some(9)),
            (0x100c, None),
        ],
        &[
            (0x1000, Some(0x0504_0302_0100_0000)),
            (0x1003, Some(0x0807_0605_0403_0201)),
            (0x1004, Some(0x0908_0706_0504_0302)),
            (0x1005, None),
        ],
    ),
    (
        &[range!(0x1000, 12, 12, b"", 0)],
        &[],
        &[],
        &[(0x1004, Some(0)), (0x1005, None)],
    ),
    // zeros past the size are none of the range's
    (
        &[range!(0x1000, 12, 20, NINE, 0)],
        &[],
        &[(0x100b, Some(0)), (0x100c, None)],
        &[],
    ),
];

#[test]
fn bytes_and_words(rt: HostRuntime) {
    for (segments, mappings, bytes, words) in &CASES {
        let mut files = Vec::new(rt.alloc());
        for mapping in *mappings {
            files.push(mapping.range(LOW)).expect(&rt, "memory");
        }
        let memory = Memory::new(segments, &files);
        for (address, byte) in *bytes {
            assert!(rt; memory.byte(*address) == *byte, "{address:#x}");
        }
        for (address, word) in *words {
            assert!(rt; memory.word(*address) == *word, "{address:#x}");
        }
    }
}

// A file with these bytes after some zeros.
const FILE: &[u8] = &[0x7f, 2, 3];

// How many zeros there are, and the file at an address.
static FILES_AT: [(u64, u64, Option<&[u8]>); 6] = [
    (3, 0x1003, Some(FILE)),
    (3, 0x1002, None),
    (3, 0x1004, None),
    (3, 0x1006, None),
    (3, 0xfff, None),
    // one byte past the range
    (12, 0x100c, None),
];

#[test]
fn ranges(rt: HostRuntime) {
    for (zeros, address, file) in &FILES_AT {
        let range = range!(0x1000, 12, *zeros, FILE, 0);
        assert!(rt; range.file_at(*address) == *file, "{address:#x}");
    }
    // an offset past the file
    let range = mapped!(13).range(LOW);
    assert!(rt; range.bytes.is_empty());
    assert!(rt; range.size == 16);
}

// Segments, and whether what is at an address may be executed.
static EXECUTABLE: [(&[MemoryRange<'static>], &[(u64, Option<bool>)]); 2] = [
    (
        &[left_out!(0x1000, 16, true), left_out!(0x1010, 8, false)],
        &[
            (0, None),
            (0xfff, None),
            (0x1000, Some(true)),
            (0x100f, Some(true)),
            (0x1010, Some(false)),
            (0x1018, None),
            (u64::MAX, None),
        ],
    ),
    // the first of those that overlap
    (
        &[left_out!(0x1004, 4, false), left_out!(0x1000, 16, true)],
        &[
            (0x1003, Some(true)),
            (0x1004, Some(false)),
            (0x1007, Some(false)),
            (0x1008, Some(true)),
        ],
    ),
];

#[test]
fn executable(rt: HostRuntime) {
    // a file has no say in it
    let files = [left_out!(0, 0x2000, true)];
    for (segments, addresses) in &EXECUTABLE {
        let memory = Memory::new(segments, &files);
        for (address, expected) in *addresses {
            assert!(rt; memory.executable_at(*address) == *expected, "{address:#x}");
        }
    }
}
