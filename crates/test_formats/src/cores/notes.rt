//! Descriptors of notes, written by hand as the kernel's headers lay them out.

use crate::cores::registers::in_order;
use core_files::{
    DescriptorError, MappedFile, MappedFiles, Prstatus, read_auxiliary, read_pac_mask,
    read_prstatus_aarch64, read_prstatus_x86_64,
};
use elf_files::Machine;
use std::process::Abort;

// Each byte is the low byte of its offset's half, so that each number tells where it was read.
fn descriptor() -> [u8; 392] {
    let mut bytes = [0; 392];
    for at in 0..392 {
        bytes[at] = (at / 2 % 256) as u8;
    }
    bytes
}

fn read_prstatus(machine: Machine, descriptor: &[u8]) -> Result<Prstatus, DescriptorError> {
    match machine {
        Machine::X86_64 => read_prstatus_x86_64(descriptor),
        Machine::Aarch64 => read_prstatus_aarch64(descriptor),
    }
}

// The size of a descriptor on a machine, and some of its registers with their numbers in pr_reg, which is at 112.
static PRSTATUS: [(Machine, usize, &[(usize, u64)]); 2] = [
    // r15, rbp, rip, rsp and gs
    (
        Machine::X86_64,
        336,
        &[
            (0, 0x3b3b_3a3a_3939_3838),
            (4, 0x4b4b_4a4a_4949_4848),
            (16, 0x7b7b_7a7a_7979_7878),
            (19, 0x8787_8686_8585_8484),
            (26, 0xa3a3_a2a2_a1a1_a0a0),
        ],
    ),
    // x0, x29, x30, sp, pc and pstate
    (
        Machine::Aarch64,
        392,
        &[
            (0, 0x3b3b_3a3a_3939_3838),
            (29, 0xafaf_aeae_adad_acac),
            (30, 0xb3b3_b2b2_b1b1_b0b0),
            (31, 0xb7b7_b6b6_b5b5_b4b4),
            (32, 0xbbbb_baba_b9b9_b8b8),
            (33, 0xbfbf_bebe_bdbd_bcbc),
        ],
    ),
];

#[test]
fn prstatus(rt: HostRuntime) {
    let bytes = descriptor();
    for (machine, size, expected) in &PRSTATUS {
        let read = read_prstatus(*machine, &bytes[..(*size).min(392)]);
        let status = read.expect(&rt, "a descriptor");
        assert!(rt; status.pid == 0x1111_1010);
        let registers = in_order(rt.alloc(), &status.registers).expect(&rt, "memory");
        for (number, value) in *expected {
            assert!(rt; registers.get(*number).copied() == Some(*value), "{number}");
        }
    }
}

// Sizes that no descriptor on a machine has.
static OTHER_SIZES: [(Machine, usize); 5] = [
    (Machine::X86_64, 335),
    (Machine::X86_64, 337),
    (Machine::X86_64, 392),
    (Machine::Aarch64, 336),
    (Machine::Aarch64, 0),
];

#[test]
fn other_sizes(rt: HostRuntime) {
    let bytes = descriptor();
    for (machine, size) in &OTHER_SIZES {
        let refused = read_prstatus(*machine, &bytes[..(*size).min(392)]).err();
        assert!(rt; refused == Some(DescriptorError::PrstatusSize), "{size}");
    }
    let masks = read_pac_mask(&bytes[..16]).expect(&rt, "masks");
    assert!(rt; masks.data_mask == 0x0303_0202_0101_0000);
    assert!(rt; masks.instruction_mask == 0x0707_0606_0505_0404);
    assert!(rt; read_pac_mask(&bytes[..15]) == Err(DescriptorError::PacMaskSize));
}

// AT_PAGESZ 4096, AT_ENTRY 0x55, AT_PAGESZ 1, AT_NULL, AT_UID 7, and the half of an entry.
const AUXV: [u8; 88] = [
    6, 0, 0, 0, 0, 0, 0, 0, 0, 16, 0, 0, 0, 0, 0, 0, 9, 0, 0, 0, 0, 0, 0, 0, 0x55, 0, 0, 0, 0, 0,
    0, 0, 6, 0, 0, 0, 0, 0, 0, 0, 1, 0, 0, 0, 0, 0, 0, 0, 0, 0, 0, 0, 0, 0, 0, 0, 0, 0, 0, 0, 0, 0,
    0, 0, 11, 0, 0, 0, 0, 0, 0, 0, 7, 0, 0, 0, 0, 0, 0, 0, 12, 0, 0, 0, 0, 0, 0, 0,
];

// From where on the vector is read, and the values of some of its types.
static ENTRIES: [(usize, u64, Option<u64>); 7] = [
    (0, 6, Some(4096)),
    (0, 9, Some(0x55)),
    (0, 0, None),
    (0, 11, None),
    (64, 11, Some(7)),
    (64, 12, None),
    (88, 6, None),
];

#[test]
fn auxiliary_vector(rt: HostRuntime) {
    for (start, kind, value) in &ENTRIES {
        let found = read_auxiliary(&AUXV[(*start).min(88)..], *kind);
        assert!(rt; found == *value, "{kind} from {start}");
    }
}

// Two files, pages of 4096 bytes: 0x1000 to 0x3000 from page 2 of "/a", and 0x4000 to 0x5000 from the start of "b".
const FILES: [u8; 69] = [
    2, 0, 0, 0, 0, 0, 0, 0, 0, 16, 0, 0, 0, 0, 0, 0, 0, 16, 0, 0, 0, 0, 0, 0, 0, 48, 0, 0, 0, 0, 0,
    0, 2, 0, 0, 0, 0, 0, 0, 0, 0, 64, 0, 0, 0, 0, 0, 0, 0, 80, 0, 0, 0, 0, 0, 0, 0, 0, 0, 0, 0, 0,
    0, 0, b'/', b'a', 0, b'b', 0,
];

const A: MappedFile<'static> = MappedFile {
    start: 0x1000,
    end: 0x3000,
    offset: 0x2000,
    name: b"/a",
};

// The same, at an offset that is almost 2^64.
const HIGH: MappedFile<'static> = MappedFile {
    start: 0x1000,
    end: 0x3000,
    offset: 0xf000_0000_0000_2000,
    name: b"/a",
};

const B: MappedFile<'static> = MappedFile {
    start: 0x4000,
    end: 0x5000,
    offset: 0,
    name: b"b",
};

// How many bytes of the table there are, the highest bytes of both offsets, the files, and the error after them.
type Table = (
    usize,
    (u8, u8),
    &'static [MappedFile<'static>],
    Option<DescriptorError>,
);

static TABLES: [Table; 8] = [
    (69, (0, 0), &[A, B], None),
    (64, (0, 0), &[], UNTERMINATED_0),
    (66, (0, 0), &[], UNTERMINATED_0),
    (67, (0, 0), &[A], UNTERMINATED_1),
    (68, (0, 0), &[A], UNTERMINATED_1),
    // an offset is below 2^64
    (
        69,
        (16, 0),
        &[],
        Some(DescriptorError::FileOffsetTooLarge(0)),
    ),
    (69, (15, 0), &[HIGH, B], None),
    (
        69,
        (15, 16),
        &[HIGH],
        Some(DescriptorError::FileOffsetTooLarge(1)),
    ),
];

const UNTERMINATED_0: Option<DescriptorError> = Some(DescriptorError::FileNameUnterminated(0));

const UNTERMINATED_1: Option<DescriptorError> = Some(DescriptorError::FileNameUnterminated(1));

// The files of a table are these, and then there is an error, or none each time.
fn expect_files(
    rt: &impl Abort,
    descriptor: &[u8],
    expected: &[MappedFile<'static>],
    error: Option<DescriptorError>,
) {
    let mut files = MappedFiles::new(descriptor).expect(rt, "a table");
    for file in expected {
        assert!(rt; files.next() == Ok(Some(*file)));
    }
    for _ in 0..2 {
        match files.next() {
            Ok(file) => assert!(rt; file.is_none() && error.is_none()),
            Err(found) => assert!(rt; error == Some(found)),
        }
    }
}

#[test]
fn mapped_files(rt: HostRuntime) {
    for (size, (first, second), files, error) in &TABLES {
        let mut bytes = FILES;
        bytes[38] = *first;
        bytes[62] = *second;
        expect_files(&rt, &bytes[..(*size).min(69)], files, *error);
    }
    for size in 0..64 {
        let found = MappedFiles::new(&FILES[..size]).err();
        assert!(rt;
            found == Some(DescriptorError::FileTableTruncated),
            "{size}"
        );
    }
}
