//! Files that are refused, each for one reason, and parts of files that can't be read.

use crate::elf::worked::worked_with;
use elf_files::{ElfError, ElfFile};
use std::process::Abort;
use std::test::Fail;

// What is read of a file.
#[derive(Clone, Copy)]
enum Part {
    Header,
    Name,
    Function,
    BuildId,
}

// The worked file: how many of its bytes there are, from the first number to below the second; bytes that are changed; and why a part
// can't be read then.
type Refusal = (
    Part,
    (usize, usize),
    &'static [(usize, u8)],
    Option<ElfError>,
);

const WHOLE: (usize, usize) = (0x21c, 0x21d);

static HEADERS: [Refusal; 14] = [
    (Part::Header, WHOLE, &[(0, 0x7e)], NOT_ELF),
    (Part::Header, WHOLE, &[(3, 0x45)], NOT_ELF),
    (
        Part::Header,
        WHOLE,
        &[(4, 1)],
        Some(ElfError::UnsupportedClass { offset: 4 }),
    ),
    (
        Part::Header,
        WHOLE,
        &[(5, 2)],
        Some(ElfError::UnsupportedByteOrder { offset: 5 }),
    ),
    (
        Part::Header,
        WHOLE,
        &[(6, 0)],
        Some(ElfError::UnsupportedVersion { offset: 6 }),
    ),
    (
        Part::Header,
        WHOLE,
        &[(20, 2)],
        Some(ElfError::UnsupportedVersion { offset: 20 }),
    ),
    (Part::Header, WHOLE, &[(18, 3)], NO_MACHINE),
    (Part::Header, WHOLE, &[(19, 1)], NO_MACHINE),
    (
        Part::Header,
        WHOLE,
        &[(54, 32)],
        Some(ElfError::BadEntrySize { offset: 54 }),
    ),
    (
        Part::Header,
        WHOLE,
        &[(58, 40)],
        Some(ElfError::BadEntrySize { offset: 58 }),
    ),
    // The section header at index 0 has the count of segments, and isn't there, or is cut off.
    (
        Part::Header,
        WHOLE,
        &[(56, 0xff), (57, 0xff), (40, 0)],
        Some(ElfError::NoInitialSection { offset: 56 }),
    ),
    (
        Part::Header,
        WHOLE,
        &[(56, 0xff), (57, 0xff), (40, 0xdd), (41, 1)],
        Some(ElfError::Truncated { offset: 0x1dd }),
    ),
    (Part::Header, (0, 4), &[], NOT_ELF),
    (
        Part::Header,
        (4, 64),
        &[],
        Some(ElfError::Truncated { offset: 0 }),
    ),
];

const NOT_ELF: Option<ElfError> = Some(ElfError::NotElf { offset: 0 });

const NO_MACHINE: Option<ElfError> = Some(ElfError::UnsupportedMachine { offset: 18 });

static FRONTS: [Refusal; 6] = [
    (Part::Name, (64, 0x1b8), &[], NO_SECTIONS),
    (Part::Function, (64, 0x1b8), &[], NO_SECTIONS),
    (Part::BuildId, (64, 0x1b8), &[], NO_SECTIONS),
    (
        Part::Name,
        (0x1b8, 0x1d7),
        &[],
        Some(ElfError::Truncated { offset: 0x1b8 }),
    ),
    (
        Part::Function,
        (0x1d8, 0x208),
        &[],
        Some(ElfError::Truncated { offset: 0x1d8 }),
    ),
    (Part::BuildId, (0x1d8, 0x208), &[], NO_NOTES),
];

const NO_SECTIONS: Option<ElfError> = Some(ElfError::Truncated { offset: 0x78 });

const NO_NOTES: Option<ElfError> = Some(ElfError::Truncated { offset: 0x208 });

static NAMES: [Refusal; 9] = [
    // e_shstrndx.
    (Part::Name, WHOLE, &[(62, 5)], NO_SUCH_NAMES),
    (Part::Function, WHOLE, &[(62, 5)], None),
    (Part::BuildId, WHOLE, &[(62, 5)], None),
    (Part::Name, WHOLE, &[(62, 1)], NO_NAMES),
    (Part::Function, WHOLE, &[(62, 1)], None),
    (Part::BuildId, WHOLE, &[(62, 1)], None),
    // sh_flags of .strtab.
    (Part::Name, WHOLE, &[(0x101, 8)], COMPRESSED),
    (Part::Function, WHOLE, &[(0x101, 8)], COMPRESSED),
    (Part::BuildId, WHOLE, &[(0x101, 8)], None),
];

const NO_SUCH_NAMES: Option<ElfError> = Some(ElfError::NoSuchSection { offset: 62 });

const NO_NAMES: Option<ElfError> = Some(ElfError::NotStringTable { offset: 62 });

const COMPRESSED: Option<ElfError> = Some(ElfError::CompressedSection { offset: 0x1b8 });

static SYMBOLS: [Refusal; 15] = [
    // sh_link and sh_entsize of .symtab.
    (Part::Name, WHOLE, &[(0x160, 9)], None),
    (Part::Function, WHOLE, &[(0x160, 9)], NO_SUCH_STRINGS),
    (Part::BuildId, WHOLE, &[(0x160, 9)], None),
    (Part::Name, WHOLE, &[(0x160, 1)], None),
    (Part::Function, WHOLE, &[(0x160, 1)], NO_STRINGS),
    (Part::BuildId, WHOLE, &[(0x160, 1)], None),
    (Part::Name, WHOLE, &[(0x170, 16)], None),
    (Part::Function, WHOLE, &[(0x170, 16)], NO_SYMBOLS),
    (Part::BuildId, WHOLE, &[(0x170, 16)], None),
    // The name of f.
    (Part::Name, WHOLE, &[(0x1f0, 200)], None),
    (Part::Function, WHOLE, &[(0x1f0, 200)], NO_STRING),
    (Part::BuildId, WHOLE, &[(0x1f0, 200)], None),
    // n_descsz.
    (Part::Name, WHOLE, &[(0x20c, 5)], None),
    (Part::Function, WHOLE, &[(0x20c, 5)], None),
    (Part::BuildId, WHOLE, &[(0x20c, 5)], NO_NOTES),
];

const NO_SUCH_STRINGS: Option<ElfError> = Some(ElfError::NoSuchSection { offset: 0x1d8 });

const NO_STRINGS: Option<ElfError> = Some(ElfError::NotStringTable { offset: 0x1d8 });

const NO_SYMBOLS: Option<ElfError> = Some(ElfError::BadEntrySize { offset: 0x1d8 });

const NO_STRING: Option<ElfError> = Some(ElfError::BadString { offset: 0x280 });

// Why a part of a file can't be read.
fn refusal(part: Part, bytes: &[u8]) -> Option<ElfError> {
    let file = match ElfFile::parse(bytes) {
        Ok(file) => file,
        Err(error) => return Some(error),
    };
    match part {
        Part::Header => None,
        Part::Name => file.section_named(b".note").err(),
        Part::Function => file.symbol_for_address(0x1000).err(),
        Part::BuildId => file.build_id().err(),
    }
}

fn expect_refusals(rt: &impl Abort, refusals: &[Refusal]) {
    for (part, (first, end), changes, error) in refusals {
        let bytes = worked_with(changes);
        for size in *first..*end {
            let front = &bytes[..size.min(bytes.len())];
            assert!(rt; refusal(*part, front) == *error, "{changes:?} {size}");
        }
    }
}

#[test]
fn of_files_and_parts(rt: HostRuntime) {
    expect_refusals(&rt, &HEADERS);
    expect_refusals(&rt, &FRONTS);
    expect_refusals(&rt, &NAMES);
    expect_refusals(&rt, &SYMBOLS);
}
