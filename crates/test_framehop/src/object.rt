//! A shared object of x86_64 that is written by hand, as the gABI lays it out.

use crate::bytes::push_words;
use std::alloc::{AllocError, Global};

// The header; then the program headers: the first 0x308 bytes, which may be read; the code, which has 64 bytes at offset 0x308 and
// address 0x1308; and the notes, 20 bytes at 0xe8.
static HEADERS: &[u64] = &[
    0x0001_0102_464c_457f,
    0,
    0x0000_0001_003e_0003,
    0,
    64,
    0x188,
    0x0038_0040_0000_0000,
    0x0004_0006_0040_0003,
    0x4_0000_0001,
    0,
    0,
    0,
    0x308,
    0x308,
    0x1000,
    0x5_0000_0001,
    0x308,
    0x1308,
    0x1308,
    0x40,
    0x40,
    0x1000,
    0x4_0000_0004,
    0xe8,
    0xe8,
    0xe8,
    20,
    20,
    4,
];

// The build id 01 02 03 04 at 0xe8; the symbols at 0x100, `run` of 32 bytes and `go` of 16 bytes behind it; and their names, at 0x148.
static TABLES: &[u64] = &[
    0x4_0000_0004,
    0x0055_4e47_0000_0003,
    0x0403_0201,
    0,
    0,
    0,
    0x0001_0012_0000_0001,
    0x1308,
    0x20,
    0x0001_0012_0000_0005,
    0x1328,
    0x10,
    0x006f_6700_6e75_7200,
];

// The names of sections behind them, and the bytes of .eh_frame at 0x180.
const NAMES: &[u8] =
    b"\0.text\0.eh_frame\0.symtab\0.strtab\0.note\0\0\0\0\0\0\0\0\0\0\x11\x12\x13\x14\x15\x16\x17\x18";

// The section headers, at 0x188: .text, .eh_frame, .symtab, .strtab with all names, and .note with the build id.
static SECTIONS: &[u64] = &[
    0,
    0,
    0,
    0,
    0,
    0,
    0,
    0,
    0x1_0000_0009,
    6,
    0x1308,
    0x308,
    0x40,
    0,
    4,
    0,
    0x1_0000_000f,
    2,
    0x180,
    0x180,
    8,
    0,
    8,
    0,
    0x2_0000_0019,
    0,
    0,
    0x100,
    0x48,
    0x1_0000_0004,
    8,
    24,
    0x3_0000_0021,
    0,
    0,
    0x148,
    47,
    0,
    1,
    0,
    0x7_0000_0029,
    2,
    0xe8,
    0xe8,
    20,
    0,
    4,
    0,
];

/// Where the build id is.
pub const BUILD_ID: usize = 0xf8;

/// The bytes of the file.
pub fn object(alloc: Global) -> Result<Vec<u8>, AllocError> {
    let mut bytes = Vec::new(alloc);
    push_words(&mut bytes, HEADERS)?;
    push_words(&mut bytes, TABLES)?;
    bytes.extend_from_slice(NAMES)?;
    push_words(&mut bytes, SECTIONS)?;
    bytes.extend_from_slice(&[0x90; 64])?;
    Ok(bytes)
}

/// The same with another build id.
pub fn other_object(alloc: Global) -> Result<Vec<u8>, AllocError> {
    let mut bytes = object(alloc)?;
    if let Some(byte) = bytes.get_mut(BUILD_ID) {
        *byte = 9;
    }
    Ok(bytes)
}
