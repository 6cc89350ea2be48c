//! A program of x86_64 that is written by hand, as the gABI lays it out: its call frames, and one function's symbol.

use crate::bytes::push_words;
use std::alloc::{AllocError, Global};

// The header, and the program header of the code: 4096 bytes at offset 0x1000 and address 0x1000.
static HEADERS: &[u64] = &[
    0x0001_0102_464c_457f,
    0,
    0x0000_0001_003e_0003,
    0,
    64,
    0x110,
    0x0038_0040_0000_0000,
    0x0004_0005_0040_0001,
    0x5_0000_0001,
    0x1000,
    0x1000,
    0x1000,
    0x1000,
    0x1000,
    0x1000,
];

// The .eh_frame at 0x78, of the 16 bytes from address 0x1000 on: `push rbp`, `mov rbp, rsp`, and code behind it.
const EH_FRAME: [u8; 56] = [
    16, 0, 0, 0, 0, 0, 0, 0, 1, 0, 1, 0x78, 16, 12, 7, 8, 0x90, 1, 0, 0, 28, 0, 0, 0, 24, 0, 0, 0,
    0, 16, 0, 0, 0, 0, 0, 0, 16, 0, 0, 0, 0, 0, 0, 0, 0x41, 14, 16, 0x86, 2, 0x43, 13, 6, 0, 0, 0,
    0,
];

// The symbols at 0xb0, of which the second is `leaf`, 16 bytes at address 0x1000; and their names at 0xe0.
static SYMBOLS: &[u64] = &[
    0,
    0,
    0,
    0x0001_0012_0000_0001,
    0x1000,
    0x10,
    0x0000_0066_6165_6c00,
];

// The names of sections, at 0xe8.
const NAMES: &[u8] = b"\0.eh_frame\0.symtab\0.strtab\0.shstrtab\0\0\0\0";

// The section headers, at 0x110.
static SECTIONS: &[u64] = &[
    0,
    0,
    0,
    0,
    0,
    0,
    0,
    0,
    0x1_0000_0001,
    2,
    0x2000,
    0x78,
    56,
    0,
    8,
    0,
    0x2_0000_000b,
    0,
    0,
    0xb0,
    0x30,
    0x1_0000_0003,
    8,
    24,
    0x3_0000_0013,
    0,
    0,
    0xe0,
    8,
    0,
    1,
    0,
    0x3_0000_001b,
    0,
    0,
    0xe8,
    37,
    0,
    1,
    0,
];

/// The bytes of the program.
pub fn program(alloc: Global) -> Result<Vec<u8>, AllocError> {
    let mut bytes = Vec::new(alloc);
    push_words(&mut bytes, HEADERS)?;
    bytes.extend_from_slice(&EH_FRAME)?;
    push_words(&mut bytes, SYMBOLS)?;
    bytes.extend_from_slice(NAMES)?;
    push_words(&mut bytes, SECTIONS)?;
    Ok(bytes)
}
