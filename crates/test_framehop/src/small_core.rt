//! A core that is written by hand, as Linux lays it out: of a process without a thread, into which two files are mapped.

use crate::bytes::{push_halves, push_words};
use std::alloc::{AllocError, Global};

// The header; then the program headers: the notes, 172 bytes at 0xe8; the first 0x300 bytes of the file `/a`, at 0x198 and address
// 0x70000000; and the virtual shared object, 16 bytes at 0x498 and address 0x7fff0000.
static HEADERS: &[u64] = &[
    0x0001_0102_464c_457f,
    0,
    0x0000_0001_003e_0004,
    0,
    64,
    0,
    0x0038_0040_0000_0000,
    3,
    4,
    0xe8,
    0,
    0,
    172,
    0,
    4,
    0x4_0000_0001,
    0x198,
    0x7000_0000,
    0,
    0x300,
    0x300,
    0x1000,
    0x5_0000_0001,
    0x498,
    0x7fff_0000,
    0,
    16,
    16,
    0x1000,
];

// What an NT_AUXV of 32 bytes begins with, and its entries: AT_SYSINFO_EHDR and the end.
static AUXV_HEAD: &[u32] = &[5, 32, 6, 0x4552_4f43, 0];

static AUXV: &[u64] = &[33, 0x7fff_0000, 0, 0];

// What an NT_FILE of 97 bytes begins with, and its mappings: of `/a` up to 0x300 and from there on, and of `/b`; an offset counts bytes.
static FILE_HEAD: &[u32] = &[5, 97, 0x4649_4c45, 0x4552_4f43, 0];

static FILES: &[u64] = &[
    3,
    1,
    0x7000_0000,
    0x7000_0300,
    0,
    0x7000_0300,
    0x7000_0348,
    0x300,
    0x7100_0000,
    0x7100_1000,
    0,
];

/// The bytes of the virtual shared object.
pub const SHARED_OBJECT: [u8; 16] = [0x7f; 16];

/// The bytes of the core, which has the first 0x300 bytes of `/a`.
pub fn core_with(alloc: Global, file: &[u8]) -> Result<Vec<u8>, AllocError> {
    let mut bytes = Vec::new(alloc);
    push_words(&mut bytes, HEADERS)?;
    push_halves(&mut bytes, AUXV_HEAD)?;
    push_words(&mut bytes, AUXV)?;
    push_halves(&mut bytes, FILE_HEAD)?;
    push_words(&mut bytes, FILES)?;
    bytes.extend_from_slice(b"/a\0/a\0/b\0\0\0\0\0\0\0\0")?;
    for (at, byte) in file.iter().enumerate() {
        if at < 0x300 {
            bytes.push(*byte)?;
        }
    }
    bytes.extend_from_slice(&SHARED_OBJECT)?;
    Ok(bytes)
}
