//! Cores that are written by hand, as Linux lays them out: of two threads on x86_64, and of one on aarch64. The program's code is mapped
//! from 0x101000 to 0x102000.

use crate::bytes::{push_halves, push_words};
use std::alloc::{AllocError, Global};

/// Where the words of the stacks are.
pub const STACK: u64 = 0x7000;

// The header of a core with three program headers, without the machine.
fn push_header(bytes: &mut Vec<u8>, machine: u64) -> Result<(), AllocError> {
    push_words(bytes, &[0x0001_0102_464c_457f, 0, machine, 0, 64, 0])?;
    push_words(bytes, &[0x0038_0040_0000_0000, 3])
}

// The program headers: the notes at 0xe8, the stacks behind them, and behind these 24 bytes of code from 0x1ffff8
// on: what handlers return to is at 0x200000.
fn push_segments(bytes: &mut Vec<u8>, notes: u64, stacks: u64) -> Result<(), AllocError> {
    let behind_notes = 0xe8_u64.wrapping_add(notes);
    let behind_stacks = behind_notes.wrapping_add(stacks);
    push_words(bytes, &[4, 0xe8, 0, 0, notes, 0, 4])?;
    push_words(
        bytes,
        &[0x6_0000_0001, behind_notes, STACK, 0, stacks, stacks, 8],
    )?;
    push_words(
        bytes,
        &[0x5_0000_0001, behind_stacks, 0x1f_fff8, 0, 24, 24, 8],
    )
}

// The NT_FILE, 72 bytes.
fn push_files(bytes: &mut Vec<u8>) -> Result<(), AllocError> {
    push_halves(bytes, &[5, 49, 0x4649_4c45, 0x4552_4f43, 0])?;
    push_words(bytes, &[1, 0x1000, 0x10_1000, 0x10_2000, 1])?;
    bytes.extend_from_slice(b"/program\0\0\0\0")?;
    Ok(())
}

// The NT_PRSTATUS of a thread on x86_64, 356 bytes.
fn push_thread(
    bytes: &mut Vec<u8>,
    id: u64,
    rbp: u64,
    rip: u64,
    rsp: u64,
) -> Result<(), AllocError> {
    let mut words = [0; 42];
    words[4] = id;
    words[18] = rbp;
    words[30] = rip;
    words[33] = rsp;
    push_halves(bytes, &[5, 336, 1, 0x4552_4f43, 0])?;
    push_words(bytes, &words)
}

/// The words of both stacks. The first thread's frames go up by frame pointers. The second is in a handler, which returns to 0x200000, from
// where a signal interrupted it at 0x101600.
pub fn stacks() -> [u64; 100] {
    let mut words = [0; 100];
    words[2] = 0x10_1200;
    words[4] = 0x7040;
    words[5] = 0x10_1300;
    words[8] = 0x7070;
    words[9] = 0x10_1400;
    words[37] = 0x20_0000;
    words[53] = 0x7310;
    words[58] = 0x7300;
    words[59] = 0x10_1600;
    words
}

/// Where a thread is: RBP, RIP and RSP.
pub type Place = (u64, u64, u64);

/// A core of x86_64 whose threads 7 and 9 are at these places, with these words of their stacks.
pub fn core_with(
    alloc: Global,
    first: Place,
    second: Place,
    words: &[u64; 100],
) -> Result<Vec<u8>, AllocError> {
    let mut bytes = Vec::new(alloc);
    push_header(&mut bytes, 0x0000_0001_003e_0004)?;
    push_segments(&mut bytes, 356 + 356 + 72, 800)?;
    push_thread(&mut bytes, 7, first.0, first.1, first.2)?;
    push_thread(&mut bytes, 9, second.0, second.1, second.2)?;
    push_files(&mut bytes)?;
    push_words(&mut bytes, words)?;
    // nops; mov rax, 15; syscall
    bytes.extend_from_slice(&[0x90; 8])?;
    bytes.extend_from_slice(&[0x48, 0xc7, 0xc0, 15, 0, 0, 0, 15, 5, 0, 0, 0, 0, 0, 0, 0])?;
    Ok(bytes)
}

/// A core of x86_64. Its thread 7 is at 0x101000, the first instruction of `leaf`, and thread 9 at 0x101500.
pub fn core_x86_64(alloc: Global) -> Result<Vec<u8>, AllocError> {
    core_with(
        alloc,
        (0x7020, 0x10_1000, 0x7010),
        (0x7120, 0x10_1500, 0x7128),
        &stacks(),
    )
}

// The NT_PRSTATUS of a thread on aarch64, 412 bytes: at 0x101500, with a frame record at 0x7020.
fn push_thread_aarch64(bytes: &mut Vec<u8>) -> Result<(), AllocError> {
    let mut words = [0; 49];
    words[4] = 7;
    words[43] = 0x7020;
    words[44] = 0x10_1510;
    words[45] = 0x7010;
    words[46] = 0x10_1500;
    push_halves(bytes, &[5, 392, 1, 0x4552_4f43, 0])?;
    push_words(bytes, &words)
}

/// A core of aarch64, with 80 bytes of stack. A note of this type has the masks of data and of code: bits 48 to 54. The return address of
/// the one frame record is signed.
pub fn core_aarch64(alloc: Global, masks: u32) -> Result<Vec<u8>, AllocError> {
    let mut bytes = Vec::new(alloc);
    push_header(&mut bytes, 0x0000_0001_00b7_0004)?;
    push_segments(&mut bytes, 412 + 36 + 72, 80)?;
    push_thread_aarch64(&mut bytes)?;
    push_halves(&mut bytes, &[6, 16, masks, 0x554e_494c, 0x58])?;
    push_words(&mut bytes, &[0x007f_0000_0000_0000, 0x007f_0000_0000_0000])?;
    push_files(&mut bytes)?;
    push_words(
        &mut bytes,
        &[0, 0, 0, 0, 0x7040, 0x002b_0000_0010_1300, 0, 0, 0, 0],
    )?;
    bytes.extend_from_slice(&[0; 24])?;
    Ok(bytes)
}
