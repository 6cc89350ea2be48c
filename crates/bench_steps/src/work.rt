//! What is timed: a module's section, and walks from first frames over stacks.

ghost use Rattle.std.specs.Prelude.{◌≡◌, IfOk, length};

use anyhow::{Context, Result};
use dwarf_endianity::{Endianity, LittleEndian};
use std::alloc::Global;
use std::io::Read;

/// The bytes of an input that are left to be read.
#[derive(Clone, Copy)]
pub struct Bytes<'a> {
    pub left: &'a [u8],
}

/// Words of a stack, eight bytes each, the first of them at the start.
#[derive(Drop)]
pub struct Stack {
    pub start: u64,
    pub words: Vec<u64>,
}

impl Stack {
    /// The word at an address. `Err` if there is none.
    pub fn word(&self, address: u64) -> std::result::Result<u64, ()> {
        let offset = address.checked_sub(self.start).ok_or(())?;
        if offset % 8 != 0 {
            return Err(());
        }
        self.words.get((offset / 8) as usize).copied().ok_or(())
    }
}

/// The registers of a first frame.
#[derive(Clone, Copy)]
pub struct FirstRegisters {
    /// The instruction pointer on x86_64, the link register on aarch64.
    pub code: u64,
    pub sp: u64,
    pub fp: u64,
    /// The bits of a code address, on aarch64.
    pub mask: u64,
}

/// A walk from a first frame, of at most `limit` frames.
#[derive(Drop)]
pub struct Walk {
    pub pc: u64,
    pub first: FirstRegisters,
    pub limit: u32,
    pub stack: Stack,
}

/// A header of the section, and where it starts.
#[derive(Drop)]
pub struct Header {
    pub start: u64,
    pub bytes: Vec<u8>,
}

/// What is timed, and how often. The module's code begins at the base, which its sections call 0.
#[derive(Drop)]
pub struct Work {
    pub rounds: u32,
    pub base: u64,
    pub end: u64,
    pub text: u64,
    pub eh_frame: u64,
    pub walks: Vec<Walk>,
    pub header: Option<Header>,
    pub section: Vec<u8>,
}

/// What is on standard input.
pub fn read_input<R: AllocGlobal + Input>(rt: &R) -> Result<Vec<u8>> {
    let mut input = Vec::new(rt.alloc());
    rt.reader().read_to_end(&mut input)?;
    Ok(input)
}

// Takes so many bytes.
fn take<'a>(bytes: &mut Bytes<'a>, count: usize) -> Result<&'a [u8]>
    ensures { IfOk result (λ taken. length taken.now ≡ count) }
{
    let left = bytes.left;
    let taken = left.get(..count).context("the input ends too soon")?;
    bytes.left = &left[count..];
    Ok(taken)
}

/// Reads a number of four bytes, the low byte first.
pub fn read_u32(bytes: &mut Bytes<'_>) -> Result<u32> {
    Ok(LittleEndian.read_u32(take(bytes, 4)?))
}

/// Reads a number of eight bytes, the low byte first.
pub fn read_u64(bytes: &mut Bytes<'_>) -> Result<u64> {
    Ok(LittleEndian.read_u64(take(bytes, 8)?))
}

/// Reads so many bytes.
pub fn read_bytes(alloc: Global, bytes: &mut Bytes<'_>, count: u32) -> Result<Vec<u8>> {
    Ok(take(bytes, count as usize)?.to_vec(alloc)?)
}

/// Reads what is to be timed: the rounds, the module's base and its end, and the addresses of `.text` and `.eh_frame` as the
/// module's sections have them; the number of walks, and of each the instruction pointer, this again or on aarch64 the link
/// register, the stack pointer, the frame pointer, the bits of a code address, the most frames, and its stack's start, number
/// of words, and words; the address of `.eh_frame_hdr`, its number of bytes, 0 if there is none, and these; and then the
/// bytes of `.eh_frame`. Rounds, counts and limits have four bytes, all else eight, the low byte first.
pub fn read_work(alloc: Global, input: &[u8]) -> Result<Work> {
    let mut bytes = Bytes { left: input };
    Ok(Work {
        rounds: read_u32(&mut bytes)?,
        base: read_u64(&mut bytes)?,
        end: read_u64(&mut bytes)?,
        text: read_u64(&mut bytes)?,
        eh_frame: read_u64(&mut bytes)?,
        walks: read_walks(alloc, &mut bytes)?,
        header: read_header(alloc, &mut bytes)?,
        section: bytes.left.to_vec(alloc)?,
    })
}

fn read_walks(alloc: Global, bytes: &mut Bytes<'_>) -> Result<Vec<Walk>> {
    let mut walks = Vec::new(alloc);
    for _ in 0..read_u32(bytes)? {
        walks.push(read_walk(alloc, bytes)?)?;
    }
    Ok(walks)
}

fn read_header(alloc: Global, bytes: &mut Bytes<'_>) -> Result<Option<Header>> {
    let start = read_u64(bytes)?;
    let length = read_u32(bytes)?;
    if length == 0 {
        return Ok(None);
    }
    Ok(Some(Header {
        start,
        bytes: read_bytes(alloc, bytes, length)?,
    }))
}

fn read_walk(alloc: Global, bytes: &mut Bytes<'_>) -> Result<Walk> {
    Ok(Walk {
        pc: read_u64(bytes)?,
        first: read_registers(bytes)?,
        limit: read_u32(bytes)?,
        stack: read_stack(alloc, bytes)?,
    })
}

fn read_registers(bytes: &mut Bytes<'_>) -> Result<FirstRegisters> {
    Ok(FirstRegisters {
        code: read_u64(bytes)?,
        sp: read_u64(bytes)?,
        fp: read_u64(bytes)?,
        mask: read_u64(bytes)?,
    })
}

fn read_stack(alloc: Global, bytes: &mut Bytes<'_>) -> Result<Stack> {
    let start = read_u64(bytes)?;
    let mut words = Vec::new(alloc);
    for _ in 0..read_u32(bytes)? {
        words.push(read_u64(bytes)?)?;
    }
    Ok(Stack { start, words })
}
