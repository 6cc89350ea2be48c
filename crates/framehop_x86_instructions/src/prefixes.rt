//! Prefixes before an opcode (Intel SDM, volume 2, 2.1.1 and 2.2.1).
ghost use Rattle.std.specs.Prelude.{◌≡◌, ◌≤◌, take, length};
ghost use Rattle.framehop_x86_instructions.specs.Prefixes.{is_legacy_prefix, is_rex, is_prefix, prefix_count, has_byte, last_repeat, last_rex, prefixes_of};

use crate::bytes::byte_at;

/// A repeat prefix, which is also a part of other opcodes.
#[derive(Clone, Copy, Debug, PartialEq, Eq)]
pub enum Repeat {
    /// REPNE
    F2,
    /// REP, REPE
    F3,
}

/// The prefixes of an instruction.
#[derive(Clone, Copy, Debug, PartialEq, Eq)]
pub struct Prefixes {
    /// how many bytes they are
    pub count: usize,
    /// 66, which makes operands of 2 bytes
    pub operand_size: bool,
    /// 67, which makes addresses of 4 bytes
    pub address_size: bool,
    /// FS or GS, 64 or 65
    pub segment: bool,
    /// F0
    pub lock: bool,
    /// the last of F2 and F3
    pub repeat: Option<Repeat>,
    /// the REX prefix, 0 if none is right before the opcode
    pub rex: u8,
}

// Whether a byte is a prefix of groups 1 to 4.
fn is_legacy_prefix(byte: u8) -> bool
    ensures { result ≡ is_legacy_prefix byte }
{
    matches!(
        byte,
        0xf0 | 0xf2 | 0xf3 | 0x2e | 0x36 | 0x3e | 0x26 | 0x64 | 0x65 | 0x66 | 0x67
    )
}

fn is_rex(byte: u8) -> bool
    ensures { result ≡ is_rex byte }
{
    byte >> 4 == 4
}

fn is_prefix(byte: u8) -> bool
    ensures { result ≡ is_prefix byte }
{
    is_rex(byte) || is_legacy_prefix(byte)
}

// How many bytes are prefixes, from the first on.
fn prefix_count(code: &[u8]) -> usize
    ensures is { result ≡ prefix_count code.now }
    ensures within { result ≤ length code.now }
{
    for (i, byte) in code.iter().enumerate() {
        if !is_prefix(*byte) {
            return i;
        }
    }
    code.len()
}

// Whether a byte is among some.
fn has_byte(bytes: &[u8], wanted: u8) -> bool
    ensures { result ≡ has_byte wanted bytes.now }
{
    bytes.iter().any(|byte| *byte == wanted)
}

fn last_repeat(bytes: &[u8]) -> Option<Repeat>
    ensures { result ≡ last_repeat bytes.now }
{
    let mut last = None;
    for byte in bytes {
        match *byte {
            0xf2 => last = Some(Repeat::F2),
            0xf3 => last = Some(Repeat::F3),
            _ => {}
        }
    }
    last
}

// The REX prefix that is the last of so many prefixes, or 0.
fn last_rex(code: &[u8], count: usize) -> u8
    ensures { result ≡ last_rex code.now count }
{
    if count == 0 {
        return 0;
    }
    let last = byte_at(code, count - 1);
    if is_rex(last) { last } else { 0 }
}

impl Prefixes {
    /// The prefixes that code begins with.
    pub fn of(code: &[u8]) -> Prefixes
        ensures is { result ≡ prefixes_of code.now }
        ensures within { result.count ≤ length code.now }
    {
        let count = prefix_count(code);
        let bytes = &code[..count];
        Prefixes {
            count,
            operand_size: has_byte(bytes, 0x66),
            address_size: has_byte(bytes, 0x67),
            segment: has_byte(bytes, 0x64) || has_byte(bytes, 0x65),
            lock: has_byte(bytes, 0xf0),
            repeat: last_repeat(bytes),
            rex: last_rex(code, count),
        }
    }
}
