//! Opcodes with their escapes, or their VEX or EVEX prefix (Intel SDM, volume 2, 2.1.2, 2.3.5, 2.7.1).
ghost use Rattle.std.specs.Prelude.{◌≡◌, ◌+◌, ◌<◌, ◌≤◌, ◌^◌, length};
ghost use Rattle.framehop_x86_instructions.specs.Bits.{bit};
ghost use Rattle.framehop_x86_instructions.specs.Opcodes.{extension_of_rex, extension_of_vex, map_numbered, vvvv_of, repeat_of, escaped, vex_of_two_bytes, vex_of_three_bytes, evex, one_byte, is_xop, opcode_of};

use crate::bytes::byte_at;
use crate::prefixes::{Prefixes, Repeat};

/// How an opcode is written.
#[derive(Clone, Copy, Debug, PartialEq, Eq)]
pub enum Encoding {
    /// with escapes and a REX prefix
    Legacy,
    Vex,
    Evex,
    /// AMD's, with 8F
    Xop,
}

/// The map in which an opcode is looked up.
#[derive(Clone, Copy, Debug, PartialEq, Eq)]
pub enum Map {
    OneByte,
    /// 0F
    TwoByte,
    /// 0F 38
    ThreeByte38,
    /// 0F 3A
    ThreeByte3A,
    /// of EVEX alone
    Map5,
    /// of EVEX alone
    Map6,
    /// one that isn't known
    Other,
}

/// What REX, VEX or EVEX add to the fields of an instruction.
#[derive(Clone, Copy, Debug, PartialEq, Eq)]
pub struct Extension {
    /// the operands have 8 bytes
    pub w: bool,
    /// bit 3 of ModRM.reg
    pub r: bool,
    /// bit 3 of SIB.index
    pub x: bool,
    /// bit 3 of ModRM.rm, SIB.base or the register in the opcode
    pub b: bool,
}

/// An opcode.
#[derive(Clone, Copy, Debug, PartialEq, Eq)]
pub struct Opcode {
    pub encoding: Encoding,
    pub map: Map,
    /// the last byte
    pub byte: u8,
    /// how many bytes it has, with its escapes or its VEX or EVEX prefix
    pub size: usize,
    pub extension: Extension,
    /// the register in a VEX or EVEX prefix, else 0
    pub vvvv: u8,
    /// F2 or F3, as a prefix or in VEX or EVEX
    pub repeat: Option<Repeat>,
}

/// A bit of a byte.
#[inline(always)]
pub(crate) fn bit(byte: u8, number: u8) -> bool
    requires { number < 8 }
    ensures { result ≡ bit byte number }
{
    (byte >> number) % 2 == 1
}

fn extension_of_rex(rex: u8) -> Extension
    ensures { result ≡ extension_of_rex rex }
{
    Extension {
        w: bit(rex, 3),
        r: bit(rex, 2),
        x: bit(rex, 1),
        b: bit(rex, 0),
    }
}

// The first byte has R, X and B inverted, the second W.
fn extension_of_vex(first: u8, second: u8) -> Extension
    ensures { result ≡ extension_of_vex first second }
{
    Extension {
        w: bit(second, 7),
        r: !bit(first, 7),
        x: !bit(first, 6),
        b: !bit(first, 5),
    }
}

// The map with a number of VEX or EVEX.
fn map_numbered(number: u8) -> Map
    ensures { result ≡ map_numbered number }
{
    match number {
        1 => Map::TwoByte,
        2 => Map::ThreeByte38,
        3 => Map::ThreeByte3A,
        5 => Map::Map5,
        6 => Map::Map6,
        _ => Map::Other,
    }
}

// The register in a byte of VEX or EVEX, which is inverted.
fn vvvv_of(byte: u8) -> u8
    ensures is { result ≡ vvvv_of byte }
    ensures few { result < 16 }
{
    15 - (byte >> 3) % 16
}

// F2 or F3 by the two lowest bits of a byte of VEX or EVEX.
fn repeat_of(byte: u8) -> Option<Repeat>
    ensures { result ≡ repeat_of byte }
{
    match byte % 4 {
        2 => Some(Repeat::F3),
        3 => Some(Repeat::F2),
        _ => None,
    }
}

// An opcode after 0F.
fn escaped(prefixes: Prefixes, code: &[u8], at: usize) -> Opcode
    requires { at + 2 < 2 ^ 64 }
    ensures is { result ≡ escaped prefixes code.now at }
    ensures some { 0 < result.size }
    ensures few { result.size ≤ 5 }
    ensures vvvv { result.vvvv < 16 }
{
    let second = byte_at(code, at + 1);
    let (map, byte, size) = match second {
        0x38 => (Map::ThreeByte38, byte_at(code, at + 2), 3),
        0x3a => (Map::ThreeByte3A, byte_at(code, at + 2), 3),
        _ => (Map::TwoByte, second, 2),
    };
    Opcode {
        encoding: Encoding::Legacy,
        map,
        byte,
        size,
        extension: extension_of_rex(prefixes.rex),
        vvvv: 0,
        repeat: prefixes.repeat,
    }
}

// An opcode after C5.
fn vex_of_two_bytes(code: &[u8], at: usize) -> Opcode
    requires { at + 2 < 2 ^ 64 }
    ensures is { result ≡ vex_of_two_bytes code.now at }
    ensures some { 0 < result.size }
    ensures few { result.size ≤ 5 }
    ensures vvvv { result.vvvv < 16 }
{
    let first = byte_at(code, at + 1);
    Opcode {
        encoding: Encoding::Vex,
        map: Map::TwoByte,
        byte: byte_at(code, at + 2),
        size: 3,
        extension: Extension {
            w: false,
            r: !bit(first, 7),
            x: false,
            b: false,
        },
        vvvv: vvvv_of(first),
        repeat: repeat_of(first),
    }
}

// An opcode after C4.
fn vex_of_three_bytes(code: &[u8], at: usize) -> Opcode
    requires { at + 3 < 2 ^ 64 }
    ensures is { result ≡ vex_of_three_bytes code.now at }
    ensures some { 0 < result.size }
    ensures few { result.size ≤ 5 }
    ensures vvvv { result.vvvv < 16 }
{
    let first = byte_at(code, at + 1);
    let second = byte_at(code, at + 2);
    Opcode {
        encoding: Encoding::Vex,
        map: map_numbered(first % 32),
        byte: byte_at(code, at + 3),
        size: 4,
        extension: extension_of_vex(first, second),
        vvvv: vvvv_of(second),
        repeat: repeat_of(second),
    }
}

// An opcode after 62.
fn evex(code: &[u8], at: usize) -> Opcode
    requires { at + 4 < 2 ^ 64 }
    ensures is { result ≡ evex code.now at }
    ensures some { 0 < result.size }
    ensures few { result.size ≤ 5 }
    ensures vvvv { result.vvvv < 16 }
{
    let first = byte_at(code, at + 1);
    let second = byte_at(code, at + 2);
    Opcode {
        encoding: Encoding::Evex,
        map: map_numbered(first % 16),
        byte: byte_at(code, at + 4),
        size: 5,
        extension: extension_of_vex(first, second),
        vvvv: vvvv_of(second),
        repeat: repeat_of(second),
    }
}

// An opcode of one byte.
fn one_byte(encoding: Encoding, prefixes: Prefixes, byte: u8) -> Opcode
    ensures { result ≡ one_byte encoding prefixes byte }
{
    Opcode {
        encoding,
        map: Map::OneByte,
        byte,
        size: 1,
        extension: extension_of_rex(prefixes.rex),
        vvvv: 0,
        repeat: prefixes.repeat,
    }
}

// Whether 8F begins AMD's XOP prefix, as its number of a map is no field of POP.
fn is_xop(code: &[u8], at: usize) -> bool
    requires { at + 1 < 2 ^ 64 }
    ensures { result ≡ is_xop code.now at }
{
    byte_at(code, at + 1) % 32 >= 8
}

impl Opcode {
    /// The opcode after prefixes.
    pub fn of(prefixes: Prefixes, code: &[u8]) -> Opcode
        requires { prefixes.count ≤ length code.now }
        ensures is { result ≡ opcode_of prefixes code.now }
        ensures some { 0 < result.size }
        ensures few { result.size ≤ 5 }
        ensures vvvv { result.vvvv < 16 }
    {
        let at = prefixes.count;
        match byte_at(code, at) {
            0x0f => escaped(prefixes, code, at),
            0xc5 => vex_of_two_bytes(code, at),
            0xc4 => vex_of_three_bytes(code, at),
            0x62 => evex(code, at),
            0x8f if is_xop(code, at) => one_byte(Encoding::Xop, prefixes, 0x8f),
            byte => one_byte(Encoding::Legacy, prefixes, byte),
        }
    }
}
