//! What stands behind an opcode.
ghost use Rattle.std.specs.Prelude.{◌≡◌, ◌<◌, ◌≤◌};
ghost use Rattle.framehop_x86_instructions.specs.Operands.{has_modrm, sized, whole, if_test, immediate_size, is_of_two_lengths, operands_of_legacy, operands_of_vector, is_barred, operands_of};

use crate::maps::{one_byte_map, two_byte_map, vector_map};
use crate::opcode::{Encoding, Map, Opcode};
use crate::prefixes::Prefixes;

/// What stands behind an opcode (Intel SDM, volume 2, A.2).
#[derive(Clone, Copy, Debug, PartialEq, Eq)]
pub enum Operands {
    /// no instruction of 64-bit mode has the opcode
    Undefined,
    Nothing,
    /// a number of one byte, Ib or Jb
    Byte,
    /// a number of two bytes, Iw
    Word,
    /// a number of two bytes and one of one byte, Iw and Ib
    WordAndByte,
    /// a number of two or four bytes, Iz
    Sized,
    /// a number as long as the register, Iv
    Whole,
    /// an address, Ob or Ov
    Address,
    /// a distance of four bytes, Jz
    Distance,
    /// a ModRM byte with what belongs to it
    ModRm,
    /// the same and Ib
    ModRmByte,
    /// the same and Iz
    ModRmSized,
    /// the same and, for TEST alone, Ib
    ModRmTestByte,
    /// the same and, for TEST alone, Iz
    ModRmTestSized,
}

/// Whether there is a ModRM byte.
pub(crate) fn has_modrm(operands: Operands) -> bool
    ensures { result ≡ has_modrm operands }
{
    matches!(
        operands,
        Operands::ModRm
            | Operands::ModRmByte
            | Operands::ModRmSized
            | Operands::ModRmTestByte
            | Operands::ModRmTestSized
    )
}

// How long Iz is.
fn sized(prefixes: Prefixes, opcode: Opcode) -> usize
    ensures is { result ≡ sized prefixes opcode }
    ensures few { result ≤ 4 }
{
    if prefixes.operand_size && !opcode.extension.w {
        2
    } else {
        4
    }
}

// How long Iv is.
fn whole(prefixes: Prefixes, opcode: Opcode) -> usize
    ensures is { result ≡ whole prefixes opcode }
    ensures few { result ≤ 8 }
{
    if opcode.extension.w {
        8
    } else {
        sized(prefixes, opcode)
    }
}

// How many bytes the number of group 3 has, if it has that many in TEST.
fn if_test(reg: u8, size: usize) -> usize
    ensures is { result ≡ if_test reg size }
    ensures few { result ≤ size }
{
    if reg < 2 { size } else { 0 }
}

/// How many bytes of numbers there are, where `reg` is that field of the ModRM byte.
pub(crate) fn immediate_size(
    operands: Operands,
    prefixes: Prefixes,
    opcode: Opcode,
    reg: u8,
) -> usize
    ensures is { result ≡ immediate_size operands prefixes opcode reg }
    ensures few { result ≤ 8 }
{
    match operands {
        Operands::Undefined | Operands::Nothing | Operands::ModRm => 0,
        Operands::Byte | Operands::ModRmByte => 1,
        Operands::Word => 2,
        Operands::WordAndByte => 3,
        Operands::Sized | Operands::ModRmSized => sized(prefixes, opcode),
        Operands::Whole => whole(prefixes, opcode),
        Operands::Address => { if prefixes.address_size { 4 } else { 8 } }
        Operands::Distance => 4,
        Operands::ModRmTestByte => if_test(reg, 1),
        Operands::ModRmTestSized => if_test(reg, sized(prefixes, opcode)),
    }
}

// Whether Intel's and AMD's processors read other lengths: of near branches with operands of two bytes.
fn is_of_two_lengths(operands: Operands, prefixes: Prefixes, opcode: Opcode) -> bool
    ensures { result ≡ is_of_two_lengths operands prefixes opcode }
{
    matches!(operands, Operands::Distance) && prefixes.operand_size && !opcode.extension.w
}

// What stands behind an opcode of the maps that REX prefixes and escapes reach.
fn operands_of_legacy(opcode: Opcode) -> Operands
    ensures { result ≡ operands_of_legacy opcode.map opcode.byte }
{
    match opcode.map {
        Map::OneByte => one_byte_map(opcode.byte),
        Map::TwoByte => two_byte_map(opcode.byte),
        Map::ThreeByte38 => Operands::ModRm,
        Map::ThreeByte3A => Operands::ModRmByte,
        Map::Map5 | Map::Map6 | Map::Other => Operands::Undefined,
    }
}

// What stands behind an opcode with a VEX or EVEX prefix.
fn operands_of_vector(opcode: Opcode) -> Operands
    ensures { result ≡ operands_of_vector opcode.encoding opcode.map opcode.byte }
{
    match (opcode.encoding, opcode.map) {
        (Encoding::Vex, Map::TwoByte) if opcode.byte == 0x77 => Operands::Nothing,
        (_, Map::TwoByte) => vector_map(opcode.byte),
        (_, Map::ThreeByte38) => Operands::ModRm,
        (_, Map::ThreeByte3A) => Operands::ModRmByte,
        (Encoding::Evex, Map::Map5 | Map::Map6) => Operands::ModRm,
        _ => Operands::Undefined,
    }
}

// Whether a prefix stands there that may not stand before VEX and EVEX.
fn is_barred(prefixes: Prefixes) -> bool
    ensures { result ≡ is_barred prefixes }
{
    prefixes.operand_size || prefixes.lock || prefixes.repeat.is_some() || prefixes.rex != 0
}

/// What stands behind an opcode.
pub(crate) fn operands_of(prefixes: Prefixes, opcode: Opcode) -> Operands
    ensures { result ≡ operands_of prefixes opcode }
{
    match opcode.encoding {
        Encoding::Legacy => {
            let operands = operands_of_legacy(opcode);
            if is_of_two_lengths(operands, prefixes, opcode) {
                Operands::Undefined
            } else {
                operands
            }
        }
        Encoding::Vex | Encoding::Evex => {
            if is_barred(prefixes) {
                Operands::Undefined
            } else {
                operands_of_vector(opcode)
            }
        }
        Encoding::Xop => Operands::Undefined,
    }
}
