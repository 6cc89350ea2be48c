//! Which general registers an instruction may write, by its opcode.
ghost use Rattle.std.specs.Prelude.{◌≡◌, ◌<◌};
ghost use Rattle.framehop_x86_instructions.specs.WrittenMaps.{one_byte_written, two_byte_written};
ghost use Rattle.framehop_x86_instructions.specs.WrittenOpcodes.{rorx, written_of_38, written_of_3a, written_of_vector, written_of_map_5, writes_of};

use crate::opcode::{Encoding, Map, Opcode};
use crate::registers::Registers;

/// Which general registers an instruction may write. The register in its opcode, and those that its fields reg and rm name, the latter if
/// it isn't memory; a narrow one has one byte if the opcode is even.
#[derive(Clone, Copy, Debug, PartialEq, Eq)]
pub enum Writes {
    /// any, or it doesn't go on at the next instruction
    Unknown,
    /// these, whatever its fields are
    These(Registers),
    Reg,
    Rm,
    /// Rm, but with F3 none
    RmUnlessF3,
    NarrowReg,
    NarrowRm,
    /// both
    NarrowBoth,
    /// of one byte
    ByteRm,
    Opcode,
    /// of one byte
    ByteOpcode,
    OpcodeAndRax,
    NarrowRmAndRax,
    RmRaxAndRdx,
    /// vvvv of a VEX prefix
    Vvvv,
    RegAndVvvv,
    /// the immediate group, in which CMP writes none
    Group1,
    /// the unary group, in which TEST writes none, and products and quotients are in RDX and RAX
    Group3,
    /// INC and DEC
    Group4,
    /// MOV, and no other
    Group11,
    /// of system instructions, which write none if the operand is memory
    Group7,
}

const XX: Writes = Writes::Unknown;

const NO: Writes = Writes::These(Registers { bits: 0 });

const RG: Writes = Writes::Reg;

const RM: Writes = Writes::Rm;

const R3: Writes = Writes::RmUnlessF3;

const NG: Writes = Writes::NarrowReg;

const NM: Writes = Writes::NarrowRm;

const NB: Writes = Writes::NarrowBoth;

const BM: Writes = Writes::ByteRm;

const OP: Writes = Writes::Opcode;

const BO: Writes = Writes::ByteOpcode;

const OA: Writes = Writes::OpcodeAndRax;

const CM: Writes = Writes::NarrowRmAndRax;

const C8: Writes = Writes::RmRaxAndRdx;

const G1: Writes = Writes::Group1;

const G3: Writes = Writes::Group3;

const G4: Writes = Writes::Group4;

const GB: Writes = Writes::Group11;

const G7: Writes = Writes::Group7;

const AX: Writes = Writes::These(Registers { bits: 0x1 });

const CX: Writes = Writes::These(Registers { bits: 0x2 });

const DX: Writes = Writes::These(Registers { bits: 0x4 });

const DI: Writes = Writes::These(Registers { bits: 0x82 });

const SI: Writes = Writes::These(Registers { bits: 0x42 });

const SD: Writes = Writes::These(Registers { bits: 0xc2 });

const AS: Writes = Writes::These(Registers { bits: 0x43 });

const SC: Writes = Writes::These(Registers { bits: 0x803 });

const AD: Writes = Writes::These(Registers { bits: 0x5 });

const ID: Writes = Writes::These(Registers { bits: 0xf });

// Opcodes of one byte, in rows by the first digit. Those of pushes, pops and jumps are of no use here.
#[rattlefmt::skip]
static ONE_BYTE_WRITTEN: [Writes; 256] = [
    // 0   1   2   3   4   5   6   7   8   9   a   b   c   d   e   f
       NM, NM, NG, NG, AX, AX, XX, XX, NM, NM, NG, NG, AX, AX, XX, XX,
       NM, NM, NG, NG, AX, AX, XX, XX, NM, NM, NG, NG, AX, AX, XX, XX,
       NM, NM, NG, NG, AX, AX, XX, XX, NM, NM, NG, NG, AX, AX, XX, XX,
       NM, NM, NG, NG, AX, AX, XX, XX, NO, NO, NO, NO, NO, NO, XX, XX,
       XX, XX, XX, XX, XX, XX, XX, XX, XX, XX, XX, XX, XX, XX, XX, XX,
       XX, XX, XX, XX, XX, XX, XX, XX, XX, XX, XX, XX, XX, XX, XX, XX,
       XX, XX, XX, RG, XX, XX, XX, XX, XX, RG, XX, RG, DI, DI, SI, SI,
       XX, XX, XX, XX, XX, XX, XX, XX, XX, XX, XX, XX, XX, XX, XX, XX,
       G1, G1, G1, G1, NO, NO, NB, NB, NM, NM, NG, NG, RM, RG, NO, XX,
       OA, OA, OA, OA, OA, OA, OA, OA, AX, DX, XX, NO, XX, XX, NO, AX,
       AX, AX, NO, NO, SD, SD, SD, SD, NO, NO, DI, DI, AS, AS, DI, DI,
       BO, BO, BO, BO, BO, BO, BO, BO, OP, OP, OP, OP, OP, OP, OP, OP,
       NM, NM, XX, XX, XX, XX, GB, GB, XX, XX, XX, XX, XX, XX, XX, XX,
       NM, NM, NM, NM, XX, XX, XX, AX, NO, NO, NO, NO, NO, NO, NO, AX,
       XX, XX, XX, XX, AX, AX, NO, NO, XX, XX, XX, XX, AX, AX, NO, NO,
       XX, XX, XX, XX, XX, NO, G3, G3, NO, NO, NO, NO, NO, NO, G4, G4,
];

// Opcodes after 0F.
#[rattlefmt::skip]
static TWO_BYTE_WRITTEN: [Writes; 256] = [
    // 0   1   2   3   4   5   6   7   8   9   a   b   c   d   e   f
       RM, G7, RG, RG, XX, SC, XX, XX, XX, XX, XX, XX, XX, NO, XX, XX,
       NO, NO, NO, NO, NO, NO, NO, NO, NO, NO, NO, NO, NO, NO, RM, NO,
       XX, XX, XX, XX, XX, XX, XX, XX, NO, NO, NO, NO, RG, RG, NO, NO,
       NO, AD, AD, AD, XX, XX, XX, XX, XX, XX, XX, XX, XX, XX, XX, XX,
       RG, RG, RG, RG, RG, RG, RG, RG, RG, RG, RG, RG, RG, RG, RG, RG,
       RG, NO, NO, NO, NO, NO, NO, NO, NO, NO, NO, NO, NO, NO, NO, NO,
       NO, NO, NO, NO, NO, NO, NO, NO, NO, NO, NO, NO, NO, NO, NO, NO,
       NO, NO, NO, NO, NO, NO, NO, NO, XX, NO, XX, XX, NO, NO, R3, NO,
       XX, XX, XX, XX, XX, XX, XX, XX, XX, XX, XX, XX, XX, XX, XX, XX,
       BM, BM, BM, BM, BM, BM, BM, BM, BM, BM, BM, BM, BM, BM, BM, BM,
       XX, XX, ID, NO, RM, RM, XX, XX, XX, XX, XX, RM, RM, RM, RM, RG,
       CM, CM, RG, RM, RG, RG, RG, RG, RG, XX, RM, RM, RG, RG, RG, RG,
       NB, NB, NO, NO, NO, RG, NO, C8, OP, OP, OP, OP, OP, OP, OP, OP,
       NO, NO, NO, NO, NO, NO, NO, RG, NO, NO, NO, NO, NO, NO, NO, NO,
       NO, NO, NO, NO, NO, NO, NO, NO, NO, NO, NO, NO, NO, NO, NO, NO,
       NO, NO, NO, NO, NO, NO, NO, NO, NO, NO, NO, NO, NO, NO, NO, XX,
];

// What an opcode of one byte writes.
fn one_byte_written(opcode: u8) -> Writes
    ensures { result ≡ one_byte_written opcode }
{
    ONE_BYTE_WRITTEN[usize::from(opcode)]
}

// What an opcode after 0F writes.
fn two_byte_written(opcode: u8) -> Writes
    ensures { result ≡ two_byte_written opcode }
{
    TWO_BYTE_WRITTEN[usize::from(opcode)]
}

// What an opcode after 0F 38 writes, with a VEX or EVEX prefix or without one.
fn written_of_38(encoding: Encoding, opcode: u8) -> Writes
    ensures { result ≡ written_of_38 encoding opcode }
{
    match (encoding, opcode) {
        (Encoding::Legacy, 0xf0 | 0xf1 | 0xf6 | 0xfa | 0xfb) => Writes::Reg,
        (Encoding::Legacy, _) => NO,
        (_, 0xe0..=0xef | 0xf2 | 0xf5 | 0xf7) => Writes::Reg,
        (_, 0xf3) => Writes::Vvvv,
        (_, 0xf6) => Writes::RegAndVvvv,
        _ => NO,
    }
}

// What RORX writes, which there is with a prefix alone.
fn rorx(encoding: Encoding, opcode: u8) -> Writes
    ensures { result ≡ rorx encoding opcode }
{
    match (encoding, opcode) {
        (Encoding::Legacy, _) => NO,
        (_, 0xf0) => Writes::Reg,
        _ => NO,
    }
}

// What an opcode after 0F 3A writes, with a VEX or EVEX prefix or without one.
fn written_of_3a(encoding: Encoding, opcode: u8) -> Writes
    ensures { result ≡ written_of_3a encoding opcode }
{
    match opcode {
        0x14..=0x17 => Writes::Rm,
        0x60..=0x63 => CX,
        _ => rorx(encoding, opcode),
    }
}

// What an opcode of the map of 0F writes with a VEX or EVEX prefix.
fn written_of_vector(opcode: u8) -> Writes
    ensures { result ≡ written_of_vector opcode }
{
    match opcode {
        0x2c | 0x2d | 0x50 | 0x78 | 0x79 | 0x93 | 0xc5 | 0xd7 => Writes::Reg,
        0x7e => Writes::RmUnlessF3,
        _ => NO,
    }
}

// What an opcode of map 5 writes.
fn written_of_map_5(opcode: u8) -> Writes
    ensures { result ≡ written_of_map_5 opcode }
{
    match opcode {
        0x2c | 0x2d | 0x6c | 0x6d | 0x78 | 0x79 => Writes::Reg,
        0x7e => Writes::Rm,
        _ => NO,
    }
}

/// What an opcode writes.
pub(crate) fn writes_of(opcode: Opcode) -> Writes
    ensures { result ≡ writes_of opcode.encoding opcode.map opcode.byte }
{
    match (opcode.encoding, opcode.map) {
        (Encoding::Legacy, Map::OneByte) => one_byte_written(opcode.byte),
        (Encoding::Legacy, Map::TwoByte) => two_byte_written(opcode.byte),
        (_, Map::TwoByte) => written_of_vector(opcode.byte),
        (encoding, Map::ThreeByte38) => written_of_38(encoding, opcode.byte),
        (encoding, Map::ThreeByte3A) => written_of_3a(encoding, opcode.byte),
        (_, Map::Map5) => written_of_map_5(opcode.byte),
        (_, Map::Map6) => NO,
        _ => Writes::Unknown,
    }
}
