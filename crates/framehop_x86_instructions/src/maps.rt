//! The maps of opcodes, in rows by the first digit and columns by the second (Intel SDM, volume 2, A.3).
ghost use Rattle.std.specs.Prelude.{◌≡◌};
ghost use Rattle.framehop_x86_instructions.specs.OpcodeMaps.{one_byte_map, two_byte_map, vector_map};

use crate::operands::Operands;

const XX: Operands = Operands::Undefined;

const NO: Operands = Operands::Nothing;

const IB: Operands = Operands::Byte;

const IW: Operands = Operands::Word;

const EN: Operands = Operands::WordAndByte;

const IZ: Operands = Operands::Sized;

const IV: Operands = Operands::Whole;

const OV: Operands = Operands::Address;

const JZ: Operands = Operands::Distance;

const RM: Operands = Operands::ModRm;

const RB: Operands = Operands::ModRmByte;

const RZ: Operands = Operands::ModRmSized;

const TB: Operands = Operands::ModRmTestByte;

const TZ: Operands = Operands::ModRmTestSized;

// Opcodes of one byte (table A-2), in 64-bit mode.
#[rattlefmt::skip]
static ONE_BYTE: [Operands; 256] = [
    // 0   1   2   3   4   5   6   7   8   9   a   b   c   d   e   f
       RM, RM, RM, RM, IB, IZ, XX, XX, RM, RM, RM, RM, IB, IZ, XX, XX,
       RM, RM, RM, RM, IB, IZ, XX, XX, RM, RM, RM, RM, IB, IZ, XX, XX,
       RM, RM, RM, RM, IB, IZ, XX, XX, RM, RM, RM, RM, IB, IZ, XX, XX,
       RM, RM, RM, RM, IB, IZ, XX, XX, RM, RM, RM, RM, IB, IZ, XX, XX,
       XX, XX, XX, XX, XX, XX, XX, XX, XX, XX, XX, XX, XX, XX, XX, XX,
       NO, NO, NO, NO, NO, NO, NO, NO, NO, NO, NO, NO, NO, NO, NO, NO,
       XX, XX, XX, RM, XX, XX, XX, XX, IZ, RZ, IB, RB, NO, NO, NO, NO,
       IB, IB, IB, IB, IB, IB, IB, IB, IB, IB, IB, IB, IB, IB, IB, IB,
       RB, RZ, XX, RB, RM, RM, RM, RM, RM, RM, RM, RM, RM, RM, RM, RM,
       NO, NO, NO, NO, NO, NO, NO, NO, NO, NO, XX, NO, NO, NO, NO, NO,
       OV, OV, OV, OV, NO, NO, NO, NO, IB, IZ, NO, NO, NO, NO, NO, NO,
       IB, IB, IB, IB, IB, IB, IB, IB, IV, IV, IV, IV, IV, IV, IV, IV,
       RB, RB, IW, NO, XX, XX, RB, RZ, EN, NO, IW, NO, NO, IB, XX, NO,
       RM, RM, RM, RM, XX, XX, XX, NO, RM, RM, RM, RM, RM, RM, RM, RM,
       IB, IB, IB, IB, IB, IB, IB, IB, JZ, JZ, XX, IB, NO, NO, NO, NO,
       XX, NO, XX, XX, NO, NO, TB, TZ, NO, NO, NO, NO, NO, NO, RM, RM,
];

// Opcodes after 0F (table A-3).
#[rattlefmt::skip]
static TWO_BYTE: [Operands; 256] = [
    // 0   1   2   3   4   5   6   7   8   9   a   b   c   d   e   f
       RM, RM, RM, RM, XX, NO, NO, NO, NO, NO, XX, NO, XX, RM, XX, XX,
       RM, RM, RM, RM, RM, RM, RM, RM, RM, RM, RM, RM, RM, RM, RM, RM,
       XX, XX, XX, XX, XX, XX, XX, XX, RM, RM, RM, RM, RM, RM, RM, RM,
       NO, NO, NO, NO, NO, NO, XX, NO, XX, XX, XX, XX, XX, XX, XX, XX,
       RM, RM, RM, RM, RM, RM, RM, RM, RM, RM, RM, RM, RM, RM, RM, RM,
       RM, RM, RM, RM, RM, RM, RM, RM, RM, RM, RM, RM, RM, RM, RM, RM,
       RM, RM, RM, RM, RM, RM, RM, RM, RM, RM, RM, RM, RM, RM, RM, RM,
       RB, RB, RB, RB, RM, RM, RM, NO, XX, RM, XX, XX, RM, RM, RM, RM,
       JZ, JZ, JZ, JZ, JZ, JZ, JZ, JZ, JZ, JZ, JZ, JZ, JZ, JZ, JZ, JZ,
       RM, RM, RM, RM, RM, RM, RM, RM, RM, RM, RM, RM, RM, RM, RM, RM,
       NO, NO, NO, RM, RB, RM, XX, XX, NO, NO, NO, RM, RB, RM, RM, RM,
       RM, RM, RM, RM, RM, RM, RM, RM, RM, RM, RB, RM, RM, RM, RM, RM,
       RM, RM, RB, RM, RB, RB, RB, RM, NO, NO, NO, NO, NO, NO, NO, NO,
       RM, RM, RM, RM, RM, RM, RM, RM, RM, RM, RM, RM, RM, RM, RM, RM,
       RM, RM, RM, RM, RM, RM, RM, RM, RM, RM, RM, RM, RM, RM, RM, RM,
       RM, RM, RM, RM, RM, RM, RM, RM, RM, RM, RM, RM, RM, RM, RM, RM,
];

/// What stands behind an opcode of one byte.
pub(crate) fn one_byte_map(opcode: u8) -> Operands
    ensures { result ≡ one_byte_map opcode }
{
    ONE_BYTE[usize::from(opcode)]
}

/// What stands behind an opcode after 0F.
pub(crate) fn two_byte_map(opcode: u8) -> Operands
    ensures { result ≡ two_byte_map opcode }
{
    TWO_BYTE[usize::from(opcode)]
}

/// What stands behind an opcode of the same map with a VEX or EVEX prefix.
pub(crate) fn vector_map(opcode: u8) -> Operands
    ensures { result ≡ vector_map opcode }
{
    match opcode {
        0x70..=0x73 | 0xc2 | 0xc4..=0xc6 => Operands::ModRmByte,
        _ => Operands::ModRm,
    }
}
