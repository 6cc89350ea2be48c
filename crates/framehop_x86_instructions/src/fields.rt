//! The fields of an instruction that name registers.
ghost use Rattle.std.specs.Prelude.{◌≡◌, ◌<◌};
ghost use Rattle.framehop_x86_instructions.specs.Fields.{AreNumbers, extended, is_f3, fields_of};
ghost use Rattle.framehop_x86_instructions.specs.ModRm.{AreFields};

use crate::layout::Layout;
use crate::prefixes::Repeat;

/// The fields of an instruction that name registers, by their numbers.
#[derive(Clone, Copy, Debug, PartialEq, Eq)]
pub struct Fields {
    /// the operand of rm is a register
    pub is_register: bool,
    /// reg alone, which tells the instructions of a group
    pub digit: u8,
    pub reg: u8,
    pub rm: u8,
    /// the one in the opcode
    pub opcode: u8,
    pub vvvv: u8,
    /// the opcode is even, so that operands have one byte in instructions that have both
    pub is_narrow: bool,
    pub has_rex: bool,
    /// F3, also in a VEX or EVEX prefix
    pub has_f3: bool,
}

/// A number of three bits with a fourth.
pub(crate) fn extended(bit: bool, number: u8) -> u8
    requires { number < 8 }
    ensures is { result ≡ extended bit number }
    ensures few { result < 16 }
{
    if bit { number + 8 } else { number }
}

// Whether a repeat prefix is F3.
fn is_f3(repeat: Option<Repeat>) -> bool
    ensures { result ≡ is_f3 repeat }
{
    matches!(repeat, Some(Repeat::F3))
}

impl Fields {
    /// The fields of an instruction with some parts.
    pub fn of(layout: Layout) -> Fields
        requires fields { AreFields layout.modrm }
        requires vvvv { layout.opcode.vvvv < 16 }
        ensures is { result ≡ fields_of layout }
        ensures numbers { AreNumbers result }
    {
        let opcode = layout.opcode;
        Fields {
            is_register: layout.modrm.mode == 3,
            digit: layout.modrm.reg,
            reg: extended(opcode.extension.r, layout.modrm.reg),
            rm: extended(opcode.extension.b, layout.modrm.rm),
            opcode: extended(opcode.extension.b, opcode.byte % 8),
            vvvv: opcode.vvvv,
            is_narrow: opcode.byte % 2 == 0,
            has_rex: layout.prefixes.rex != 0,
            has_f3: is_f3(opcode.repeat),
        }
    }
}
