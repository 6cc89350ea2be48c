//! Where the parts of an instruction are.
ghost use Rattle.std.specs.Prelude.{◌≡◌, ◌≤◌, ◌<◌, ◌+◌, ◌^◌, length};
ghost use Rattle.framehop_x86_instructions.specs.Layouts.{AreSizes, modrm_in, addressing_in, layout_of};
ghost use Rattle.framehop_x86_instructions.specs.ModRm.{AreFields};

use crate::bytes::byte_at;
use crate::modrm::{ModRm, addressing_size};
use crate::opcode::Opcode;
use crate::operands::{Operands, has_modrm, immediate_size, operands_of};
use crate::prefixes::Prefixes;

/// The parts of an instruction, which follow each other: prefixes, opcode, addressing form, numbers.
#[derive(Clone, Copy, Debug, PartialEq, Eq)]
pub struct Layout {
    pub prefixes: Prefixes,
    pub opcode: Opcode,
    pub operands: Operands,
    /// of 0 if there is none
    pub modrm: ModRm,
    /// how many bytes the ModRM byte has with its SIB byte and displacement, 0 if there is none
    pub addressing: usize,
    /// how many bytes the numbers have behind it
    pub immediate: usize,
}

// The ModRM byte at a place, if operands have one, and else that of 0.
fn modrm_in(operands: Operands, code: &[u8], at: usize) -> ModRm
    ensures is { result ≡ modrm_in operands code.now at }
    ensures fields { AreFields result }
{
    let byte = if has_modrm(operands) {
        byte_at(code, at)
    } else {
        0
    };
    ModRm::of(byte)
}

// How many bytes a ModRM byte at a place has with what belongs to it, if operands have one.
fn addressing_in(operands: Operands, modrm: ModRm, code: &[u8], at: usize) -> usize
    requires { at + 1 < 2 ^ 64 }
    ensures is { result ≡ addressing_in operands modrm code.now at }
    ensures few { result ≤ 6 }
{
    if has_modrm(operands) {
        addressing_size(modrm, code, at + 1)
    } else {
        0
    }
}

impl Layout {
    /// The parts of the instruction that code begins with, where bytes that are missing are 0.
    #[tactic(auto, unfolding(crate::specs::Layouts::layout_of))]
    pub fn of(code: &[u8]) -> Layout
        ensures is { result ≡ layout_of code.now }
        ensures within { result.prefixes.count ≤ length code.now }
        ensures sizes { AreSizes result }
        ensures fields { AreFields result.modrm }
        ensures vvvv { result.opcode.vvvv < 16 }
    {
        let prefixes = Prefixes::of(code);
        let opcode = Opcode::of(prefixes, code);
        let operands = operands_of(prefixes, opcode);
        let at = prefixes.count + opcode.size;
        let modrm = modrm_in(operands, code, at);
        Layout {
            prefixes,
            opcode,
            operands,
            modrm,
            addressing: addressing_in(operands, modrm, code, at),
            immediate: immediate_size(operands, prefixes, opcode, modrm.reg),
        }
    }
}
