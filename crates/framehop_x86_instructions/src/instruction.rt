//! Instructions.
ghost use Rattle.std.specs.Prelude.{◌≡◌, ◌<◌, ◌≤◌, length, IfOk};
ghost use Rattle.framehop_x86_instructions.specs.Instructions.{missing, refusal, instruction_in, instruction_of};

use crate::bytes::{MOST, first_bytes};
use crate::effect::{Effect, effect_of};
use crate::layout::Layout;
use crate::opcode::Encoding;
use crate::operands::Operands;

/// An instruction.
#[derive(Clone, Copy, Debug, PartialEq, Eq)]
pub struct Instruction {
    /// in bytes, from 1 to 15
    pub length: usize,
    pub effect: Effect,
}

/// Why code begins with no instruction.
#[derive(Clone, Copy, Debug, PartialEq, Eq)]
pub enum DecodeError {
    /// the code ends within the instruction
    Truncated,
    /// more than 15 bytes
    TooLong,
    /// no instruction has the opcode, or processors read it in two ways
    Undefined,
    /// an instruction of AMD's with an XOP prefix
    Xop,
}

// The error where a byte is missing.
fn missing(code: &[u8]) -> DecodeError
    ensures { result ≡ missing code.now }
{
    if code.len() < MOST {
        DecodeError::Truncated
    } else {
        DecodeError::TooLong
    }
}

// Why the parts are no instruction.
fn refusal(layout: Layout) -> Option<DecodeError>
    ensures { result ≡ refusal layout }
{
    match (layout.opcode.encoding, layout.operands) {
        (Encoding::Xop, _) => Some(DecodeError::Xop),
        (_, Operands::Undefined) => Some(DecodeError::Undefined),
        _ => None,
    }
}

// The instruction that the bytes begin with which one can have.
fn instruction_in(code: &[u8]) -> Result<Instruction, DecodeError>
    ensures is { result ≡ instruction_in code.now }
    ensures some { IfOk result (λ found. 0 < found.length) }
    ensures within { IfOk result (λ found. found.length ≤ length code.now) }
{
    let layout = Layout::of(code);
    let opcode_end = layout.prefixes.count + layout.opcode.size;
    if code.len() < opcode_end {
        return Err(missing(code));
    }
    if let Some(error) = refusal(layout) {
        return Err(error);
    }
    let length = opcode_end + layout.addressing + layout.immediate;
    if code.len() < length {
        Err(missing(code))
    } else {
        Ok(Instruction {
            length,
            effect: effect_of(&code[..length], layout),
        })
    }
}

impl Instruction {
    /// The instruction that code begins with.
    pub fn decode(code: &[u8]) -> Result<Instruction, DecodeError>
        ensures is { result ≡ instruction_of code.now }
        ensures some { IfOk result (λ found. 0 < found.length) }
        ensures few { IfOk result (λ found. found.length ≤ 15) }
        ensures within { IfOk result (λ found. found.length ≤ length code.now) }
    {
        instruction_in(first_bytes(code))
    }
}
