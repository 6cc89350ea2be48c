//! The instruction of a word.
ghost use Rattle.std.specs.Prelude.{◌≡◌};
ghost use Rattle.framehop_ways.specs.Decoding.{plain_of, instruction_of};
ghost use Rattle.framehop_ways.specs.PlainWords.{lost_by_plain};

use crate::accesses::access_of;
use crate::branches::control_of;
use crate::instruction::Instruction;
use crate::moves::{is_signing_hint, is_signing_of_lr, move_of};
use crate::plain::lost_by_plain;

// What neither branches nor does something known to the stack pointer, x29 or x30.
fn plain_of(word: u32) -> Instruction
    ensures { result ≡ plain_of (lost_by_plain word) }
{
    match lost_by_plain(word) {
        Some(lost) => Instruction::Plain(lost),
        None => Instruction::Unknown,
    }
}

/// What a word of code does.
pub fn decode(word: u32) -> Instruction
    ensures { result ≡ instruction_of word }
{
    if let Some(control) = control_of(word) {
        return control;
    }
    if let Some(access) = access_of(word) {
        return access;
    }
    if let Some(moved) = move_of(word) {
        return moved;
    }
    if is_signing_hint(word) || is_signing_of_lr(word) {
        Instruction::Sign
    } else {
        plain_of(word)
    }
}
