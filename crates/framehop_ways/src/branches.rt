//! Branches, calls and returns.
ghost use Rattle.std.specs.Prelude.{◌≡◌, ◌<◌, ◌≤◌, ◌^◌, ◌*◌};
ghost use Rattle.framehop_ways.specs.Branches.{distance, branch_if_of, is_return, register_branch_of, control_of};

use crate::instruction::Instruction;
use crate::word::{bits, rd, rn, signed};

// A distance in words, in bytes.
fn distance(field: u32, half: u32) -> i32
    requires field { field < 2 * half }
    requires half { half ≤ 2 ^ 25 }
    ensures { result ≡ distance field half }
{
    4 * signed(field, half)
}

// A branch that may be taken or not.
fn branch_if_of(word: u32) -> Option<Instruction>
    ensures { result ≡ branch_if_of word }
{
    if bits(word, 24, 8) == 0x54 || bits(word, 25, 6) == 0b01_1010 {
        let distance = distance(bits(word, 5, 19), 0x4_0000);
        return Some(Instruction::BranchIf { distance });
    }
    if bits(word, 25, 6) == 0b01_1011 {
        let distance = distance(bits(word, 5, 14), 0x2000);
        Some(Instruction::BranchIf { distance })
    } else {
        None
    }
}

// Whether a return is by x30.
fn is_return(word: u32) -> bool
    ensures { result ≡ is_return word }
{
    if bits(word, 10, 6) == 0 && rn(word) == 30 && rd(word) == 0 {
        return true;
    }
    bits(word, 11, 5) == 1 && bits(word, 0, 10) == 0x3ff
}

// What a branch to a register does.
fn register_branch_of(word: u32) -> Instruction
    ensures { result ≡ register_branch_of word }
{
    if bits(word, 16, 5) != 31 || bits(word, 12, 4) != 0 {
        return Instruction::Unknown;
    }
    match bits(word, 21, 3) {
        0 => return Instruction::BranchAway,
        1 => return Instruction::Call,
        _ => {}
    }
    if bits(word, 21, 4) == 2 && is_return(word) {
        Instruction::Return
    } else {
        Instruction::Unknown
    }
}

/// The branch, call or return that a word spells.
pub fn control_of(word: u32) -> Option<Instruction>
    ensures { result ≡ control_of word }
{
    match bits(word, 26, 6) {
        0b00_0101 => {
            let distance = distance(bits(word, 0, 26), 0x200_0000);
            return Some(Instruction::Branch { distance });
        }
        0b10_0101 => return Some(Instruction::Call),
        _ => {}
    }
    if bits(word, 25, 7) == 0x6b {
        Some(register_branch_of(word))
    } else {
        branch_if_of(word)
    }
}
