//! Moves of the stack pointer and the frame pointer by a number, and what signs the return address.
ghost use Rattle.std.specs.Prelude.{◌≡◌, ◌<◌, ◌^◌};
ghost use Rattle.framehop_ways.specs.Moves.{is_addition, immediate, added, move_of, is_signing_hint, is_signing_of_lr};

use crate::accesses::base_of;
use crate::instruction::Instruction;
use crate::word::{bits, rd, rn};

fn is_addition(word: u32) -> bool
    ensures { result ≡ is_addition word }
{
    bits(word, 31, 1) == 1 && bits(word, 23, 7) == 0b010_0010
}

// The number that is added or subtracted.
fn immediate(word: u32) -> u32
    ensures is { result ≡ immediate word }
    ensures few { result < 2 ^ 24 }
{
    let number = bits(word, 10, 12);
    if bits(word, 22, 1) == 1 {
        number * 4096
    } else {
        number
    }
}

// The same with its sign.
fn added(word: u32) -> i32
    ensures { result ≡ added word }
{
    let number = immediate(word) as i32;
    if bits(word, 30, 1) == 1 {
        0 - number
    } else {
        number
    }
}

/// The addition of a number to the stack pointer or x29 that a word spells, if it writes one of these.
pub fn move_of(word: u32) -> Option<Instruction>
    ensures { result ≡ move_of word }
{
    if !is_addition(word) {
        return None;
    }
    let to = base_of(rd(word))?;
    let from = base_of(rn(word))?;
    Some(Instruction::Move {
        to,
        from,
        bytes: added(word),
    })
}

/// Whether this is a hint that signs, authenticates or strips x30.
pub fn is_signing_hint(word: u32) -> bool
    ensures { result ≡ is_signing_hint word }
{
    if bits(word, 12, 20) != 0xd_5032 || rd(word) != 31 {
        return false;
    }
    bits(word, 5, 7) == 7 || bits(word, 8, 4) == 3
}

/// Whether this signs or authenticates x30 by another register.
pub fn is_signing_of_lr(word: u32) -> bool
    ensures { result ≡ is_signing_of_lr word }
{
    if bits(word, 16, 16) != 0xdac1 || bits(word, 13, 3) != 0 {
        return false;
    }
    bits(word, 11, 1) == 0 && rd(word) == 30
}
