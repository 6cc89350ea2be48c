//! Words that do nothing but compute, load, store and write registers, and what they lose of the three.
ghost use Rattle.std.specs.Prelude.{◌≡◌};
ghost use Rattle.framehop_ways.specs.PlainWords.{lost_if, lost_by_rd, lost_by_rd_or_sp, lost_by_base, immediate_writes_sp, lost_by_immediate, register_writes_sp, lost_by_register, lost_by_system, is_compare_and_swap_pair, lost_by_exclusive, lost_by_structure, lost_by_first_accesses, lost_by_literal, loads_general_pair, lost_by_pair, lost_by_atomic, lost_by_authenticated, loads_general_register, is_indexed, lost_by_one, is_of_other_form, lost_by_last_accesses, lost_by_access, lost_by_plain};

use crate::instruction::Lost;
use crate::word::{bits, rd, rn, rt2};

// What is lost if a test holds.
fn lost_if(test: bool, lost: Lost) -> Lost
    ensures { result ≡ lost_if test lost }
{
    if test { lost } else { Lost::NOTHING }
}

// Whether Rd is the stack pointer for 31 in data processing with an immediate.
fn immediate_writes_sp(word: u32) -> bool
    ensures { result ≡ immediate_writes_sp word }
{
    if bits(word, 24, 5) == 0b10001 {
        return bits(word, 29, 1) == 0;
    }
    bits(word, 23, 6) == 0b10_0100 && bits(word, 29, 2) != 3
}

fn lost_by_immediate(word: u32) -> Lost
    ensures { result ≡ lost_by_immediate word }
{
    if immediate_writes_sp(word) {
        Lost::by_or_sp(rd(word))
    } else {
        Lost::by(rd(word))
    }
}

// Whether Rd is the stack pointer for 31 in data processing of registers.
fn register_writes_sp(word: u32) -> bool
    ensures { result ≡ register_writes_sp word }
{
    bits(word, 24, 5) == 0b01011 && bits(word, 21, 1) == 1 && bits(word, 29, 1) == 0
}

fn lost_by_register(word: u32) -> Lost
    ensures { result ≡ lost_by_register word }
{
    if register_writes_sp(word) {
        Lost::by_or_sp(rd(word))
    } else {
        Lost::by(rd(word))
    }
}

fn lost_by_system(word: u32) -> Option<Lost>
    ensures { result ≡ lost_by_system word }
{
    if bits(word, 22, 10) == 0b11_0101_0100 {
        return Some(lost_if(bits(word, 21, 1) == 1, Lost::by(rd(word))));
    }
    if bits(word, 21, 11) == 0b110_1010_0000 && rd(word) == 1 {
        Some(Lost::NOTHING)
    } else {
        None
    }
}

fn is_compare_and_swap_pair(word: u32) -> bool
    ensures { result ≡ is_compare_and_swap_pair word }
{
    bits(word, 31, 1) == 0 && bits(word, 23, 1) == 0 && bits(word, 21, 1) == 1
}

// Exclusive and ordered loads and stores, compare and swap.
fn lost_by_exclusive(word: u32) -> Option<Lost>
    ensures { result ≡ lost_by_exclusive word }
{
    if bits(word, 24, 1) == 1 {
        return None;
    }
    if is_compare_and_swap_pair(word) {
        return None;
    }
    let by_rs = Lost::by(bits(word, 16, 5));
    Some(by_rs.or(Lost::by(rd(word)).or(Lost::by(rt2(word)))))
}

// Loads and stores of vector structures.
fn lost_by_structure(word: u32) -> Option<Lost>
    ensures { result ≡ lost_by_structure word }
{
    if bits(word, 31, 1) == 1 {
        return None;
    }
    Some(lost_if(bits(word, 23, 1) == 1, Lost::by_or_sp(rn(word))))
}

fn lost_by_first_accesses(word: u32) -> Option<Lost>
    ensures { result ≡ lost_by_first_accesses word }
{
    if bits(word, 26, 1) == 0 {
        lost_by_exclusive(word)
    } else {
        lost_by_structure(word)
    }
}

// Loads relative to the instruction.
fn lost_by_literal(word: u32) -> Option<Lost>
    ensures { result ≡ lost_by_literal word }
{
    if bits(word, 24, 1) == 1 {
        return None;
    }
    Some(lost_if(bits(word, 26, 1) == 0, Lost::by(rd(word))))
}

fn loads_general_pair(word: u32) -> bool
    ensures { result ≡ loads_general_pair word }
{
    bits(word, 26, 1) == 0 && bits(word, 22, 1) == 1
}

fn lost_by_pair(word: u32) -> Lost
    ensures { result ≡ lost_by_pair word }
{
    let loaded = Lost::by(rd(word)).or(Lost::by(rt2(word)));
    let base = Lost::by_or_sp(rn(word));
    lost_if(loads_general_pair(word), loaded).or(lost_if(bits(word, 23, 1) == 1, base))
}

fn lost_by_atomic(word: u32) -> Option<Lost>
    ensures { result ≡ lost_by_atomic word }
{
    if bits(word, 15, 1) == 1 && bits(word, 12, 2) != 0 {
        return None;
    }
    Some(lost_if(bits(word, 26, 1) == 0, Lost::by(rd(word))))
}

// Loads at an authenticated address.
fn lost_by_authenticated(word: u32) -> Lost
    ensures { result ≡ lost_by_authenticated word }
{
    let base = Lost::by_or_sp(rn(word));
    Lost::by(rd(word)).or(lost_if(bits(word, 11, 1) == 1, base))
}

fn loads_general_register(word: u32) -> bool
    ensures { result ≡ loads_general_register word }
{
    bits(word, 26, 1) == 0 && bits(word, 22, 2) != 0
}

fn is_indexed(word: u32) -> bool
    ensures { result ≡ is_indexed word }
{
    bits(word, 24, 1) == 0 && bits(word, 21, 1) == 0 && bits(word, 10, 1) == 1
}

fn lost_by_one(word: u32) -> Lost
    ensures { result ≡ lost_by_one word }
{
    let loaded = Lost::by(rd(word));
    let base = Lost::by_or_sp(rn(word));
    lost_if(loads_general_register(word), loaded).or(lost_if(is_indexed(word), base))
}

fn is_of_other_form(word: u32) -> bool
    ensures { result ≡ is_of_other_form word }
{
    bits(word, 24, 1) == 0 && bits(word, 21, 1) == 1
}

fn lost_by_last_accesses(word: u32) -> Option<Lost>
    ensures { result ≡ lost_by_last_accesses word }
{
    if is_of_other_form(word) && bits(word, 10, 2) == 0 {
        return lost_by_atomic(word);
    }
    if is_of_other_form(word) && bits(word, 10, 1) == 1 {
        Some(lost_by_authenticated(word))
    } else {
        Some(lost_by_one(word))
    }
}

// Loads and stores, by bits 28 and 29.
fn lost_by_access(word: u32) -> Option<Lost>
    ensures { result ≡ lost_by_access word }
{
    match bits(word, 28, 2) {
        0 => lost_by_first_accesses(word),
        1 => lost_by_literal(word),
        2 => Some(lost_by_pair(word)),
        _ => lost_by_last_accesses(word),
    }
}

/// What a plain word loses; `None` for other words.
pub fn lost_by_plain(word: u32) -> Option<Lost>
    ensures { result ≡ lost_by_plain word }
{
    match bits(word, 26, 3) {
        0b100 => return Some(lost_by_immediate(word)),
        0b101 => return lost_by_system(word),
        _ => {}
    }
    match bits(word, 25, 3) {
        0b101 => return Some(lost_by_register(word)),
        0b111 => return Some(Lost::by(rd(word))),
        _ => {}
    }
    if bits(word, 27, 1) == 1 && bits(word, 25, 1) == 0 {
        lost_by_access(word)
    } else {
        None
    }
}
