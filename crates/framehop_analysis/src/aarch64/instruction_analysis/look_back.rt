//! Instructions that leave a function, told by those before them.
ghost use Rattle.std.specs.Prelude.{◌≡◌, ◌*◌, ◌<◌, ◌≤◌, length, drop, IsTrue, ◌↔◌};
ghost use Rattle.framehop_analysis.specs.LookBackAarch64.{IsWordOf, IsInAuthTailCall, IsRaise, EndsWithRaise, BeginsWithBranch, IsAfterRaise, IsInEnd};

use crate::aarch64::instruction_analysis::branches::{
    auth_tail_call_words, can_be_in_auth_tail_call, is_branch, is_register_branch,
};
use crate::aarch64::instruction_analysis::epilogue::{
    EpilogueInstructionType, epilogue_instruction_type,
};
use crate::aarch64::instruction_analysis::fields::{first_word, last_word};
use crate::aarch64::instruction_analysis::pair::is_post_index;

// Whether an authenticated tail call has so many words before the offset, and one at it.
fn is_word_of_auth_tail_call(bytes: &[u8], pc_offset: usize, before: usize) -> bool
    requires offset { pc_offset ≤ length bytes.now }
    requires few { before < 7 }
    ensures { IsTrue result ↔ IsWordOf bytes.now pc_offset before }
{
    if pc_offset < 4 * before {
        return false;
    }
    let (_, from) = bytes.split_at(pc_offset - 4 * before);
    match auth_tail_call_words(from) {
        Some(words) => before < words,
        None => false,
    }
}

// Whether the offset is that of a word of an authenticated tail call.
fn is_in_auth_tail_call(bytes: &[u8], pc_offset: usize) -> bool
    requires { pc_offset ≤ length bytes.now }
    ensures { IsTrue result ↔ IsInAuthTailCall bytes.now pc_offset }
{
    let (_, from) = bytes.split_at(pc_offset);
    if !can_be_in_auth_tail_call(from) {
        return false;
    }
    let mut before = 0;
    while before < 7 {
        if is_word_of_auth_tail_call(bytes, pc_offset, before) {
            return true;
        }
        before += 1;
    }
    false
}

// Whether the word loads a pair and then adds to the stack pointer, or only adds to it.
fn is_raise(word: u32) -> bool
    ensures { IsTrue result ↔ IsRaise word }
{
    match epilogue_instruction_type(word) {
        Some(EpilogueInstructionType::LoadPair(pair)) => is_post_index(pair.mode),
        Some(EpilogueInstructionType::AddToSp(_)) => true,
        None => false,
    }
}

// Whether the bytes end with such a word.
fn ends_with_raise(bytes: &[u8]) -> bool
    ensures { IsTrue result ↔ EndsWithRaise bytes.now }
{
    match last_word(bytes) {
        Some((_, word)) => is_raise(word),
        None => false,
    }
}

// Whether the bytes begin with a branch.
fn begins_with_branch(bytes: &[u8]) -> bool
    ensures { IsTrue result ↔ BeginsWithBranch bytes.now }
{
    match first_word(bytes) {
        Some((word, _)) => is_branch(word) || is_register_branch(word),
        None => false,
    }
}

// Whether there is a branch at the offset, right after a word that adds to the stack pointer.
fn is_after_raise(bytes: &[u8], pc_offset: usize) -> bool
    requires { pc_offset ≤ length bytes.now }
    ensures { IsTrue result ↔ IsAfterRaise bytes.now pc_offset }
{
    let (before, from) = bytes.split_at(pc_offset);
    begins_with_branch(from) && ends_with_raise(before)
}

/// Whether the instruction at the offset is one of those that leave the function, by those before it.
pub fn is_in_end(bytes: &[u8], pc_offset: usize) -> bool
    requires { pc_offset ≤ length bytes.now }
    ensures { IsTrue result ↔ IsInEnd bytes.now pc_offset }
{
    is_after_raise(bytes, pc_offset) || is_in_auth_tail_call(bytes, pc_offset)
}
