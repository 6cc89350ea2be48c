//! Branches, and the authenticated tail calls that they end.
ghost use Rattle.std.specs.Prelude.{◌≡◌, ◌<◌, ◌^◌, ℕ, ◌↔◌, IsTrue, IfSome, IfNone};
ghost use Rattle.framehop_analysis.specs.FunctionEndsAarch64.{IsBranch, IsRegisterBranch, IsMoveToX16, IsAuthBranch, BeginsWithTail, BeginsWithAuthTailCall, IsWordOfAuthTailCall, BeginsWithWordOfAuthTailCall};

use crate::aarch64::instruction_analysis::fields::first_word;
use crate::aarch64::instruction_analysis::word::{
    from_bit_10, from_bit_26, from_bit_29, move_class, rd,
};

// `autibsp`
const AUTHENTICATE: u32 = 0xd503_23ff;

// `eor x16, x30, x30, lsl #1`
const EXCLUSIVE_OR: u32 = 0xca1e_07d0;

// `tbz x16, #62`
const TEST_BIT: u32 = 0xb6f0_0050;

// `brk #0xc471`
const BREAK: u32 = 0xd438_8e20;

// `autibsp`, `eor x16, x30, x30, lsl #1`, `tbz x16, #62`, `brk #0xc471`
const CHECK: [u8; 16] = [
    0xff, 0x23, 0x03, 0xd5, 0xd0, 0x07, 0x1e, 0xca, 0x50, 0x00, 0xf0, 0xb6, 0x20, 0x8e, 0x38, 0xd4,
];

/// Whether this is a `b`.
pub fn is_branch(word: u32) -> bool
    ensures { IsTrue result ↔ IsBranch word }
{
    from_bit_26(word) == 5
}

/// Whether this is a `br`.
pub fn is_register_branch(word: u32) -> bool
    ensures { IsTrue result ↔ IsRegisterBranch word }
{
    from_bit_10(word) == 0x35_87c0 && rd(word) == 0
}

// Whether this is a `movz` of a number to x16.
fn is_move_to_x16(word: u32) -> bool
    ensures { IsTrue result ↔ IsMoveToX16 word }
{
    if from_bit_29(word) != 6 {
        return false;
    }
    move_class(word) == 5 && rd(word) == 16
}

// Whether this is a `braa` with the modifier x16.
fn is_auth_branch(word: u32) -> bool
    ensures { IsTrue result ↔ IsAuthBranch word }
{
    from_bit_10(word) == 0x35_c7c2 && rd(word) == 16
}

// Whether this can be a word of an authenticated tail call.
fn can_be_of_auth_tail_call(word: u32) -> bool
    ensures { IsWordOfAuthTailCall word → IsTrue result }
{
    if word == AUTHENTICATE || word == EXCLUSIVE_OR {
        return true;
    }
    if word == TEST_BIT || word == BREAK {
        return true;
    }
    is_branch(word) || is_move_to_x16(word) || is_auth_branch(word)
}

/// Whether the bytes begin with what can be a word of an authenticated tail call. Most code doesn't.
pub fn can_be_in_auth_tail_call(bytes: &[u8]) -> bool
    ensures { BeginsWithWordOfAuthTailCall bytes.now → IsTrue result }
{
    match first_word(bytes) {
        Some((word, _)) => can_be_of_auth_tail_call(word),
        None => false,
    }
}

// The number of words of the end of an authenticated tail call that some bytes begin with.
fn tail_words(bytes: &[u8]) -> Option<usize>
    ensures words { IfSome result (λ words. BeginsWithTail bytes.now words) }
    ensures none { IfNone result ((words : ℕ) → ¬ BeginsWithTail bytes.now words) }
{
    let (word, suffix) = first_word(bytes)?;
    if is_branch(word) {
        return Some(1);
    }
    if !is_move_to_x16(word) {
        return None;
    }
    let (next, _) = first_word(suffix)?;
    if is_auth_branch(next) { Some(2) } else { None }
}

// The number of words of the authenticated tail call that some bytes begin with.
fn checked_words(bytes: &[u8]) -> Option<usize>
    ensures words { IfSome result (λ words. BeginsWithAuthTailCall bytes.now words) }
    ensures none { IfNone result ((words : ℕ) → ¬ BeginsWithAuthTailCall bytes.now words) }
    ensures few { IfSome result (λ words. words < 7) }
{
    let suffix = bytes.strip_prefix(&CHECK)?;
    let words = tail_words(suffix)?;
    Some(4 + words)
}

/// The number of words of the authenticated tail call that some bytes begin with. Most begin with another word than `autibsp`.
#[inline(always)]
pub fn auth_tail_call_words(bytes: &[u8]) -> Option<usize>
    ensures words { IfSome result (λ words. BeginsWithAuthTailCall bytes.now words) }
    ensures none { IfNone result ((words : ℕ) → ¬ BeginsWithAuthTailCall bytes.now words) }
    ensures few { IfSome result (λ words. words < 7) }
{
    let (word, _) = first_word(bytes)?;
    if word == AUTHENTICATE {
        checked_words(bytes)
    } else {
        None
    }
}
