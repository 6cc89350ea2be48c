//! Numbers of bytes in the units of rules, words of code, and the immediates of `add` and `sub`.
ghost use Rattle.std.specs.Prelude.{◌≡◌, ◌≢◌, ◌*◌, ◌+◌, ◌<◌, ◌^◌, ◌++◌, ◌≤ℤ◌, ◌*ℤ◌, ℕ, ℤ, negsuc, pos, length, IfSome, IfNone, MatchOption, IsTrue, ◌↔◌};
ghost use Rattle.std.specs.Int.{to_le_bytes, w32};
ghost use Rattle.framehop_analysis.specs.EpilogueInstructionsAarch64.{SetsFramePointer};
ghost use Rattle.framehop_analysis.specs.EpilogueViewsAarch64.{IsImmediate, IsNoImmediate};

use crate::aarch64::instruction_analysis::word::{SP, bit_22, from_bit_23, imm12, rd, rn};

/// A number of bytes in units of 16, if it is a multiple and fits.
pub fn units_of_16(bytes: i64) -> Option<u16>
    ensures units { IfSome result (λ units. bytes ≡ pos (16 * units)) }
    ensures none { IfNone result ((units : ℕ) → units < 2 ^ 16 → bytes ≢ pos (16 * units)) }
{
    if bytes % 16 != 0 {
        return None;
    }
    u16::try_from(bytes / 16).ok()
}

/// A number of bytes in units of 8, if it is a multiple and fits.
pub fn units_of_8(bytes: i64) -> Option<i16>
    ensures units { IfSome result (λ units. bytes ≡ pos 8 *ℤ units) }
    ensures none { IfNone result ((units : ℤ) → negsuc 32767 ≤ℤ units → units ≤ℤ pos 32767 → bytes ≢ pos 8 *ℤ units) }
{
    if bytes % 8 != 0 {
        return None;
    }
    i16::try_from(bytes / 8).ok()
}

/// The word that some bytes begin with, and what comes after it.
pub fn first_word(bytes: &[u8]) -> Option<(u32, &[u8])>
    ensures bytes { MatchOption result (length bytes.now < 4) (λ first. bytes.now ≡ to_le_bytes w32 first.0 ++ first.1.now) }
    ensures fits { IfSome result (λ first. first.0 < 2 ^ 32) }
{
    let (word, suffix) = bytes.split_first_chunk::<4>()?;
    Some((u32::from_le_bytes(*word), suffix))
}

/// The word that some bytes end with, and the bytes before it.
pub fn last_word(bytes: &[u8]) -> Option<(&[u8], u32)>
    ensures bytes { MatchOption result (length bytes.now < 4) (λ last. bytes.now ≡ last.0.now ++ to_le_bytes w32 last.1) }
    ensures fits { IfSome result (λ last. last.1 < 2 ^ 32) }
{
    let (prefix, word) = bytes.split_last_chunk::<4>()?;
    Some((prefix, u32::from_le_bytes(*word)))
}

// The number that a word adds to the stack pointer or subtracts from it, by the bits 23 to 31, to write a
// register.
fn immediate(word: u32, operation: u32, to: u32) -> Option<u32>
    requires { to < 32 }
    ensures bytes { IfSome result (IsImmediate operation to word) }
    ensures none { IfNone result (IsNoImmediate operation to word) }
{
    if from_bit_23(word) != operation {
        return None;
    }
    if rn(word) != SP || rd(word) != to {
        return None;
    }
    let number = imm12(word);
    if bit_22(word) == 1 {
        Some(number * 4096)
    } else {
        Some(number)
    }
}

/// The number of bytes that a word adds to the stack pointer.
pub fn added_to_sp(word: u32) -> Option<u32>
    ensures added { IfSome result (IsImmediate 0x122 31 word) }
    ensures none { IfNone result (IsNoImmediate 0x122 31 word) }
{
    immediate(word, 0x122, 31)
}

/// The number of bytes that a word subtracts from the stack pointer.
pub fn subtracted_from_sp(word: u32) -> Option<u32>
    ensures subtracted { IfSome result (IsImmediate 0x1a2 31 word) }
    ensures none { IfNone result (IsNoImmediate 0x1a2 31 word) }
{
    immediate(word, 0x1a2, 31)
}

/// Whether a word sets the frame pointer to the stack pointer plus a number.
pub fn sets_frame_pointer(word: u32) -> bool
    ensures { IsTrue result ↔ SetsFramePointer word }
{
    immediate(word, 0x122, 29).is_some()
}
