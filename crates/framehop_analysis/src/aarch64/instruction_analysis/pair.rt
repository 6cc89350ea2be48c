//! Loads and stores of two registers relative to the stack pointer.
ghost use Rattle.std.specs.Prelude.{◌≡◌, ◌≢◌, ◌<◌, ◌^◌, ◌≤ℤ◌, negsuc, pos, IfSome, IfNone, IsTrue, ◌↔◌};
ghost use Rattle.framehop_analysis.specs.PairsAarch64.{IsPairWord, imm7_of, mode_bits};
ghost use Rattle.framehop_analysis.specs.declared.aarch64.instruction_analysis.pair.Pair.{Pair};
ghost use Rattle.framehop_analysis.specs.declared.aarch64.instruction_analysis.pair.AddressingMode.{AddressingMode};
ghost use Rattle.framehop_analysis.specs.declared.aarch64.instruction_analysis.pair.AddressingMode.TheVariants.{PostIndex, SignedOffset};

use crate::aarch64::instruction_analysis::word::{
    SP, bit_22, bit_31, imm7, mode_field, pair_class, rd, rn, rt2,
};

/// When the offset of a pair is added to the stack pointer (Arm Architecture Reference Manual, C1.3.3).
#[derive(Clone, Copy, Debug, PartialEq, Eq)]
pub enum AddressingMode {
    /// afterwards: the access is at the stack pointer
    PostIndex,
    /// for the access alone: the stack pointer stays
    SignedOffset,
    /// before the access
    PreIndex,
}

/// Two registers by their numbers, from 0 to 31, that are loaded or stored at an offset in words of 8 bytes.
#[derive(Clone, Copy, Debug, PartialEq, Eq)]
pub struct Pair {
    pub mode: AddressingMode,
    pub offset_by_8: i8,
    pub first: u8,
    pub second: u8,
}

/// Whether the offset is added afterwards.
pub fn is_post_index(mode: AddressingMode) -> bool
    ensures { IsTrue result ↔ (mode ≡ PostIndex) }
{
    match mode {
        AddressingMode::PostIndex => true,
        AddressingMode::SignedOffset | AddressingMode::PreIndex => false,
    }
}

/// Whether the offset is for the access alone.
pub fn is_signed_offset(mode: AddressingMode) -> bool
    ensures { IsTrue result ↔ (mode ≡ SignedOffset) }
{
    match mode {
        AddressingMode::SignedOffset => true,
        AddressingMode::PostIndex | AddressingMode::PreIndex => false,
    }
}

// A number of seven bits in two's complement.
fn signed(bits: u8) -> i8
    requires { bits < 128 }
    ensures bits { imm7_of result ≡ bits }
    ensures low { negsuc 63 ≤ℤ result }
    ensures high { result ≤ℤ pos 63 }
{
    let bits = bits as i8;
    if bits < 64 { bits } else { (bits - 64) - 64 }
}

// The mode with these bits.
fn mode_with(bits: u32) -> Option<AddressingMode>
    requires { bits < 4 }
    ensures mode { IfSome result (λ mode. mode_bits mode ≡ bits) }
    ensures none { IfNone result ((mode : AddressingMode) → mode_bits mode ≢ bits) }
{
    if bits == 0 {
        return None;
    }
    if bits % 2 == 0 {
        Some(AddressingMode::SignedOffset)
    } else if bits == 1 {
        Some(AddressingMode::PostIndex)
    } else {
        Some(AddressingMode::PreIndex)
    }
}

// The pair that a word loads, or stores for 0, relative to the stack pointer.
fn pair_at_sp(word: u32, load: u32) -> Option<Pair>
    requires { load < 2 }
    ensures pair { IfSome result (λ pair. IsPairWord load word pair) }
    ensures none { IfNone result ((pair : Pair) → ¬ IsPairWord load word pair) }
{
    if bit_22(word) != load || rn(word) != SP {
        return None;
    }
    if bit_31(word) != 1 || pair_class(word) != 0x14 {
        return None;
    }
    let mode = mode_with(mode_field(word))?;
    Some(Pair {
        mode,
        offset_by_8: signed(imm7(word) as u8),
        first: rd(word) as u8,
        second: rt2(word) as u8,
    })
}

/// The pair that a word loads relative to the stack pointer.
pub fn load_pair(word: u32) -> Option<Pair>
    ensures pair { IfSome result (λ pair. IsPairWord 1 word pair) }
    ensures none { IfNone result ((pair : Pair) → ¬ IsPairWord 1 word pair) }
{
    pair_at_sp(word, 1)
}

/// The pair that a word stores relative to the stack pointer.
pub fn store_pair(word: u32) -> Option<Pair>
    ensures pair { IfSome result (λ pair. IsPairWord 0 word pair) }
    ensures none { IfNone result ((pair : Pair) → ¬ IsPairWord 0 word pair) }
{
    pair_at_sp(word, 0)
}
