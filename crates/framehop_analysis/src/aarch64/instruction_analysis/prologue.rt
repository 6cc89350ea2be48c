//! Prologues of aarch64: pairs are stored and the stack pointer is lowered, up to the address.
ghost use Rattle.std.specs.Prelude.{◌≡◌, ◌≢◌, ◌*◌, ◌<◌, ◌^◌, ◌++◌, ℕ, ℤ, pos, negsuc, ◌+ℤ◌, ◌≤ℤ◌, List, length, IfSome, IfNone, IsTrue, ◌↔◌, None};
ghost use Rattle.std.specs.Int.{to_le_bytes, w32};
ghost use Rattle.framehop_analysis.specs.Found.{IsFound};
ghost use Rattle.framehop_analysis.specs.PrologueAarch64.{IsExpectedWord, IsExpected, IsPrologueRule};
ghost use Rattle.framehop_analysis.specs.PrologueViewsAarch64.{IsTypeOfWord, IsLoweringOfWord, SpellsNone, EndsWithLowering, EndsWithNone, IsLoweredBy};
ghost use Rattle.framehop_rules.specs.declared.aarch64.unwind_rule.UnwindRuleAarch64.{UnwindRuleAarch64};

use crate::aarch64::instruction_analysis::epilogue::{Restored, offset_and_raise, rule_of};
use crate::aarch64::instruction_analysis::fields::{
    first_word, last_word, sets_frame_pointer, subtracted_from_sp,
};
use crate::aarch64::instruction_analysis::pair::{Pair, is_signed_offset, store_pair};
use framehop_rules::aarch64::UnwindRuleAarch64;

// `pacibsp`
const SIGN_RETURN_ADDRESS: u32 = 0xd503_237f;

/// What an instruction that a function begins with does. `SubtractFromSp` has a number of bytes.
#[derive(Clone, Copy)]
pub enum PrologueInstructionType {
    SignReturnAddress,
    StorePair(Pair),
    SubtractFromSp(u32),
}

// What the instruction of a word does, if it can stand in a prologue.
fn prologue_instruction_type(word: u32) -> Option<PrologueInstructionType>
    ensures kind { IfSome result (IsTypeOfWord word) }
    ensures none { IfNone result (SpellsNone word) }
{
    if word == SIGN_RETURN_ADDRESS {
        return Some(PrologueInstructionType::SignReturnAddress);
    }
    if let Some(pair) = store_pair(word) {
        return Some(PrologueInstructionType::StorePair(pair));
    }
    match subtracted_from_sp(word) {
        Some(bytes) => Some(PrologueInstructionType::SubtractFromSp(bytes)),
        None => None,
    }
}

// By how many bytes the instruction of a word lowers the stack pointer, if it can stand in a prologue. No value of
// `PrologueInstructionType` is made, whose parts would be put together and taken apart again for each word.
fn lowering_of_word(word: u32) -> Option<i64>
    ensures lowering { IfSome result (IsLoweringOfWord word) }
    ensures near { IfSome result (λ lowering. (negsuc 4096 ≤ℤ lowering) × (lowering ≤ℤ pos (2 ^ 32))) }
    ensures none { IfNone result (SpellsNone word) }
{
    if word == SIGN_RETURN_ADDRESS {
        return Some(0);
    }
    if let Some(pair) = store_pair(word) {
        let (_, raise) = offset_and_raise(pair);
        return Some(0 - raise);
    }
    match subtracted_from_sp(word) {
        Some(bytes) => Some(i64::from(bytes)),
        None => None,
    }
}

impl Restored {
    // What a return restores from before one more instruction, which lowers the stack pointer by so many bytes.
    fn before(self, lowering: i64) -> Restored
        requires raise { (negsuc (2 ^ 100) ≤ℤ self.raise) × (self.raise ≤ℤ pos (2 ^ 100)) }
        requires lowering { (negsuc 4096 ≤ℤ lowering) × (lowering ≤ℤ pos (2 ^ 32)) }
        ensures raise { result.raise ≡ self.raise +ℤ lowering }
        ensures near { ((self.raise +ℤ negsuc (2 ^ 33)) ≤ℤ result.raise)
            × (result.raise ≤ℤ (self.raise +ℤ pos (2 ^ 33))) }
        ensures fp { result.fp ≡ self.fp }
        ensures lr { result.lr ≡ self.lr }
    {
        Restored {
            raise: self.raise + i128::from(lowering),
            fp: self.fp,
            lr: self.lr,
        }
    }
}

// By how many bytes the last instruction lowers the stack pointer, if it can stand in a prologue, and the bytes before it.
fn before_last_instruction(bytes: &[u8]) -> Option<(&[u8], i64)>
    ensures lowering { IfSome result (λ found. EndsWithLowering bytes.now found.0.now found.1) }
    ensures near { IfSome result (λ found. (negsuc 4096 ≤ℤ found.1) × (found.1 ≤ℤ pos (2 ^ 32))) }
    ensures none { IfNone result (EndsWithNone bytes.now) }
{
    let (prefix, word) = last_word(bytes)?;
    let lowering = lowering_of_word(word)?;
    Some((prefix, lowering))
}

// What a return restores from before the instructions of a prologue that some bytes end with.
fn restored_before_prologue(bytes: &[u8]) -> Restored
    ensures raise { IsLoweredBy bytes.now result.raise }
    ensures fp { result.fp ≡ None }
    ensures lr { result.lr ≡ None }
{
    let mut restored = Restored {
        raise: 0,
        fp: None,
        lr: None,
    };
    let mut prefix = bytes;
    while let Some((before, lowering)) = before_last_instruction(prefix) {
        restored = restored.before(lowering);
        prefix = before;
    }
    restored
}

// Whether this word can come next in a prologue, a return restoring so much.
fn is_expected_word(word: u32, restored: Restored) -> bool
    ensures { IsTrue result ↔ IsExpectedWord word restored.raise }
{
    match prologue_instruction_type(word) {
        Some(PrologueInstructionType::StorePair(pair)) => {
            if restored.raise != 0 {
                return true;
            }
            !is_signed_offset(pair.mode)
        }
        Some(_) => true,
        None => sets_frame_pointer(word),
    }
}

// Whether an instruction comes next that may be expected in a prologue, whatever a return restores.
fn may_be_expected(bytes: &[u8]) -> bool
    ensures { (restored : ℤ) → IsExpected bytes.now restored → IsTrue result }
{
    match first_word(bytes) {
        Some((word, _)) => prologue_instruction_type(word).is_some() || sets_frame_pointer(word),
        None => false,
    }
}

// Whether an instruction comes next that can stand in a prologue, a return restoring so much.
fn is_expected(bytes: &[u8], restored: Restored) -> bool
    ensures { IsTrue result ↔ IsExpected bytes.now restored.raise }
{
    match first_word(bytes) {
        Some((word, _)) => is_expected_word(word, restored),
        None => false,
    }
}

/// The rule for a first frame whose next instruction, the first of `slice_to_end`, is in the start of its
/// function: it can stand in a prologue, and the instructions of a prologue at the end of `slice_from_start`
/// have been executed. There is none if the offset isn't a multiple of 16 or doesn't fit the rule's field.
pub fn unwind_rule_from_detected_prologue(
    slice_from_start: &[u8],
    slice_to_end: &[u8],
) -> Option<UnwindRuleAarch64>
    ensures { IsFound (IsPrologueRule slice_from_start.now slice_to_end.now) result }
{
    if !may_be_expected(slice_to_end) {
        return None;
    }
    let restored = restored_before_prologue(slice_from_start);
    if !is_expected(slice_to_end, restored) {
        return None;
    }
    rule_of(restored)
}
