//! Epilogues of aarch64: pairs are loaded and the stack pointer is raised, and then the function is left.
ghost use Rattle.std.specs.Prelude.{◌≡◌, ◌≢◌, ◌<◌, ◌≤◌, ◌^◌, ◌==◌, if◌then◌else◌, ℤ, ◌+ℤ◌, ◌*ℤ◌, ◌≤ℤ◌, pos, negsuc, List, length, IfSome, IfNone, Some, None, IsTrue, ◌↔◌};
ghost use Rattle.framehop_analysis.specs.EpilogueInstructionsAarch64.{EpilogueInstruction};
ghost use Rattle.framehop_analysis.specs.FunctionEndsAarch64.{IsEndWord, IsLeft};
ghost use Rattle.framehop_analysis.specs.Found.{IsFound};
ghost use Rattle.framehop_analysis.specs.LookBackAarch64.{IsEpilogueRule};
ghost use Rattle.framehop_analysis.specs.MachineAarch64.{raise, access_offset};
ghost use Rattle.framehop_analysis.specs.EpilogueAarch64.{IsEnd, IsRuleFor, FieldsFit, FitsOffset};
ghost use Rattle.framehop_analysis.specs.EpilogueViewsAarch64.{IsTypeOfWord, SpellsNone, BeginsWithType, BeginsWithNone, IsRestoredBy, restored_of, raise_of_type, load_offset_after, carried, HasNoRule};
ghost use Rattle.framehop_rules.specs.declared.aarch64.unwind_rule.UnwindRuleAarch64.{UnwindRuleAarch64};

use crate::aarch64::instruction_analysis::branches::{auth_tail_call_words, is_branch};
use crate::aarch64::instruction_analysis::fields::{
    added_to_sp, first_word, units_of_8, units_of_16,
};
use crate::aarch64::instruction_analysis::look_back::is_in_end;
use crate::aarch64::instruction_analysis::pair::{
    Pair, is_post_index, is_signed_offset, load_pair,
};
use framehop_rules::aarch64::UnwindRuleAarch64;

// `ret`
const RETURN: u32 = 0xd65f_03c0;

// `retab`
const AUTH_RETURN: u32 = 0xd65f_0fff;

/// What an instruction before the end of a function does. `AddToSp` has a number of bytes.
#[derive(Clone, Copy)]
pub enum EpilogueInstructionType {
    LoadPair(Pair),
    AddToSp(u32),
}

// The least number of bytes with too many instructions for sums of 64 bits.
const LONG: usize = 0x2000_0000;

/// What a return restores: by how many bytes the stack pointer goes up, and at which offsets in bytes from it
/// the frame pointer and the link register are stored.
#[derive(Clone, Copy)]
pub struct Restored {
    pub raise: i128,
    pub fp: Option<i128>,
    pub lr: Option<i128>,
}

/// The same in numbers of 64 bits.
#[derive(Clone, Copy)]
pub struct ShortRestored {
    pub raise: i64,
    pub fp: Option<i64>,
    pub lr: Option<i64>,
}

/// What the instruction of a word does, if it can stand before the end of a function.
pub fn epilogue_instruction_type(word: u32) -> Option<EpilogueInstructionType>
    ensures kind { IfSome result (IsTypeOfWord word) }
    ensures none { IfNone result (SpellsNone word) }
{
    if let Some(pair) = load_pair(word) {
        return Some(EpilogueInstructionType::LoadPair(pair));
    }
    match added_to_sp(word) {
        Some(bytes) => Some(EpilogueInstructionType::AddToSp(bytes)),
        None => None,
    }
}

// The offset from which a register is loaded last, once a pair is loaded at an offset.
fn loaded_from(number: u8, pair: Pair, at: i64, before: Option<i64>) -> Option<i64>
    requires low { negsuc (2 ^ 62) ≤ℤ at }
    requires high { at ≤ℤ pos (2 ^ 62) }
    ensures { result ≡ (if pair.second == number then Some (at +ℤ pos 8) else
        if pair.first == number then Some at else before) }
{
    let is_second = pair.second == number;
    if is_second | (pair.first == number) {
        Some(at + i64::from(is_second) * 8)
    } else {
        before
    }
}

/// The offset in bytes at which a pair is loaded or stored, and by how many bytes that raises the stack pointer.
pub fn offset_and_raise(pair: Pair) -> (i64, i64)
    ensures access_offset { result.0 ≡ access_offset pair }
    ensures raise { result.1 ≡ raise pair }
    ensures low { negsuc 4096 ≤ℤ result.1 }
    ensures high { result.1 ≤ℤ pos 4096 }
    ensures offset_low { negsuc 4096 ≤ℤ result.0 }
    ensures offset_high { result.0 ≤ℤ pos 4096 }
{
    let bytes = i64::from(pair.offset_by_8) * 8;
    let access_offset = if is_post_index(pair.mode) { 0 } else { bytes };
    let raise = if is_signed_offset(pair.mode) {
        0
    } else {
        bytes
    };
    (access_offset, raise)
}

impl ShortRestored {
    // What is restored before any instruction.
    const NOTHING: ShortRestored = ShortRestored {
        raise: 0,
        fp: None,
        lr: None,
    };

    // What is restored once one more instruction follows.
    fn after(self, kind: EpilogueInstructionType) -> ShortRestored
        requires low { negsuc (2 ^ 61) ≤ℤ self.raise }
        requires high { self.raise ≤ℤ pos (2 ^ 61) }
        ensures raise { result.raise ≡ self.raise +ℤ raise_of_type kind }
        ensures near { ((self.raise +ℤ negsuc (2 ^ 33)) ≤ℤ result.raise)
            × (result.raise ≤ℤ (self.raise +ℤ pos (2 ^ 33))) }
        ensures fp { result.fp ≡ load_offset_after 29 kind self.raise self.fp }
        ensures lr { result.lr ≡ load_offset_after 30 kind self.raise self.lr }
    {
        match kind {
            EpilogueInstructionType::LoadPair(pair) => {
                let (access_offset, raise) = offset_and_raise(pair);
                let at = self.raise + access_offset;
                ShortRestored {
                    raise: self.raise + raise,
                    fp: loaded_from(29, pair, at, self.fp),
                    lr: loaded_from(30, pair, at, self.lr),
                }
            }
            EpilogueInstructionType::AddToSp(bytes) => ShortRestored {
                raise: self.raise + i64::from(bytes),
                fp: self.fp,
                lr: self.lr,
            },
        }
    }
}

// The offset from which a register is loaded last, if it is then loaded at an offset, or isn't, from the stack pointer
// that has gone up by so much.
fn carried(raise: i128, before: Option<i128>, offset: Option<i64>) -> Option<i128>
    requires low { negsuc (2 ^ 100) ≤ℤ raise }
    requires high { raise ≤ℤ pos (2 ^ 100) }
    ensures { result ≡ carried raise before offset }
{
    match offset {
        Some(bytes) => Some(raise + i128::from(bytes)),
        None => before,
    }
}

impl Restored {
    // What is restored once one more instruction follows.
    fn after(self, kind: EpilogueInstructionType) -> Restored
        requires low { negsuc (2 ^ 100) ≤ℤ self.raise }
        requires high { self.raise ≤ℤ pos (2 ^ 100) }
        ensures raise { result.raise ≡ self.raise +ℤ raise_of_type kind }
        ensures near { ((self.raise +ℤ negsuc (2 ^ 33)) ≤ℤ result.raise)
            × (result.raise ≤ℤ (self.raise +ℤ pos (2 ^ 33))) }
        ensures fp { result.fp ≡ load_offset_after 29 kind self.raise self.fp }
        ensures lr { result.lr ≡ load_offset_after 30 kind self.raise self.lr }
    {
        let one = ShortRestored::NOTHING.after(kind);
        Restored {
            raise: self.raise + i128::from(one.raise),
            fp: carried(self.raise, self.fp, one.fp),
            lr: carried(self.raise, self.lr, one.lr),
        }
    }
}

// The instruction that some bytes begin with, if it can stand before the end of a function, and the bytes after it.
fn first_instruction(bytes: &[u8]) -> Option<(EpilogueInstructionType, &[u8])>
    ensures kind { IfSome result (λ first. BeginsWithType bytes.now first.0 first.1.now) }
    ensures none { IfNone result (BeginsWithNone bytes.now) }
{
    let (word, suffix) = first_word(bytes)?;
    let kind = epilogue_instruction_type(word)?;
    Some((kind, suffix))
}

// Whether this word alone leaves the function, once the stack pointer has gone up by so much.
fn is_end_word(word: u32, raise: i128) -> bool
    ensures { IsTrue result ↔ IsEndWord word raise }
{
    if word == RETURN || word == AUTH_RETURN {
        return true;
    }
    is_branch(word) && raise != 0
}

// Whether these bytes leave the function, once the stack pointer has gone up by so much.
fn is_left(bytes: &[u8], raise: i128) -> bool
    ensures { IsTrue result ↔ IsLeft bytes.now raise }
{
    match first_word(bytes) {
        Some((word, _)) => {
            if is_end_word(word, raise) {
                return true;
            }
            auth_tail_call_words(bytes).is_some()
        }
        None => false,
    }
}

/// What is restored by the instructions that fewer than `LONG` bytes begin with, up to where the function is left.
pub fn restored_by_short_epilogue(bytes: &[u8]) -> Option<ShortRestored>
    requires { length bytes.now < 2 ^ 29 }
    ensures restored { IfSome result (λ restored. IsRestoredBy bytes.now (restored_of restored)) }
    ensures none { IfNone result ((instructions : List EpilogueInstruction) → IsEnd bytes.now instructions → ⊥) }
{
    let mut restored = ShortRestored::NOTHING;
    let mut rest = bytes;
    while let Some((kind, suffix)) = first_instruction(rest) {
        restored = restored.after(kind);
        rest = suffix;
    }
    if is_left(rest, i128::from(restored.raise)) {
        Some(restored)
    } else {
        None
    }
}

/// What is restored by the instructions that some bytes begin with, up to where the function is left.
pub fn restored_by_epilogue(bytes: &[u8]) -> Option<Restored>
    ensures restored { IfSome result (IsRestoredBy bytes.now) }
    ensures none { IfNone result ((instructions : List EpilogueInstruction) → IsEnd bytes.now instructions → ⊥) }
{
    let mut restored = Restored {
        raise: 0,
        fp: None,
        lr: None,
    };
    let mut rest = bytes;
    while let Some((kind, suffix)) = first_instruction(rest) {
        restored = restored.after(kind);
        rest = suffix;
    }
    if is_left(rest, restored.raise) {
        Some(restored)
    } else {
        None
    }
}

/// The rule for what is restored. There is none if the frame pointer is restored without the link register, or
/// if an offset isn't exact in the rule's units or doesn't fit its field.
pub fn rule_of_short(restored: ShortRestored) -> Option<UnwindRuleAarch64>
    ensures rule { IfSome result (λ rule. FieldsFit rule × IsRuleFor restored.raise restored.fp restored.lr rule) }
    ensures none { IfNone result ((rule : UnwindRuleAarch64) → FieldsFit rule
        → IsRuleFor restored.raise restored.fp restored.lr rule → ⊥) }
{
    let sp_offset_by_16 = units_of_16(restored.raise)?;
    match (restored.fp, restored.lr) {
        (None, None) => {
            if sp_offset_by_16 == 0 {
                Some(UnwindRuleAarch64::NoOp)
            } else {
                Some(UnwindRuleAarch64::OffsetSp { sp_offset_by_16 })
            }
        }
        (None, Some(lr)) => {
            let lr_storage_offset_from_sp_by_8 = units_of_8(lr)?;
            Some(UnwindRuleAarch64::OffsetSpAndRestoreLr {
                sp_offset_by_16,
                lr_storage_offset_from_sp_by_8,
            })
        }
        (Some(_), None) => None,
        (Some(fp), Some(lr)) => {
            let fp_storage_offset_from_sp_by_8 = units_of_8(fp)?;
            let lr_storage_offset_from_sp_by_8 = units_of_8(lr)?;
            Some(UnwindRuleAarch64::OffsetSpAndRestoreFpAndLr {
                sp_offset_by_16,
                fp_storage_offset_from_sp_by_8,
                lr_storage_offset_from_sp_by_8,
            })
        }
    }
}

// An offset of 64 bits, if it fits.
fn short_offset(offset: Option<i128>) -> Option<Option<i64>>
    ensures same { IfSome result (λ short. short ≡ offset) }
    ensures none { IfNone result ((units : ℤ) → FitsOffset units → offset ≢ Some (pos 8 *ℤ units)) }
    ensures some { offset ≡ None → result ≡ Some None }
{
    match offset {
        Some(bytes) => Some(Some(i64::try_from(bytes).ok()?)),
        None => Some(None),
    }
}

/// What is restored, in 64 bits. There is no rule if a number doesn't fit them.
fn short_of(restored: Restored) -> Option<ShortRestored>
    ensures same { IfSome result (λ short. restored_of short ≡ restored) }
    ensures none { IfNone result ((rule : UnwindRuleAarch64) → FieldsFit rule
        → IsRuleFor restored.raise restored.fp restored.lr rule → ⊥) }
{
    let raise = i64::try_from(restored.raise).ok()?;
    let fp = short_offset(restored.fp)?;
    let lr = short_offset(restored.lr)?;
    Some(ShortRestored { raise, fp, lr })
}

/// The rule for what is restored by any number of instructions, as `rule_of_short` gives it.
pub fn rule_of(restored: Restored) -> Option<UnwindRuleAarch64>
    ensures rule { IfSome result (λ rule. FieldsFit rule × IsRuleFor restored.raise restored.fp restored.lr rule) }
    ensures none { IfNone result ((rule : UnwindRuleAarch64) → FieldsFit rule
        → IsRuleFor restored.raise restored.fp restored.lr rule → ⊥) }
{
    let short = short_of(restored)?;
    rule_of_short(short)
}

// What is restored by the instructions that some bytes begin with, many or few, in 64 bits. A rule's numbers fit them.
#[cold]
#[inline(never)]
fn restored_by_long_epilogue(bytes: &[u8]) -> Option<ShortRestored>
    ensures restored { IfSome result (λ restored. IsRestoredBy bytes.now (restored_of restored)) }
    ensures none { IfNone result (HasNoRule bytes.now) }
{
    let restored = restored_by_epilogue(bytes)?;
    short_of(restored)
}

// The same, by sums of 64 bits if they do.
fn restored_in_64_bits(bytes: &[u8]) -> Option<ShortRestored>
    ensures restored { IfSome result (λ restored. IsRestoredBy bytes.now (restored_of restored)) }
    ensures none { IfNone result (HasNoRule bytes.now) }
{
    if bytes.len() < LONG {
        restored_by_short_epilogue(bytes)
    } else {
        restored_by_long_epilogue(bytes)
    }
}

/// The rule for a first frame whose next instruction, at `pc_offset` of `bytes`, is in the end of its function:
/// loads of pairs and additions to the stack pointer follow, and then the function is left; or the instructions
/// before it show that it is one of those that leave the function.
pub fn unwind_rule_from_detected_epilogue(
    bytes: &[u8],
    pc_offset: usize,
) -> Option<UnwindRuleAarch64>
    requires { pc_offset ≤ length bytes.now }
    ensures { IsFound (IsEpilogueRule bytes.now pc_offset) result }
{
    let (_, from) = bytes.split_at(pc_offset);
    if let Some(restored) = restored_in_64_bits(from) {
        return rule_of_short(restored);
    }
    if is_in_end(bytes, pc_offset) {
        Some(UnwindRuleAarch64::NoOp)
    } else {
        None
    }
}
