//! What tables keep of what they say of an address: as much as a rule has, in eight bytes.

ghost use Rattle.std.specs.Prelude.{◌≡◌};
ghost use Rattle.framehop_tables.specs.Kept.{covered_by_aarch64, covered_by_x86_64, kept_of_aarch64, kept_of_x86_64, no_more_aarch64, no_more_x86_64};

use crate::covered::Covered;
use crate::same_rule::{KeptRule, SameRule};
use framehop_rules::aarch64::UnwindRuleAarch64;
use framehop_rules::x86_64::UnwindRuleX86_64;

const _: () = prove!(size_of::<KeptX86_64>() == 8);

const _: () = prove!(size_of::<KeptAarch64>() == 8);

/// What tables of x86_64 keep: which rule is said with its numbers, or what else a table says.
#[derive(Clone, Copy, PartialEq, Eq)]
pub enum KeptX86_64 {
    Nothing,
    Evaluates(u32),
    EndOfStack,
    JustReturn,
    JustReturnIfFirstFrameOtherwiseFp,
    OffsetSp(u16),
    OffsetSpAndRestoreBp(u16, i16),
    UseFramePointer,
    OffsetSpAndPopRegisters(u16, u8, u16),
}

// What is kept of a rule.
#[inline(always)]
fn kept_rule_x86_64(rule: UnwindRuleX86_64) -> KeptX86_64
    ensures { covered_by_x86_64 result ≡ Covered.Says rule }
{
    match rule {
        UnwindRuleX86_64::EndOfStack => KeptX86_64::EndOfStack,
        UnwindRuleX86_64::JustReturn => KeptX86_64::JustReturn,
        UnwindRuleX86_64::JustReturnIfFirstFrameOtherwiseFp =>
            KeptX86_64::JustReturnIfFirstFrameOtherwiseFp,
        UnwindRuleX86_64::OffsetSp { sp_offset_by_8: sp } => KeptX86_64::OffsetSp(sp),
        UnwindRuleX86_64::OffsetSpAndRestoreBp {
            sp_offset_by_8: sp,
            bp_storage_offset_from_sp_by_8: bp,
        } => KeptX86_64::OffsetSpAndRestoreBp(sp, bp),
        UnwindRuleX86_64::UseFramePointer => KeptX86_64::UseFramePointer,
        UnwindRuleX86_64::OffsetSpAndPopRegisters {
            sp_offset_by_8: sp,
            register_count: count,
            encoded_registers_to_pop: encoded,
        } => KeptX86_64::OffsetSpAndPopRegisters(sp, count, encoded),
    }
}

impl SameRule for UnwindRuleX86_64 {
    type Kept = KeptX86_64;
}

impl KeptRule for KeptX86_64 {
    type Rule = UnwindRuleX86_64;

    ghost covered_by = { covered_by_x86_64 };

    ghost kept_of = { kept_of_x86_64 };

    ghost keeps_no_more = { no_more_x86_64 };

    #[inline(always)]
    fn keep(covered: Covered<UnwindRuleX86_64>) -> KeptX86_64
        ensures { covered_by_x86_64 result ≡ covered }
    {
        match covered {
            Covered::Nothing => KeptX86_64::Nothing,
            Covered::Says(rule) => kept_rule_x86_64(rule),
            Covered::Evaluates(offset) => KeptX86_64::Evaluates(offset),
        }
    }

    #[inline(always)]
    fn is_same_kept(self, other: Self) -> bool {
        self == other
    }

    #[inline(always)]
    fn covered(self) -> Covered<UnwindRuleX86_64> {
        match self {
            KeptX86_64::Nothing => Covered::Nothing,
            KeptX86_64::Evaluates(offset) => Covered::Evaluates(offset),
            KeptX86_64::EndOfStack => Covered::Says(UnwindRuleX86_64::EndOfStack),
            KeptX86_64::JustReturn => Covered::Says(UnwindRuleX86_64::JustReturn),
            KeptX86_64::JustReturnIfFirstFrameOtherwiseFp => Covered::Says(
                UnwindRuleX86_64::JustReturnIfFirstFrameOtherwiseFp,
            ),
            KeptX86_64::OffsetSp(sp) => Covered::Says(UnwindRuleX86_64::OffsetSp {
                sp_offset_by_8: sp,
            }),
            KeptX86_64::OffsetSpAndRestoreBp(sp, bp) => Covered::Says(
                UnwindRuleX86_64::OffsetSpAndRestoreBp {
                    sp_offset_by_8: sp,
                    bp_storage_offset_from_sp_by_8: bp,
                },
            ),
            KeptX86_64::UseFramePointer => Covered::Says(UnwindRuleX86_64::UseFramePointer),
            KeptX86_64::OffsetSpAndPopRegisters(sp, count, encoded) => Covered::Says(
                UnwindRuleX86_64::OffsetSpAndPopRegisters {
                    sp_offset_by_8: sp,
                    register_count: count,
                    encoded_registers_to_pop: encoded,
                },
            ),
        }
    }
}

/// What tables of aarch64 keep: which rule is said with its numbers, or what else a table says.
#[derive(Clone, Copy, PartialEq, Eq)]
pub enum KeptAarch64 {
    Nothing,
    Evaluates(u32),
    NoOp,
    NoOpIfFirstFrameOtherwiseFp,
    OffsetSp(u16),
    OffsetSpIfFirstFrameOtherwiseStackEndsHere(u16),
    OffsetSpAndRestoreLr(u16, i16),
    OffsetSpAndRestoreFpAndLr(u16, i16, i16),
    UseFramePointer,
    UseFramepointerWithOffsets(u16, i16, i16),
}

// What is kept of a rule.
#[inline(always)]
fn kept_rule_aarch64(rule: UnwindRuleAarch64) -> KeptAarch64
    ensures { covered_by_aarch64 result ≡ Covered.Says rule }
{
    match rule {
        UnwindRuleAarch64::NoOp => KeptAarch64::NoOp,
        UnwindRuleAarch64::NoOpIfFirstFrameOtherwiseFp => KeptAarch64::NoOpIfFirstFrameOtherwiseFp,
        UnwindRuleAarch64::OffsetSp {
            sp_offset_by_16: sp,
        } => KeptAarch64::OffsetSp(sp),
        UnwindRuleAarch64::OffsetSpIfFirstFrameOtherwiseStackEndsHere {
            sp_offset_by_16: sp,
        } => KeptAarch64::OffsetSpIfFirstFrameOtherwiseStackEndsHere(sp),
        UnwindRuleAarch64::OffsetSpAndRestoreLr {
            sp_offset_by_16: sp,
            lr_storage_offset_from_sp_by_8: lr,
        } => KeptAarch64::OffsetSpAndRestoreLr(sp, lr),
        UnwindRuleAarch64::OffsetSpAndRestoreFpAndLr {
            sp_offset_by_16: sp,
            fp_storage_offset_from_sp_by_8: fp,
            lr_storage_offset_from_sp_by_8: lr,
        } => KeptAarch64::OffsetSpAndRestoreFpAndLr(sp, fp, lr),
        UnwindRuleAarch64::UseFramePointer => KeptAarch64::UseFramePointer,
        UnwindRuleAarch64::UseFramepointerWithOffsets {
            sp_offset_from_fp_by_8: sp,
            fp_storage_offset_from_fp_by_8: fp,
            lr_storage_offset_from_fp_by_8: lr,
        } => KeptAarch64::UseFramepointerWithOffsets(sp, fp, lr),
    }
}

impl SameRule for UnwindRuleAarch64 {
    type Kept = KeptAarch64;
}

impl KeptRule for KeptAarch64 {
    type Rule = UnwindRuleAarch64;

    ghost covered_by = { covered_by_aarch64 };

    ghost kept_of = { kept_of_aarch64 };

    ghost keeps_no_more = { no_more_aarch64 };

    #[inline(always)]
    fn keep(covered: Covered<UnwindRuleAarch64>) -> KeptAarch64
        ensures { covered_by_aarch64 result ≡ covered }
    {
        match covered {
            Covered::Nothing => KeptAarch64::Nothing,
            Covered::Says(rule) => kept_rule_aarch64(rule),
            Covered::Evaluates(offset) => KeptAarch64::Evaluates(offset),
        }
    }

    #[inline(always)]
    fn is_same_kept(self, other: Self) -> bool {
        self == other
    }

    #[inline(always)]
    fn covered(self) -> Covered<UnwindRuleAarch64> {
        match self {
            KeptAarch64::Nothing => Covered::Nothing,
            KeptAarch64::Evaluates(offset) => Covered::Evaluates(offset),
            KeptAarch64::NoOp => Covered::Says(UnwindRuleAarch64::NoOp),
            KeptAarch64::NoOpIfFirstFrameOtherwiseFp => Covered::Says(
                UnwindRuleAarch64::NoOpIfFirstFrameOtherwiseFp,
            ),
            KeptAarch64::OffsetSp(sp) => Covered::Says(UnwindRuleAarch64::OffsetSp {
                sp_offset_by_16: sp,
            }),
            KeptAarch64::OffsetSpIfFirstFrameOtherwiseStackEndsHere(sp) => Covered::Says(
                UnwindRuleAarch64::OffsetSpIfFirstFrameOtherwiseStackEndsHere {
                    sp_offset_by_16: sp,
                },
            ),
            KeptAarch64::OffsetSpAndRestoreLr(sp, lr) => Covered::Says(
                UnwindRuleAarch64::OffsetSpAndRestoreLr {
                    sp_offset_by_16: sp,
                    lr_storage_offset_from_sp_by_8: lr,
                },
            ),
            KeptAarch64::OffsetSpAndRestoreFpAndLr(sp, fp, lr) => Covered::Says(
                UnwindRuleAarch64::OffsetSpAndRestoreFpAndLr {
                    sp_offset_by_16: sp,
                    fp_storage_offset_from_sp_by_8: fp,
                    lr_storage_offset_from_sp_by_8: lr,
                },
            ),
            KeptAarch64::UseFramePointer => Covered::Says(UnwindRuleAarch64::UseFramePointer),
            KeptAarch64::UseFramepointerWithOffsets(sp, fp, lr) => Covered::Says(
                UnwindRuleAarch64::UseFramepointerWithOffsets {
                    sp_offset_from_fp_by_8: sp,
                    fp_storage_offset_from_fp_by_8: fp,
                    lr_storage_offset_from_fp_by_8: lr,
                },
            ),
        }
    }
}
