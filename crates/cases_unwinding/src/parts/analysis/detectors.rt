//! The four detectors, and numbers of their rules.

ghost use Rattle.std.specs.Prelude.{◌≤◌, length};

use framehop_analysis::aarch64::UnwindRuleAarch64;
use framehop_analysis::x86_64::UnwindRuleX86_64;
use framehop_analysis::{aarch64, x86_64};

/// A detector, which gives the sum of the numbers in its rule.
pub trait Detector {
    fn look(code: &[u8], offset: usize) -> Option<u64>
        requires { offset ≤ length code.now };
}

pub struct X86_64Prologue;

pub struct X86_64Epilogue;

pub struct Aarch64Prologue;

pub struct Aarch64Epilogue;

impl Detector for X86_64Prologue {
    fn look(code: &[u8], offset: usize) -> Option<u64> {
        number_x86_64(x86_64::unwind_rule_from_detected_prologue(code, offset))
    }
}

impl Detector for X86_64Epilogue {
    fn look(code: &[u8], offset: usize) -> Option<u64> {
        number_x86_64(x86_64::unwind_rule_from_detected_epilogue(code, offset))
    }
}

impl Detector for Aarch64Prologue {
    fn look(code: &[u8], offset: usize) -> Option<u64> {
        let (before, from) = code.split_at(offset);
        number_aarch64(aarch64::unwind_rule_from_detected_prologue(before, from))
    }
}

impl Detector for Aarch64Epilogue {
    fn look(code: &[u8], offset: usize) -> Option<u64> {
        number_aarch64(aarch64::unwind_rule_from_detected_epilogue(code, offset))
    }
}

// The sum of a rule's numbers.
#[inline(always)]
fn number_x86_64(rule: Option<UnwindRuleX86_64>) -> Option<u64> {
    match rule? {
        UnwindRuleX86_64::OffsetSp { sp_offset_by_8 } => Some(u64::from(sp_offset_by_8)),
        UnwindRuleX86_64::OffsetSpAndRestoreBp {
            sp_offset_by_8,
            bp_storage_offset_from_sp_by_8,
        } => {
            let bp_offset = bp_storage_offset_from_sp_by_8.unsigned_abs();
            Some(u64::from(sp_offset_by_8) + u64::from(bp_offset))
        }
        _ => Some(0),
    }
}

// The sum of a rule's numbers.
#[inline(always)]
fn number_aarch64(rule: Option<UnwindRuleAarch64>) -> Option<u64> {
    match rule? {
        UnwindRuleAarch64::OffsetSp { sp_offset_by_16 } => Some(u64::from(sp_offset_by_16)),
        UnwindRuleAarch64::OffsetSpAndRestoreLr {
            sp_offset_by_16,
            lr_storage_offset_from_sp_by_8,
        } => {
            let lr_offset = lr_storage_offset_from_sp_by_8.unsigned_abs();
            Some(u64::from(sp_offset_by_16) + u64::from(lr_offset))
        }
        UnwindRuleAarch64::OffsetSpAndRestoreFpAndLr {
            sp_offset_by_16,
            fp_storage_offset_from_sp_by_8,
            lr_storage_offset_from_sp_by_8,
        } => {
            let fp_offset = fp_storage_offset_from_sp_by_8.unsigned_abs();
            let lr_offset = lr_storage_offset_from_sp_by_8.unsigned_abs();
            Some(u64::from(sp_offset_by_16) + u64::from(fp_offset) + u64::from(lr_offset))
        }
        _ => Some(0),
    }
}
