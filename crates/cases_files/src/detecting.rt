//! The detectors of each architecture.

use framehop_analysis::InstructionAnalysis;
use framehop_analysis::aarch64::{self, ArchAarch64, UnwindRuleAarch64};
use framehop_analysis::x86_64::{self, ArchX86_64, UnwindRuleX86_64};

/// An architecture, with the functions by which its rules are found.
pub trait Detecting: InstructionAnalysis {
    ghost use Rattle.std.specs.Prelude.{◌≤◌, length};

    /// The rule of the prologue at the offset, if there is one.
    fn detected_prologue(code: &[u8], offset: usize) -> Option<Self::UnwindRule>
        requires { offset ≤ length code.now };

    /// The rule of the epilogue at the offset, if there is one.
    fn detected_epilogue(code: &[u8], offset: usize) -> Option<Self::UnwindRule>
        requires { offset ≤ length code.now };
}

impl Detecting for ArchX86_64 {
    fn detected_prologue(code: &[u8], offset: usize) -> Option<UnwindRuleX86_64> {
        x86_64::unwind_rule_from_detected_prologue(code, offset)
    }

    fn detected_epilogue(code: &[u8], offset: usize) -> Option<UnwindRuleX86_64> {
        x86_64::unwind_rule_from_detected_epilogue(code, offset)
    }
}

impl Detecting for ArchAarch64 {
    fn detected_prologue(code: &[u8], offset: usize) -> Option<UnwindRuleAarch64> {
        let (slice_from_start, slice_to_end) = code.split_at(offset);
        aarch64::unwind_rule_from_detected_prologue(slice_from_start, slice_to_end)
    }

    fn detected_epilogue(code: &[u8], offset: usize) -> Option<UnwindRuleAarch64> {
        aarch64::unwind_rule_from_detected_epilogue(code, offset)
    }
}
