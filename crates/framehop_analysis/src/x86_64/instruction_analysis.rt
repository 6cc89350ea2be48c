//! Analysis of instructions of x86_64.

mod epilogue;
mod laws;
mod prologue;

ghost use Rattle.framehop_analysis.specs.Epilogue.{IsEpilogueRule};
ghost use Rattle.framehop_analysis.specs.Prologue.{IsPrologueRule};

use crate::instruction_analysis::InstructionAnalysis;
pub use epilogue::unwind_rule_from_detected_epilogue;
use framehop_rules::x86_64::{ArchX86_64, UnwindRuleX86_64};
pub use laws::{epilogue_rules_return, offsets_have_one_answer, prologue_rules_return};
pub use prologue::unwind_rule_from_detected_prologue;

impl InstructionAnalysis for ArchX86_64 {
    ghost IsPrologueRule = { IsPrologueRule };

    ghost IsEpilogueRule = { IsEpilogueRule };

    fn rule_from_prologue_analysis(
        text_bytes: &[u8],
        pc_offset: usize,
    ) -> Option<UnwindRuleX86_64> {
        unwind_rule_from_detected_prologue(text_bytes, pc_offset)
    }

    fn rule_from_epilogue_analysis(
        text_bytes: &[u8],
        pc_offset: usize,
    ) -> Option<UnwindRuleX86_64> {
        unwind_rule_from_detected_epilogue(text_bytes, pc_offset)
    }
}
