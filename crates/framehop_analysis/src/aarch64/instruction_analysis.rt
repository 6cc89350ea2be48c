//! Analysis of instructions of aarch64.

mod branches;
mod epilogue;
mod fields;
mod laws;
mod look_back;
mod pair;
mod prologue;
mod word;

ghost use Rattle.framehop_analysis.specs.LookBackAarch64.{IsEpilogueRule};
ghost use Rattle.framehop_analysis.specs.PrologueAarch64.{IsPrologueRule};
ghost use Rattle.std.specs.Prelude.{take, drop};

use crate::instruction_analysis::InstructionAnalysis;
pub use epilogue::unwind_rule_from_detected_epilogue;
use framehop_rules::aarch64::{ArchAarch64, UnwindRuleAarch64};
pub use laws::{
    epilogue_rules_return, offsets_have_one_answer, offsets_have_one_list, prologue_rules_return,
    words_spell_one_instruction,
};
pub use pair::{AddressingMode, Pair};
pub use prologue::unwind_rule_from_detected_prologue;

impl InstructionAnalysis for ArchAarch64 {
    ghost IsPrologueRule = { λ text offset. IsPrologueRule (take offset text) (drop offset text) };

    ghost IsEpilogueRule = { IsEpilogueRule };

    fn rule_from_prologue_analysis(
        text_bytes: &[u8],
        pc_offset: usize,
    ) -> Option<UnwindRuleAarch64> {
        let (slice_from_start, slice_to_end) = text_bytes.split_at(pc_offset);
        unwind_rule_from_detected_prologue(slice_from_start, slice_to_end)
    }

    fn rule_from_epilogue_analysis(
        text_bytes: &[u8],
        pc_offset: usize,
    ) -> Option<UnwindRuleAarch64> {
        unwind_rule_from_detected_epilogue(text_bytes, pc_offset)
    }
}
