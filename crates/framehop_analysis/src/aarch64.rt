//! Prologues and epilogues of aarch64.

mod instruction_analysis;

pub use framehop_rules::aarch64::{ArchAarch64, UnwindRuleAarch64};
pub use instruction_analysis::{
    AddressingMode, Pair, epilogue_rules_return, offsets_have_one_answer, offsets_have_one_list,
    prologue_rules_return, unwind_rule_from_detected_epilogue, unwind_rule_from_detected_prologue,
    words_spell_one_instruction,
};
