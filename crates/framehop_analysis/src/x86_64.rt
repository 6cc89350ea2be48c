//! Prologues and epilogues of x86_64.

mod instruction_analysis;

pub use framehop_rules::x86_64::{ArchX86_64, UnwindRuleX86_64};
pub use instruction_analysis::{
    epilogue_rules_return, offsets_have_one_answer, prologue_rules_return,
    unwind_rule_from_detected_epilogue, unwind_rule_from_detected_prologue,
};
