//! Laws of unwind rules, of what they are made of, and of calls that read the stack. The functions do nothing when the program
//! runs.

pub use framehop_registers::reads_in_order;
pub use framehop_rules::{
    Statement, addresses_and_words_that_answer, calls_over_words, one_read_over_words,
    parts_that_answer,
};

/// Laws of the rules of x86_64, of those that machine code spells, and of those of Windows' unwind codes and epilogs.
pub mod x86_64 {
    pub use framehop_analysis::x86_64::{
        epilogue_rules_return, offsets_have_one_answer, prologue_rules_return,
    };
    pub use framehop_compact::x86_64::known_helper_rules_pass_pushed_words;
    pub use framehop_pe::{rules_undo_one_by_one, rules_undo_prologs};
    pub use framehop_pe_codes::epilogs_are_read_as_spelled;
    pub use framehop_rules::x86_64::{
        lists_by_order_numbers, rules_of_sequences, rules_raise_sp, rules_that_stay_are_refused,
    };
}

/// Laws of the rules of aarch64, and of those that machine code spells.
pub mod aarch64 {
    pub use framehop_analysis::aarch64::{
        epilogue_rules_return, offsets_have_one_answer, offsets_have_one_list,
        prologue_rules_return, words_spell_one_instruction,
    };
    pub use framehop_rules::aarch64::later_frames_raise_sp;
}
