//! The unwind rules of `framehop`, their execution, and the cache that keeps them. It hands on the
//! types of `framehop_registers`.
//!
//! An unwind rule is one step of a stack walk in a compact form: how the caller's registers follow
//! from those of a frame and from words of the stack. What each rule means is in
//! `specs/RuleMeaning.antt`; `exec` returns it for every rule, register file and stack.
#![tactic(auto)]

pub mod aarch64;
mod arch;
mod outcome_laws;
mod rule_cache;
mod unwind_result;
mod unwind_rule;
pub mod x86_64;

pub use arch::Arch;
pub use framehop_registers::{
    AddSigned, Error, FrameAddress, HexNum, Statement, calls_over_words, checked_add_signed,
    one_read_over_words, wrapping_add_signed,
};
pub use outcome_laws::{addresses_and_words_that_answer, parts_that_answer};
pub use rule_cache::{CacheHandle, CacheOccupancy, CacheResult, CacheStats, RuleCache, SlotCount};
pub use unwind_result::UnwindResult;
pub use unwind_rule::UnwindRule;
