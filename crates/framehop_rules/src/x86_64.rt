//! The registers and the unwind rules of x86_64.

mod arch;
mod laws;
mod offset_or_pop;
mod pops;
mod sequence;
mod unwind_rule;

pub use arch::ArchX86_64;
pub use framehop_registers::x86_64::{
    PopList, Reg, UnwindRegsX86_64, decode, encode, lists_by_order_numbers,
};
pub use laws::{rules_raise_sp, rules_that_stay_are_refused};
pub use offset_or_pop::{OffsetOrPop, rules_of_sequences};
pub use unwind_rule::UnwindRuleX86_64;
