//! Compact unwind info of x86_64.

mod frameless;
mod laws;
mod macho;
mod opcode;
mod saved_registers;

pub use framehop_rules::x86_64::{ArchX86_64, UnwindRuleX86_64};
pub use laws::known_helper_rules_pass_pushed_words;
pub use opcode::OpcodeX86_64;
pub use saved_registers::RegisterNameX86_64;
