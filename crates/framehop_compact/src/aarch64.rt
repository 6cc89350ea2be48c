//! Compact unwind info of aarch64.

mod macho;
mod opcode;

pub use framehop_rules::aarch64::{ArchAarch64, UnwindRuleAarch64};
pub use opcode::OpcodeArm64;
