//! The registers and the unwind rules of aarch64.

mod arch;
mod laws;
mod unwind_rule;

pub use arch::ArchAarch64;
pub use framehop_registers::aarch64::{PtrAuthMask, UnwindRegsAarch64};
pub use laws::later_frames_raise_sp;
pub use unwind_rule::UnwindRuleAarch64;
