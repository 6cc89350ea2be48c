//! The architecture aarch64.

use crate::aarch64::unwind_rule::UnwindRuleAarch64;
use crate::arch::Arch;
use framehop_registers::aarch64::UnwindRegsAarch64;

/// The architecture aarch64.
pub struct ArchAarch64;

impl Arch for ArchAarch64 {
    type UnwindRegs = UnwindRegsAarch64;

    type UnwindRule = UnwindRuleAarch64;
}
