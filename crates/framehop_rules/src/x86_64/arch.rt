//! The architecture x86_64.

use crate::arch::Arch;
use crate::x86_64::unwind_rule::UnwindRuleX86_64;
use framehop_registers::x86_64::UnwindRegsX86_64;

/// The architecture x86_64.
pub struct ArchX86_64;

impl Arch for ArchX86_64 {
    type UnwindRegs = UnwindRegsX86_64;

    type UnwindRule = UnwindRuleX86_64;
}
