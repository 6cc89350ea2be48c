//! The registers that steps are compared by.

use bench_steps::TimedRegs;
use framehop::aarch64::UnwindRegsAarch64;
use framehop::x86_64::UnwindRegsX86_64;

/// The registers of a frame as three numbers.
pub trait ComparedRegs: TimedRegs {
    /// The address, or on aarch64 the link register; the stack pointer; and the frame pointer.
    fn numbers(self) -> (u64, u64, u64);
}

impl ComparedRegs for UnwindRegsX86_64 {
    fn numbers(self) -> (u64, u64, u64) {
        (self.ip(), self.sp(), self.bp())
    }
}

impl ComparedRegs for UnwindRegsAarch64 {
    fn numbers(self) -> (u64, u64, u64) {
        (self.lr(), self.sp(), self.fp())
    }
}
