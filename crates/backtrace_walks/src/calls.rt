//! Calls to nowhere, as through a null pointer: which frame made the call.

ghost use Rattle.std.specs.Prelude.{◌≡◌, ℕ, Option};
ghost use Rattle.core_files.specs.MemoryViews.{word_of};
ghost use Rattle.backtrace_walks.specs.Calls.{called_aarch64, called_x86_64};

use core_files::Memory;
use framehop_registers::aarch64::UnwindRegsAarch64;
use framehop_registers::x86_64::UnwindRegsX86_64;
use framehop_whole_modules::WholeRegs;

/// Where a call was made.
#[derive(Clone, Copy, Debug, PartialEq, Eq)]
pub struct CallSite<R> {
    /// Where the call returns to.
    pub return_address: u64,
    /// The registers there.
    pub registers: R,
}

/// Where a call was made whose function has done nothing yet, on x86_64: the return address is at the stack pointer.
pub(crate) fn called_x86_64(
    memory: &Memory<'_, '_>,
    registers: &WholeRegs<UnwindRegsX86_64>,
) -> Option<CallSite<WholeRegs<UnwindRegsX86_64>>>
    ensures { result ≡ called_x86_64 (word_of memory.now) registers.now }
{
    let Some(caller_sp) = registers.regs.sp().checked_add(8) else {
        return None;
    };
    let Some(return_address) = memory.word(registers.regs.sp()) else {
        return None;
    };
    let mut caller = *registers;
    caller.regs.set_ip(return_address);
    caller.regs.set_sp(caller_sp);
    Some(CallSite {
        return_address,
        registers: caller,
    })
}

/// The same on aarch64: the return address is in the link register.
pub(crate) fn called_aarch64(
    registers: &WholeRegs<UnwindRegsAarch64>,
) -> Option<CallSite<WholeRegs<UnwindRegsAarch64>>>
    ensures { (words : ℕ → Option ℕ) → result ≡ called_aarch64 words registers.now }
{
    Some(CallSite {
        return_address: registers.regs.lr(),
        registers: *registers,
    })
}
