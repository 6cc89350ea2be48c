//! The registers of threads by their DWARF numbers.

ghost use Rattle.std.specs.Prelude.{◌≡◌, slice_get};
ghost use Rattle.backtrace_walks.specs.Numbered.{numbered, numbered_aarch64, numbered_x86_64};

use core_files::{UserRegsAarch64, UserRegsX86_64};
use framehop_whole_modules::REGISTERS;

/// The value at a place of a list, if it has one.
pub(crate) fn value_at(values: &[u64], place: usize) -> Option<u64>
    ensures { result ≡ slice_get values.now place }
{
    values.get(place).copied()
}

// Values by the numbers of their registers, from 0 on. No other is known.
fn numbered(values: &[u64]) -> [Option<u64>; REGISTERS]
    ensures { result ≡ numbered values.now }
{
    let mut known = [None; REGISTERS];
    for number in 0..REGISTERS {
        known[number] = value_at(values, number);
    }
    known
}

/// The registers of a thread on x86_64 by their numbers.
pub(crate) fn numbered_x86_64(user: &UserRegsX86_64) -> [Option<u64>; REGISTERS]
    ensures { result ≡ numbered_x86_64 user.now }
{
    numbered(&[
        user.rax, user.rdx, user.rcx, user.rbx, user.rsi, user.rdi, user.rbp, user.rsp, user.r8,
        user.r9, user.r10, user.r11, user.r12, user.r13, user.r14, user.r15, user.rip,
    ])
}

/// The same on aarch64.
pub(crate) fn numbered_aarch64(user: &UserRegsAarch64) -> [Option<u64>; REGISTERS]
    ensures { result ≡ numbered_aarch64 user.now }
{
    let mut known = numbered(&user.regs);
    known[31] = Some(user.sp);
    known[32] = Some(user.pc);
    known
}
