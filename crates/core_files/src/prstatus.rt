//! `NT_PRSTATUS`: a thread and its registers.

ghost use Rattle.std.specs.Prelude.{◌≡◌, ◌≤◌, ◌<◌, ◌+◌, ◌*◌, length};
ghost use Rattle.core_files.specs.Bytes.{each_from};
ghost use Rattle.core_files.specs.Prstatus.{pr_reg, prstatus_size, user_regs_x86_64, user_regs_aarch64, prstatus_x86_64, prstatus_aarch64};

use crate::bytes::{u16_at, u32_at, u64_at};
use crate::error::DescriptorError;
use crate::registers::{ThreadRegisters, UserRegsAarch64, UserRegsX86_64};

/// What an `NT_PRSTATUS` says of a thread.
#[derive(Debug, Clone, Copy, PartialEq, Eq)]
pub struct Prstatus {
    /// The thread's id (`pr_pid`).
    pub pid: u32,
    /// The signal that it got, or 0 (`pr_cursig`).
    pub signal: u16,
    /// Its registers (`pr_reg`).
    pub registers: ThreadRegisters,
}

const PR_CURSIG: usize = 12;

const PR_PID: usize = 32;

const PR_REG: usize = 112;

// The size of `struct elf_prstatus` on x86_64, with 27 registers, and on aarch64, with 34.
const SIZE_X86_64: usize = 336;

const SIZE_AARCH64: usize = 392;

// A register by its number in `pr_reg`.
fn register(descriptor: &[u8], number: usize) -> u64
    requires { prstatus_size (number + 1) ≤ length descriptor.now }
    ensures { result ≡ pr_reg descriptor.now number }
{
    u64_at(descriptor, PR_REG + 8 * number)
}

// The registers of x86_64.
fn user_regs_x86_64(descriptor: &[u8]) -> UserRegsX86_64
    requires { length descriptor.now ≡ prstatus_size 27 }
    ensures { result ≡ user_regs_x86_64 descriptor.now }
{
    UserRegsX86_64 {
        r15: register(descriptor, 0),
        r14: register(descriptor, 1),
        r13: register(descriptor, 2),
        r12: register(descriptor, 3),
        rbp: register(descriptor, 4),
        rbx: register(descriptor, 5),
        r11: register(descriptor, 6),
        r10: register(descriptor, 7),
        r9: register(descriptor, 8),
        r8: register(descriptor, 9),
        rax: register(descriptor, 10),
        rcx: register(descriptor, 11),
        rdx: register(descriptor, 12),
        rsi: register(descriptor, 13),
        rdi: register(descriptor, 14),
        orig_rax: register(descriptor, 15),
        rip: register(descriptor, 16),
        cs: register(descriptor, 17),
        eflags: register(descriptor, 18),
        rsp: register(descriptor, 19),
        ss: register(descriptor, 20),
        fs_base: register(descriptor, 21),
        gs_base: register(descriptor, 22),
        ds: register(descriptor, 23),
        es: register(descriptor, 24),
        fs: register(descriptor, 25),
        gs: register(descriptor, 26),
    }
}

// The registers x0 to x30.
fn general_registers(descriptor: &[u8]) -> [u64; 31]
    requires { length descriptor.now ≡ prstatus_size 34 }
    ensures { result ≡ each_from (pr_reg descriptor.now) 0 31 }
{
    let mut regs = [0; 31];
    for number in 0..31 {
        regs[number] = register(descriptor, number);
    }
    regs
}

// The registers of aarch64.
fn user_regs_aarch64(descriptor: &[u8]) -> UserRegsAarch64
    requires { length descriptor.now ≡ prstatus_size 34 }
    ensures { result ≡ user_regs_aarch64 descriptor.now }
{
    UserRegsAarch64 {
        regs: general_registers(descriptor),
        sp: register(descriptor, 31),
        pc: register(descriptor, 32),
        pstate: register(descriptor, 33),
    }
}

/// The thread that the descriptor of an `NT_PRSTATUS` says on x86_64. Fails with `PrstatusSize` if it hasn't 336 bytes.
pub fn read_prstatus_x86_64(descriptor: &[u8]) -> Result<Prstatus, DescriptorError>
    ensures { result ≡ prstatus_x86_64 descriptor.now }
{
    if descriptor.len() != SIZE_X86_64 {
        return Err(DescriptorError::PrstatusSize);
    }
    Ok(Prstatus {
        pid: u32_at(descriptor, PR_PID),
        signal: u16_at(descriptor, PR_CURSIG),
        registers: ThreadRegisters::X86_64(user_regs_x86_64(descriptor)),
    })
}

/// The same on aarch64. Fails with `PrstatusSize` if it hasn't 392 bytes.
pub fn read_prstatus_aarch64(descriptor: &[u8]) -> Result<Prstatus, DescriptorError>
    ensures { result ≡ prstatus_aarch64 descriptor.now }
{
    if descriptor.len() != SIZE_AARCH64 {
        return Err(DescriptorError::PrstatusSize);
    }
    Ok(Prstatus {
        pid: u32_at(descriptor, PR_PID),
        signal: u16_at(descriptor, PR_CURSIG),
        registers: ThreadRegisters::Aarch64(user_regs_aarch64(descriptor)),
    })
}
