//! Registers, as callers have them.

ghost use Rattle.std.specs.Prelude.{◌≡◌, length};
ghost use Rattle.framehop_calls.specs.Registers.{from_aarch64, from_x86_64, to_aarch64, to_x86_64};

use crate::sample_steps::GivenRegisters;
use framehop_registers::aarch64::{PtrAuthMask, UnwindRegsAarch64};
use framehop_registers::x86_64::{Reg, UnwindRegsX86_64};

/// The instruction pointer of a frame on x86_64, and its general registers by their DWARF numbers.
#[repr(C)]
#[derive(Clone, Copy)]
pub struct RegistersX86_64 {
    /// The instruction pointer.
    pub ip: u64,
    /// The general registers.
    pub general: [u64; 16],
}

/// The registers of a frame on aarch64, with the mask of code addresses.
#[repr(C)]
#[derive(Clone, Copy)]
pub struct RegistersAarch64 {
    /// The bits of a code address that are not its authentication code.
    pub lr_mask: u64,
    /// The link register, x30.
    pub lr: u64,
    /// The stack pointer.
    pub sp: u64,
    /// The frame pointer, x29.
    pub fp: u64,
}

impl RegistersX86_64 {
    // All sixteen general registers are there, as proofs need it.
    #[inline(always)]
    fn has_all(&self)
        ensures { length self.now.general ≡ 16 }
    {}

    /// The registers as steps have them.
    #[inline(always)]
    pub fn to_regs(&self) -> UnwindRegsX86_64
        ensures { result ≡ to_x86_64 self.now }
    {
        self.has_all();
        let mut regs = UnwindRegsX86_64::new(self.ip, self.general[7], self.general[6]);
        regs.set(Reg::RAX, self.general[0]);
        regs.set(Reg::RDX, self.general[1]);
        regs.set(Reg::RCX, self.general[2]);
        regs.set(Reg::RBX, self.general[3]);
        regs.set(Reg::RSI, self.general[4]);
        regs.set(Reg::RDI, self.general[5]);
        regs.set(Reg::R8, self.general[8]);
        regs.set(Reg::R9, self.general[9]);
        regs.set(Reg::R10, self.general[10]);
        regs.set(Reg::R11, self.general[11]);
        regs.set(Reg::R12, self.general[12]);
        regs.set(Reg::R13, self.general[13]);
        regs.set(Reg::R14, self.general[14]);
        regs.set(Reg::R15, self.general[15]);
        regs
    }

    /// The registers as callers have them.
    #[inline(always)]
    pub fn of(regs: &UnwindRegsX86_64) -> Self
        ensures { result ≡ from_x86_64 regs.now }
    {
        regs.has_all_registers();
        RegistersX86_64 {
            ip: regs.ip(),
            general: [
                regs.get(Reg::RAX),
                regs.get(Reg::RDX),
                regs.get(Reg::RCX),
                regs.get(Reg::RBX),
                regs.get(Reg::RSI),
                regs.get(Reg::RDI),
                regs.get(Reg::RBP),
                regs.get(Reg::RSP),
                regs.get(Reg::R8),
                regs.get(Reg::R9),
                regs.get(Reg::R10),
                regs.get(Reg::R11),
                regs.get(Reg::R12),
                regs.get(Reg::R13),
                regs.get(Reg::R14),
                regs.get(Reg::R15),
            ],
        }
    }
}

impl GivenRegisters<UnwindRegsX86_64> for RegistersX86_64 {
    ghost given = { λ registers. to_x86_64 registers };

    fn registers(&self) -> UnwindRegsX86_64 {
        self.to_regs()
    }
}

impl GivenRegisters<UnwindRegsAarch64> for RegistersAarch64 {
    ghost given = { λ registers. to_aarch64 registers };

    fn registers(&self) -> UnwindRegsAarch64 {
        self.to_regs()
    }
}

impl RegistersAarch64 {
    /// The registers as steps have them: the link register is stripped.
    #[inline(always)]
    pub fn to_regs(&self) -> UnwindRegsAarch64
        ensures { result ≡ to_aarch64 self.now }
    {
        let mask = PtrAuthMask(self.lr_mask);
        UnwindRegsAarch64::new_with_ptr_auth_mask(mask, self.lr, self.sp, self.fp)
    }

    /// The registers as callers have them.
    #[inline(always)]
    pub fn of(regs: &UnwindRegsAarch64) -> Self
        ensures { result ≡ from_aarch64 regs.now }
    {
        RegistersAarch64 {
            lr_mask: regs.lr_mask().0,
            lr: regs.lr(),
            sp: regs.sp(),
            fp: regs.fp(),
        }
    }
}
