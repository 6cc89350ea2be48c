//! The registers that a step of a walk carries.

ghost use Rattle.std.specs.Prelude.{◌≡◌, ◌≢◌};
ghost use Rattle.framehop_registers.specs.Registers.{HasAllRegisters, ip_of, register_of, sp_of, bp_of, with_ip, with_register, new_registers};
ghost use Rattle.framehop_registers.specs.declared.x86_64.unwindregs.Reg.{Reg};
ghost use Rattle.framehop_registers.specs.declared.x86_64.unwindregs.Reg.TheVariants.{RSP, RBP};

use crate::display_utils::HexNum;
use std::fmt;
use std::fmt::Debug;

/// A general register of x86_64, in the order of the DWARF numbers (System V ABI, figure 3.36).
#[derive(Clone, Copy, Debug, PartialEq, Eq, PartialOrd, Ord, Hash)]
pub enum Reg {
    RAX,
    RDX,
    RCX,
    RBX,
    RSI,
    RDI,
    RBP,
    RSP,
    R8,
    R9,
    R10,
    R11,
    R12,
    R13,
    R14,
    R15,
}

/// The instruction pointer and the sixteen general registers of a frame.
#[derive(Clone, Copy, PartialEq, Eq)]
pub struct UnwindRegsX86_64 {
    ip: u64,
    regs: [u64; 16],
}

impl UnwindRegsX86_64 {
    /// The registers with these three values and 0 in all others.
    pub fn new(ip: u64, sp: u64, bp: u64) -> Self
        ensures { result ≡ new_registers ip sp bp }
    {
        let mut registers = UnwindRegsX86_64 { ip, regs: [0; 16] };
        registers.set_sp(sp);
        registers.set_bp(bp);
        registers
    }

    /// All sixteen general registers are there, as proofs need it. It does nothing when the program
    /// runs.
    #[inline(always)]
    pub fn has_all_registers(&self)
        ensures { HasAllRegisters self.now }
    {}

    /// The value of a general register.
    pub fn get(&self, reg: Reg) -> u64
        ensures { result ≡ register_of self.now reg }
    {
        self.regs[reg as usize]
    }

    /// Gives a general register another value.
    pub fn set(&mut self, reg: Reg, value: u64)
        ensures { self.new ≡ with_register self.old reg value }
    {
        self.regs[reg as usize] = value;
    }

    /// The instruction pointer.
    pub fn ip(&self) -> u64
        ensures { result ≡ ip_of self.now }
    {
        self.ip
    }

    /// Gives the instruction pointer another value.
    pub fn set_ip(&mut self, ip: u64)
        ensures { self.new ≡ with_ip self.old ip }
    {
        self.ip = ip;
    }

    /// The stack pointer, RSP.
    pub fn sp(&self) -> u64
        ensures { result ≡ sp_of self.now }
    {
        self.get(Reg::RSP)
    }

    /// Gives the stack pointer another value.
    pub fn set_sp(&mut self, sp: u64)
        ensures { self.new ≡ with_register self.old RSP sp }
    {
        self.set(Reg::RSP, sp);
    }

    /// The frame pointer, RBP.
    pub fn bp(&self) -> u64
        ensures { result ≡ bp_of self.now }
    {
        self.get(Reg::RBP)
    }

    /// Gives the frame pointer another value.
    pub fn set_bp(&mut self, bp: u64)
        ensures { self.new ≡ with_register self.old RBP bp }
    {
        self.set(Reg::RBP, bp);
    }
}

impl Debug for UnwindRegsX86_64 {
    fn fmt<W: fmt::Write>(&self, f: &mut fmt::Formatter<W>) -> fmt::Result {
        f.debug_struct("UnwindRegsX86_64")
            .field("ip", &HexNum(self.ip()))
            .field("rax", &HexNum(self.get(Reg::RAX)))
            .field("rdx", &HexNum(self.get(Reg::RDX)))
            .field("rcx", &HexNum(self.get(Reg::RCX)))
            .field("rbx", &HexNum(self.get(Reg::RBX)))
            .field("rsi", &HexNum(self.get(Reg::RSI)))
            .field("rdi", &HexNum(self.get(Reg::RDI)))
            .field("rbp", &HexNum(self.get(Reg::RBP)))
            .field("rsp", &HexNum(self.get(Reg::RSP)))
            .field("r8", &HexNum(self.get(Reg::R8)))
            .field("r9", &HexNum(self.get(Reg::R9)))
            .field("r10", &HexNum(self.get(Reg::R10)))
            .field("r11", &HexNum(self.get(Reg::R11)))
            .field("r12", &HexNum(self.get(Reg::R12)))
            .field("r13", &HexNum(self.get(Reg::R13)))
            .field("r14", &HexNum(self.get(Reg::R14)))
            .field("r15", &HexNum(self.get(Reg::R15)))
            .finish()
    }
}
