//! Which registers are known of those that steps by rules carry.

ghost use Rattle.std.specs.Prelude.{◌≡◌, ◌≢◌};
ghost use Rattle.framehop_rules.specs.declared.aarch64.unwind_rule.UnwindRuleAarch64.TheVariants.{NoOp};
ghost use Rattle.framehop_rules.specs.declared.x86_64.unwind_rule.UnwindRuleX86_64.TheVariants.{EndOfStack};
ghost use Rattle.framehop_whole_steps.specs.Carrying.{Carrying, aarch64, known_counter, known_link, known_pointer, x86_64};

use dwarf_constants::Register;
use framehop_expressions::Architecture;
use framehop_registers::aarch64::{PtrAuthMask, UnwindRegsAarch64};
use framehop_registers::x86_64::UnwindRegsX86_64;
use framehop_rules::Arch;
use framehop_rules::aarch64::ArchAarch64;
use framehop_rules::x86_64::ArchX86_64;

// Of x86_64, by their DWARF numbers (System V ABI for AMD64, figure 3.36): the return address is the caller's RIP.
const RBP: u16 = 6;

const RSP: u16 = 7;

const RIP: u16 = 16;

// Of aarch64 (DWARF for the Arm 64-bit Architecture, 4.1).
const X29: u16 = 29;

const X30: u16 = 30;

const SP: u16 = 31;

const PC: u16 = 32;

/// An architecture, and what is known of a frame by the registers that steps by rules carry.
pub trait CarriesRegisters: Arch {
    ghost carrying: { Carrying Self.UnwindRegs };

    ghost other_rule: { Self.UnwindRule };

    /// The architecture.
    fn architecture() -> Architecture
        ensures { result ≡ carrying.architecture };

    /// The bits of a code address that aren't its authentication code.
    fn mask(regs: &Self::UnwindRegs) -> PtrAuthMask
        ensures { result ≡ carrying.mask regs.now };

    /// The value of a register in a first or a later frame, if it is known by these.
    fn carried(is_first_frame: bool, regs: &Self::UnwindRegs, register: Register) -> Option<u64>
        ensures { result ≡ carrying.carried is_first_frame regs.now register.0 };

    /// Makes the registers those of a caller with this return address, stack pointer and frame pointer.
    fn set_frame(regs: &mut Self::UnwindRegs, return_address: u64, sp: u64, fp: u64)
        ensures { regs.new ≡ carrying.with_frame regs.old return_address sp fp };

    /// The DWARF number of the frame pointer.
    fn frame_pointer_number() -> u16
        ensures { result ≡ carrying.frame_pointer };

    /// There are two rules at least.
    ghost two_rules: { other_rule ≢ Self.UnwindRule.fallback };
}

// A frame pointer, which is taken to be known unless it is 0.
fn known_pointer(value: u64) -> Option<u64>
    ensures { result ≡ known_pointer value }
{
    if value == 0 { None } else { Some(value) }
}

impl CarriesRegisters for ArchX86_64 {
    ghost carrying = { x86_64 };

    ghost other_rule = { EndOfStack };

    ghost two_rules = { λ same. Prim.cc same };

    fn architecture() -> Architecture {
        Architecture::X86_64
    }

    fn mask(_regs: &UnwindRegsX86_64) -> PtrAuthMask {
        PtrAuthMask::new_no_strip()
    }

    fn carried(_is_first_frame: bool, regs: &UnwindRegsX86_64, register: Register) -> Option<u64> {
        if register.0 == RIP {
            return Some(regs.ip());
        }
        if register.0 == RSP {
            return Some(regs.sp());
        }
        if register.0 == RBP {
            return known_pointer(regs.bp());
        }
        None
    }

    fn set_frame(regs: &mut UnwindRegsX86_64, return_address: u64, sp: u64, fp: u64) {
        regs.set_ip(return_address);
        regs.set_sp(sp);
        regs.set_bp(fp);
    }

    fn frame_pointer_number() -> u16 {
        RBP
    }
}

// The link register of a frame: a call has written that of a later one.
fn known_link(is_first_frame: bool, value: u64) -> Option<u64>
    ensures { result ≡ known_link is_first_frame value }
{
    if is_first_frame { Some(value) } else { None }
}

// The program counter of a frame: that of a later one is the return address, which the link register has.
fn known_counter(is_first_frame: bool, value: u64) -> Option<u64>
    ensures { result ≡ known_counter is_first_frame value }
{
    if is_first_frame { None } else { Some(value) }
}

impl CarriesRegisters for ArchAarch64 {
    ghost carrying = { aarch64 };

    ghost other_rule = { NoOp };

    ghost two_rules = { λ same. Prim.cc same };

    fn architecture() -> Architecture {
        Architecture::Aarch64
    }

    fn mask(regs: &UnwindRegsAarch64) -> PtrAuthMask {
        regs.lr_mask()
    }

    fn carried(is_first_frame: bool, regs: &UnwindRegsAarch64, register: Register) -> Option<u64> {
        if register.0 == SP {
            return Some(regs.sp());
        }
        if register.0 == X29 {
            return known_pointer(regs.fp());
        }
        if register.0 == X30 {
            return known_link(is_first_frame, regs.lr());
        }
        if register.0 == PC {
            return known_counter(is_first_frame, regs.lr());
        }
        None
    }

    fn set_frame(regs: &mut UnwindRegsAarch64, return_address: u64, sp: u64, fp: u64) {
        regs.set_lr(return_address);
        regs.set_sp(sp);
        regs.set_fp(fp);
    }

    fn frame_pointer_number() -> u16 {
        X29
    }
}
