//! The registers of threads, as walks begin with them and as they are shown.

ghost use Rattle.std.specs.Prelude.{◌≡◌, ◌∷◌, [], OnOk};
ghost use Rattle.backtrace_files.specs.Results.{Adds, IfOkAre};
ghost use Rattle.backtrace_text.specs.FrameViews.{register_view};
ghost use Rattle.backtrace_walks.specs.Registers.{mask_of_thread, registers_aarch64, registers_x86_64, shown_aarch64, shown_register, shown_x86_64, whole_aarch64, whole_x86_64, with_lettered, with_numbered};

use crate::numbered::{numbered_aarch64, numbered_x86_64};
use backtrace_text::RegisterValue;
use core_files::{PointerAuthenticationMasks, UserRegsAarch64, UserRegsX86_64};
use framehop_registers::aarch64::{PtrAuthMask, UnwindRegsAarch64};
use framehop_registers::x86_64::{Reg, UnwindRegsX86_64};
use framehop_whole_modules::WholeRegs;
use std::alloc::{AllocError, Global};

/// Where the walk over a thread's stack begins.
#[derive(Clone, Copy, Debug, PartialEq, Eq)]
pub struct ThreadStart<R> {
    /// The instruction pointer.
    pub pc: u64,
    /// The registers there.
    pub registers: R,
}

// Sets RAX, RDX, RCX, RBX, RSI and RDI to those of a thread.
fn set_lettered(registers: &mut UnwindRegsX86_64, user: &UserRegsX86_64)
    ensures { registers.new ≡ with_lettered registers.old user.now }
{
    registers.set(Reg::RAX, user.rax);
    registers.set(Reg::RDX, user.rdx);
    registers.set(Reg::RCX, user.rcx);
    registers.set(Reg::RBX, user.rbx);
    registers.set(Reg::RSI, user.rsi);
    registers.set(Reg::RDI, user.rdi);
}

// Sets R8 to R15 to those of a thread.
fn set_numbered(registers: &mut UnwindRegsX86_64, user: &UserRegsX86_64)
    ensures { registers.new ≡ with_numbered registers.old user.now }
{
    registers.set(Reg::R8, user.r8);
    registers.set(Reg::R9, user.r9);
    registers.set(Reg::R10, user.r10);
    registers.set(Reg::R11, user.r11);
    registers.set(Reg::R12, user.r12);
    registers.set(Reg::R13, user.r13);
    registers.set(Reg::R14, user.r14);
    registers.set(Reg::R15, user.r15);
}

// The registers of a thread on x86_64 that rules carry.
fn registers_x86_64(user: &UserRegsX86_64) -> UnwindRegsX86_64
    ensures { result ≡ registers_x86_64 user.now }
{
    let mut registers = UnwindRegsX86_64::new(user.rip, user.rsp, user.rbp);
    set_lettered(&mut registers, user);
    set_numbered(&mut registers, user);
    registers
}

/// All registers of a thread on x86_64.
pub(crate) fn whole_x86_64(user: &UserRegsX86_64) -> WholeRegs<UnwindRegsX86_64>
    ensures { result ≡ whole_x86_64 user.now }
{
    WholeRegs::with_others(registers_x86_64(user), numbered_x86_64(user))
}

// The bits of a code address of a thread that aren't its pointer authentication code.
fn mask_of_thread(masks: Option<PointerAuthenticationMasks>) -> PtrAuthMask
    ensures { result ≡ mask_of_thread masks }
{
    match masks {
        Some(masks) => PtrAuthMask(u64::MAX - masks.instruction_mask),
        None => PtrAuthMask::new_no_strip(),
    }
}

// The registers of a thread on aarch64 that rules carry, with the mask that its core says.
fn registers_aarch64(
    user: &UserRegsAarch64,
    masks: Option<PointerAuthenticationMasks>,
) -> UnwindRegsAarch64
    ensures { result ≡ registers_aarch64 user.now masks }
{
    let mask = mask_of_thread(masks);
    UnwindRegsAarch64::new_with_ptr_auth_mask(mask, user.regs[30], user.sp, user.regs[29])
}

/// All registers of a thread on aarch64, with the mask that its core says.
pub(crate) fn whole_aarch64(
    user: &UserRegsAarch64,
    masks: Option<PointerAuthenticationMasks>,
) -> WholeRegs<UnwindRegsAarch64>
    ensures { result ≡ whole_aarch64 user.now masks }
{
    WholeRegs::with_others(registers_aarch64(user, masks), numbered_aarch64(user))
}

// Adds a register that is shown.
fn push_register(
    registers: &mut Vec<RegisterValue>,
    name: &'static str,
    value: u64,
) -> Result<(), AllocError>
    ensures { OnOk result (Adds register_view registers.old registers.new
        (shown_register name.now value ∷ [])) }
{
    registers.push(RegisterValue { name, value })?;
    Ok(())
}

/// The registers of a frame that each step gives, on x86_64.
pub(crate) fn shown_x86_64(
    alloc: Global,
    registers: &UnwindRegsX86_64,
) -> Result<Vec<RegisterValue>, AllocError>
    ensures { IfOkAre register_view result (shown_x86_64 registers.now) }
{
    let mut shown = Vec::new(alloc);
    push_register(&mut shown, "rip", registers.ip())?;
    push_register(&mut shown, "rsp", registers.sp())?;
    push_register(&mut shown, "rbp", registers.bp())?;
    Ok(shown)
}

/// The registers of a frame that each step gives, on aarch64.
pub(crate) fn shown_aarch64(
    alloc: Global,
    registers: &UnwindRegsAarch64,
) -> Result<Vec<RegisterValue>, AllocError>
    ensures { IfOkAre register_view result (shown_aarch64 registers.now) }
{
    let mut shown = Vec::new(alloc);
    push_register(&mut shown, "sp", registers.sp())?;
    push_register(&mut shown, "x29", registers.fp())?;
    push_register(&mut shown, "x30", registers.lr())?;
    Ok(shown)
}
