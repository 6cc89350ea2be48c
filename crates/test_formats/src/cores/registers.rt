//! The registers of threads, in the order of `pr_reg`.

use core_files::{ThreadRegisters, UserRegsAarch64, UserRegsX86_64};
use std::alloc::{AllocError, Global};

fn push_x86_64(values: &mut Vec<u64>, regs: &UserRegsX86_64) -> Result<(), AllocError> {
    values.extend_from_slice(&[regs.r15, regs.r14, regs.r13, regs.r12, regs.rbp, regs.rbx])?;
    values.extend_from_slice(&[regs.r11, regs.r10, regs.r9, regs.r8, regs.rax, regs.rcx])?;
    values.extend_from_slice(&[regs.rdx, regs.rsi, regs.rdi, regs.orig_rax, regs.rip])?;
    values.extend_from_slice(&[regs.cs, regs.eflags, regs.rsp, regs.ss, regs.fs_base])?;
    values.extend_from_slice(&[regs.gs_base, regs.ds, regs.es, regs.fs, regs.gs])
}

fn push_aarch64(values: &mut Vec<u64>, regs: &UserRegsAarch64) -> Result<(), AllocError> {
    values.extend_from_slice(&regs.regs)?;
    values.extend_from_slice(&[regs.sp, regs.pc, regs.pstate])
}

/// The registers of a thread.
pub fn in_order(alloc: Global, registers: &ThreadRegisters) -> Result<Vec<u64>, AllocError> {
    let mut values = Vec::new(alloc);
    match registers {
        ThreadRegisters::X86_64(regs) => push_x86_64(&mut values, regs)?,
        ThreadRegisters::Aarch64(regs) => push_aarch64(&mut values, regs)?,
    }
    Ok(values)
}
