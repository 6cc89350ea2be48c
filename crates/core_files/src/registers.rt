//! The registers of a thread.

/// The registers of a thread on x86_64, in the order of `struct user_regs_struct` (Linux, `arch/x86/include/asm/user_64.h`).
#[derive(Debug, Clone, Copy, PartialEq, Eq)]
pub struct UserRegsX86_64 {
    pub r15: u64,
    pub r14: u64,
    pub r13: u64,
    pub r12: u64,
    pub rbp: u64,
    pub rbx: u64,
    pub r11: u64,
    pub r10: u64,
    pub r9: u64,
    pub r8: u64,
    pub rax: u64,
    pub rcx: u64,
    pub rdx: u64,
    pub rsi: u64,
    pub rdi: u64,
    /// The number of the system call that the thread is in, or -1.
    pub orig_rax: u64,
    pub rip: u64,
    pub cs: u64,
    pub eflags: u64,
    pub rsp: u64,
    pub ss: u64,
    pub fs_base: u64,
    pub gs_base: u64,
    pub ds: u64,
    pub es: u64,
    pub fs: u64,
    pub gs: u64,
}

/// The registers of a thread on aarch64, as `struct user_pt_regs` (Linux, `arch/arm64/include/uapi/asm/ptrace.h`).
#[derive(Debug, Clone, Copy, PartialEq, Eq)]
pub struct UserRegsAarch64 {
    /// x0 to x30: the frame pointer is x29, and the link register x30.
    pub regs: [u64; 31],
    pub sp: u64,
    pub pc: u64,
    pub pstate: u64,
}

/// The registers of a thread.
#[derive(Debug, Clone, Copy, PartialEq, Eq)]
pub enum ThreadRegisters {
    /// Those of x86_64.
    X86_64(UserRegsX86_64),
    /// Those of aarch64.
    Aarch64(UserRegsAarch64),
}
