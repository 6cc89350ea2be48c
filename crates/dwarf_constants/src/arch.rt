use crate::common::Register;

/// The DWARF register numbers of x86_64 (System V ABI for AMD64, figure 3.36).
#[derive(Debug, Clone, Copy)]
pub struct X86_64;

impl X86_64 {
    /// The frame pointer.
    pub const RBP: Register = Register(6);
    /// The stack pointer.
    pub const RSP: Register = Register(7);
    /// The return address.
    pub const RA: Register = Register(16);
}

/// The DWARF register numbers of AArch64 (DWARF for the Arm 64-bit Architecture, 4.1).
#[derive(Debug, Clone, Copy)]
pub struct AArch64;

impl AArch64 {
    /// The frame pointer.
    pub const X29: Register = Register(29);
    /// The link register, which holds the return address.
    pub const X30: Register = Register(30);
    /// The stack pointer.
    pub const SP: Register = Register(31);
    /// Whether the return address is signed: 0 or 1.
    pub const RA_SIGN_STATE: Register = Register(34);
}
