//! Registers by their DWARF numbers.

ghost use Rattle.std.specs.Prelude.{◌≡◌};
ghost use Rattle.framehop_expressions.specs.Architectures.{instruction_pointer, is_saved_by_callees, register_count, stack_pointer};

/// An architecture, whose addresses have 64 bits.
#[derive(Debug, Clone, Copy, PartialEq, Eq)]
pub enum Architecture {
    /// Sixteen general registers and, with the number 16, the return address (System V ABI for AMD64, figure 3.36).
    X86_64,
    /// x0 to x30, SP as 31, the program counter as 32, and as 34 whether the return address is signed (DWARF for the Arm 64-bit
    /// Architecture, 4.1).
    Aarch64,
}

impl Architecture {
    /// The number above those of the registers that are carried.
    pub fn register_count(self) -> u16
        ensures { result ≡ register_count self }
    {
        match self {
            Architecture::X86_64 => 17,
            Architecture::Aarch64 => 35,
        }
    }

    /// The number of the stack pointer.
    pub fn stack_pointer(self) -> u16
        ensures { result ≡ stack_pointer self }
    {
        match self {
            Architecture::X86_64 => 7,
            Architecture::Aarch64 => 31,
        }
    }

    /// The number of the instruction pointer.
    pub fn instruction_pointer(self) -> u16
        ensures { result ≡ instruction_pointer self }
    {
        match self {
            Architecture::X86_64 => 16,
            Architecture::Aarch64 => 32,
        }
    }

    /// Whether a function leaves this register to its caller as it was: RBX, RBP and R12 to R15 (System V ABI for AMD64, 3.2.1); x19
    /// to x29 (Procedure Call Standard for the Arm 64-bit Architecture, 6.1.1).
    pub fn is_saved_by_callees(self, number: u16) -> bool
        ensures { result ≡ is_saved_by_callees self number }
    {
        match self {
            Architecture::X86_64 => number == 3 || number == 6 || (number >= 12 && number <= 15),
            Architecture::Aarch64 => number >= 19 && number <= 29,
        }
    }
}
