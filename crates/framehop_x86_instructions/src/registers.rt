//! General registers by the numbers that instructions give them, and sets of them.
ghost use Rattle.std.specs.Prelude.{◌≡◌, ◌<◌, ◌≤◌};
ghost use Rattle.framehop_x86_instructions.specs.Registers.{register_numbered, number_of, none, one, both, contains};

use framehop_registers::x86_64::Reg;

// The registers in the order of their numbers.
const BY_NUMBER: [Reg; 16] = [
    Reg::RAX,
    Reg::RCX,
    Reg::RDX,
    Reg::RBX,
    Reg::RSP,
    Reg::RBP,
    Reg::RSI,
    Reg::RDI,
    Reg::R8,
    Reg::R9,
    Reg::R10,
    Reg::R11,
    Reg::R12,
    Reg::R13,
    Reg::R14,
    Reg::R15,
];

/// The register with a number.
pub(crate) fn register_numbered(number: u8) -> Reg
    requires { number < 16 }
    ensures { result ≡ register_numbered number }
{
    BY_NUMBER[usize::from(number)]
}

// The number of a register.
fn number_of(register: Reg) -> u8
    ensures is { result ≡ number_of register }
    ensures few { result < 16 }
{
    match register {
        Reg::RAX => 0,
        Reg::RCX => 1,
        Reg::RDX => 2,
        Reg::RBX => 3,
        Reg::RSP => 4,
        Reg::RBP => 5,
        Reg::RSI => 6,
        Reg::RDI => 7,
        Reg::R8 => 8,
        Reg::R9 => 9,
        Reg::R10 => 10,
        Reg::R11 => 11,
        Reg::R12 => 12,
        Reg::R13 => 13,
        Reg::R14 => 14,
        Reg::R15 => 15,
    }
}

/// A set of general registers.
#[derive(Clone, Copy, Debug, PartialEq, Eq)]
pub struct Registers {
    /// of 16 bits, one for each register by its number in instructions
    pub bits: u32,
}

impl Registers {
    /// No register.
    pub const NONE: Registers = Registers { bits: 0 };

    pub(crate) const RAX: Registers = Registers { bits: 1 };

    pub(crate) const RAX_AND_RDX: Registers = Registers { bits: 5 };

    /// The register with a number alone.
    pub(crate) fn one(number: u8) -> Registers
        requires { number < 16 }
        ensures { result ≡ one number }
    {
        Registers { bits: 1 << number }
    }

    /// Those in either.
    pub(crate) fn or(self, other: Registers) -> Registers
        ensures { result ≡ both self other }
    {
        Registers {
            bits: self.bits | other.bits,
        }
    }

    /// Whether a register is in the set.
    pub fn contains(self, register: Reg) -> bool
        ensures { result ≡ contains self register }
    {
        (self.bits >> number_of(register)) % 2 == 1
    }
}
