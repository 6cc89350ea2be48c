//! The registers of a frame, with those that are known beside the ones that steps by rules carry.

ghost use Rattle.std.specs.Prelude.{◌≡◌, Some};
ghost use Rattle.framehop_whole_steps.specs.Registers.{forgotten, other_at};

use dwarf_constants::Register;

/// One more than the highest DWARF number of a register that any architecture has.
pub const REGISTERS: usize = 35;

/// The registers of a frame: those that steps by rules carry, and the others by their DWARF numbers, as far as they are known.
#[derive(Debug, Clone, Copy, PartialEq, Eq)]
pub struct WholeRegs<R> {
    /// Those that steps by rules carry.
    pub regs: R,
    pub(crate) others: Option<[Option<u64>; REGISTERS]>,
}

impl<R> WholeRegs<R> {
    /// The registers of a frame of which no other is known.
    pub fn new(regs: R) -> Self
        ensures { result ≡ forgotten regs }
    {
        WholeRegs { regs, others: None }
    }

    /// The registers of a frame of which these others are known too, by their DWARF numbers.
    pub fn with_others(regs: R, others: [Option<u64>; REGISTERS]) -> Self
        ensures regs { result.regs ≡ regs }
        ensures others { result.others ≡ Some others }
    {
        WholeRegs {
            regs,
            others: Some(others),
        }
    }

    /// Makes the others unknown.
    #[inline(always)]
    pub fn forget(&mut self)
        ensures { self.new ≡ forgotten self.old.regs }
    {
        self.others = None;
    }

    // One of the others, if it is known.
    pub(crate) fn other(&self, register: Register) -> Option<u64>
        ensures { result ≡ other_at self.now.others register.0 }
    {
        let Some(values) = &self.others else {
            return None;
        };
        match values.get(usize::from(register.0)) {
            Some(value) => *value,
            None => None,
        }
    }
}
