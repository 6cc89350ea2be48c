//! Lists of registers that are popped one after the other.

ghost use Rattle.std.specs.Prelude.{◌≡◌, ◌+◌, ◌<◌, ◌≤◌, ◌==◌, [], ◌∷◌, ◌++◌, length, take, drop, slice_index_or, position, IfSome, IfNone};
ghost use Rattle.framehop_registers.specs.PopLists.{left_behind};
ghost use Rattle.framehop_registers.specs.Registers.{dwarf_number};
ghost use Rattle.framehop_registers.specs.declared.x86_64.unwindregs.Reg.TheVariants.{RBX};

use crate::x86_64::unwindregs::Reg;
use std::fmt;
use std::fmt::Debug;

/// The callee-saved registers, in the order in which lists are numbered.
pub(crate) const CALLEE_SAVED: [Reg; 8] = [
    Reg::RBX,
    Reg::RBP,
    Reg::RDI,
    Reg::RSI,
    Reg::R12,
    Reg::R13,
    Reg::R14,
    Reg::R15,
];

/// Takes the register at a place among those behind the first `taken`. The first of them comes in
/// its place, so that the others stand behind one register more.
#[inline(always)]
pub(crate) fn take_from(registers: &mut [Reg; 8], taken: usize, place: usize) -> Reg
    requires { taken + place < 8 }
    ensures register { result ≡ slice_index_or (drop taken registers.old) place RBX }
    ensures all { length registers.new ≡ 8 }
    ensures front { take taken registers.new ≡ take taken registers.old }
    ensures left { drop (taken + 1) registers.new ≡ left_behind (drop taken registers.old) place }
{
    let register = registers[taken + place];
    registers[taken + place] = registers[taken];
    register
}

/// Callee-saved registers in the order in which they are popped, each at most once.
///
/// The others are kept behind them, in the order from which the next one is chosen.
#[derive(Clone, Copy)]
pub struct PopList {
    registers: [Reg; 8],
    count: usize,
    ghost within: { count ≤ 8 },
}

impl PopList {
    ghost use Rattle.framehop_registers.specs.PopLists.{callee_saved};
    ghost use Rattle.framehop_registers.specs.PopListViews.{popped_of, left_of};

    /// The list of no register.
    pub(crate) fn new() -> Self
        ensures popped { popped_of result ≡ [] }
        ensures left { left_of result ≡ callee_saved }
    {
        PopList {
            registers: CALLEE_SAVED,
            count: 0,
        }
    }

    /// The registers, the one that is popped first at the front.
    pub fn as_slice(&self) -> &[Reg]
        ensures { result.now ≡ popped_of self.now }
    {
        &self.registers[..self.count]
    }

    /// The callee-saved registers that are not in the list.
    pub(crate) fn left(&self) -> &[Reg]
        ensures { result.now ≡ left_of self.now }
    {
        &self.registers[self.count..]
    }

    /// Adds the register at a place among those left, which changes places with the first of them.
    #[inline(always)]
    pub(crate) fn push_from(&mut self, place: usize)
        requires { place < length (left_of self.old) }
        ensures popped { popped_of self.new
            ≡ popped_of self.old ++ slice_index_or (left_of self.old) place RBX ∷ [] }
        ensures left { left_of self.new ≡ left_behind (left_of self.old) place }
    {
        let register = take_from(&mut self.registers, self.count, place);
        self.registers[self.count] = register;
        self.count += 1;
    }

    /// The place of a register among those left.
    pub(crate) fn place_of(&self, register: Reg) -> Option<usize>
        ensures { result
            ≡ position (λ other. dwarf_number other == dwarf_number register) (left_of self.now) }
    {
        self.left().iter().position(|other| *other == register)
    }
}

impl Debug for PopList {
    fn fmt<W: fmt::Write>(&self, f: &mut fmt::Formatter<W>) -> fmt::Result {
        self.as_slice().fmt(f)
    }
}
