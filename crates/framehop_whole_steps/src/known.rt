//! The registers of a frame that are known.

ghost use Rattle.std.specs.Prelude.{◌≡◌, ℕ};
ghost use Rattle.framehop_expressions.specs.Registers.{known};
ghost use Rattle.framehop_whole_steps.specs.Registers.{values_of};
ghost use Rattle.framehop_whole_steps.specs.Known.{known_of, value_of};

use crate::carrying::CarriesRegisters;
use crate::registers::{REGISTERS, WholeRegs};
use dwarf_constants::Register;
use framehop_expressions::KnownRegisters;

// The value of a register in a frame, if it is known: by those that rules carry, or else by the others.
fn value_of<A: CarriesRegisters>(
    is_first_frame: bool,
    regs: &WholeRegs<A::UnwindRegs>,
    register: Register,
) -> Option<u64>
    ensures { result ≡ value_of A.carrying is_first_frame regs.now register.0 }
{
    match A::carried(is_first_frame, &regs.regs, register) {
        Some(value) => Some(value),
        None => regs.other(register),
    }
}

/// The registers of a frame that are known.
pub(crate) fn known_of<A: CarriesRegisters>(
    is_first_frame: bool,
    regs: &WholeRegs<A::UnwindRegs>,
) -> KnownRegisters
    ensures architecture { result.architecture ≡ A.carrying.architecture }
    ensures mask { result.mask ≡ A.carrying.mask regs.now.regs }
    ensures values { (number : ℕ) → known result number ≡ known_of A.carrying is_first_frame regs.now number }
{
    let architecture = A::architecture();
    let mut all = KnownRegisters::unknown(architecture, A::mask(&regs.regs));
    for number in 0..architecture.register_count() {
        let value = value_of::<A>(is_first_frame, regs, Register(number));
        all.set(Register(number), value);
    }
    all
}

/// The values of registers by their numbers.
pub(crate) fn values_of(registers: &KnownRegisters) -> [Option<u64>; REGISTERS]
    ensures { result ≡ values_of (known registers.now) }
{
    let mut values = [None; REGISTERS];
    for number in 0..REGISTERS {
        values[number] = registers.get(Register(number as u16));
    }
    values
}
