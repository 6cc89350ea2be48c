//! The values of expressions in a frame (DWARF 5, 2.5).

ghost use Rattle.std.specs.Prelude.{◌≡◌};
ghost use Rattle.framehop_expressions.specs.Evaluation.{expression_value};
ghost use Rattle.framehop_expressions.specs.MachineViews.{OverFrames};

use crate::machine::Machine;
use crate::registers::KnownRegisters;
use crate::unknown::Unknown;
use dwarf_constants::Error;
use dwarf_operations::Expression;
use dwarf_readers::Reader;

/// How many operations an evaluation may run, and one more for its end.
const TURNS: u32 = 4097;

/// The value of an expression in a frame with these registers, with a value on its stack first if there is one: the CFA, if it is
/// that of a register's rule (DWARF 5, 6.4.2.3). `read` reads the word of 8 bytes at an address, the lowest byte first. Values are
/// numbers modulo 2^64.
pub fn evaluate<R: Reader, F: FnMut(u64) -> Result<u64, ()>>(
    expression: Expression<R>,
    first: Option<u64>,
    registers: &KnownRegisters,
    read: &mut F,
) -> Result<u64, Unknown>
    requires { F.IsAlwaysCallable read.old }
    ensures callable { F.IsAlwaysCallable read.new }
    ensures value { OverFrames F.step read.old read.new registers.now (λ f.
        result ≡ expression_value f (R.stretch expression.0) first) }
{
    let mut machine = Machine::new(expression.0, first);
    for turn in 0..TURNS {
        if machine.is_at_end() {
            return machine.top();
        }
        machine.step(registers, read)?;
    }
    Err(Unknown::Expression(Error::TooManyIterations))
}
