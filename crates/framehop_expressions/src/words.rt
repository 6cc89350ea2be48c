//! Words of memory.

ghost use Rattle.std.specs.Prelude.{◌≡◌};
ghost use Rattle.framehop_registers.specs.Callback.{OverWords};
ghost use Rattle.framehop_expressions.specs.Evaluation.{word_value};

use crate::unknown::Unknown;

/// The word of 8 bytes at an address, by the callback that reads the stack.
pub fn word_value<F: FnMut(u64) -> Result<u64, ()>>(at: u64, read: &mut F) -> Result<u64, Unknown>
    requires { F.IsAlwaysCallable read.old }
    ensures callable { F.IsAlwaysCallable read.new }
    ensures value { OverWords F.step read.old read.new (λ words. result ≡ word_value words at) }
{
    match read(at) {
        Ok(word) => Ok(word),
        Err(()) => Err(Unknown::Memory(at)),
    }
}
