//! Why a value isn't known.

use dwarf_constants::{Error, Register};

/// Why a value isn't known.
#[derive(Debug, Clone, Copy, PartialEq, Eq)]
pub enum Unknown {
    /// It is that of a register that isn't known.
    Register(Register),
    /// It is, or is computed by, the word at this address, which can't be read.
    Memory(u64),
    /// It is computed by a base plus an offset that isn't a number of 64 bits.
    OutOfRange,
    /// The expression has none.
    Expression(Error),
}
