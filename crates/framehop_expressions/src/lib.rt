//! Expressions that read memory (DWARF 5, 2.5), as rows of call frames have them: their values on architectures whose addresses
//! have 64 bits, by the registers of a frame that are known and by the callback that reads the stack.
//!
//! No program uses this crate yet.
#![tactic(auto)]

mod architecture;
mod evaluation;
mod machine;
mod operation;
mod registers;
mod stack;
mod unknown;
mod value;
mod words;

pub use architecture::Architecture;
pub use evaluation::evaluate;
pub use operation::MemoryOperation;
pub use registers::KnownRegisters;
pub use unknown::Unknown;
pub use words::word_value;
