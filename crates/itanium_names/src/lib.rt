//! C++ names by the Itanium C++ ABI, section 5.1 "External Names (a.k.a. Mangling)".
//!
//! The grammar is a table of productions, and one machine reads by it.
#![tactic(auto)]

mod grammar;
mod machine;
mod reading;
mod symbol;
mod tables;
mod texts;
mod writing;

pub use machine::{STEPS_PER_BYTE, demangled};
pub use symbol_text::{Failure, TEXT_LIMIT};
