//! Rows of call frames as DWARF says them (DWARF 5, 6.4.1 and 6.4.3): the caller's registers by a row and by the registers of the frame
//! that are known, whichever registers the row names and whatever its expressions read.
//!
//! No program uses this crate yet.
#![tactic(auto)]

mod caller;
mod laws;
mod place;
mod rules;

pub use caller::{CallerError, KnownCaller};
pub use framehop_expressions::{Architecture, KnownRegisters, Unknown};
pub use laws::rules_answer_as_whole_rows;
pub use place::RowPlace;
