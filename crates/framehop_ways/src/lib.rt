//! Ways out of a function on aarch64: the instructions that are executed from an address up to a return, as far as the code alone
//! tells, and what they do to the stack pointer, the frame pointer and the link register.
//!
//! No crate uses this one yet.
#![tactic(auto)]

mod accesses;
mod branches;
mod decoding;
mod executed;
mod finding;
mod instruction;
mod moves;
mod plain;
mod rules;
mod search;
mod values;
mod word;

pub use decoding::decode;
pub use executed::{Bounds, Executed};
pub use finding::first_way;
pub use instruction::{Access, Base, Instruction, Lost};
pub use rules::{first_way_rule, way_rule};
pub use values::{Saved, Value, Values};
