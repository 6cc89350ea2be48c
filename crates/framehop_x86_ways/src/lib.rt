//! Ways out of a function on x86_64: the instructions that are executed from an address up to where the function is left, as far as the
//! code alone tells, and what they do to RSP, RBP and the return address.
//!
//! No crate uses this one yet.
#![tactic(auto)]

mod ends;
mod executed;
mod finding;
mod rules;
mod search;
mod values;

pub use executed::Executed;
pub use finding::first_way;
pub use framehop_ways::Bounds;
pub use rules::{first_way_rule, way_rule};
pub use values::{Returned, Saved, Value, Values};
