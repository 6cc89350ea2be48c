//! What the rules of ways out of a function on x86_64 are for: the caller of such a rule is where the machine returns to.
//!
//! No crate uses this one yet.
#![tactic(auto)]

mod laws;

pub use laws::ways_return;
