//! The code of a module: its bytes with the address at which they begin, and the bounds of what surrounds an address.
//!
//! No function allocates, and each takes a time that doesn't depend on how much code there is.
#![tactic(auto)]

mod code;
mod laws;
mod range;

pub use code::Code;
pub use laws::parts_are_same;
pub use range::{CodeRange, bounds_around};
