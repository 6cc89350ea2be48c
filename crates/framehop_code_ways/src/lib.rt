//! The caller of a frame by a way out of its function: by what the code from an address up to a return does to the stack pointer, the
//! frame pointer and the return address. It asks for no unwind information, but for the bounds of the function, if they are known.
//!
//! No function allocates.
#![tactic(auto)]

mod aarch64;
mod caller;
mod way;
mod x86_64;

pub use caller::{caller_by_way, caller_by_way_in_text};
pub use framehop_code::{Code, CodeRange, bounds_around};
pub use framehop_ways::Bounds;
pub use way::{BranchesOut, WayUnwinding};
