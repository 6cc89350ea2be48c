//! Laws of how many frames a walk has. The functions do nothing when the program runs.

pub mod aarch64;
pub mod x86_64;
