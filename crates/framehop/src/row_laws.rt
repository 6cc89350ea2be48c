//! Laws of steps that rows of call frames answer. The functions do nothing when the program runs.

pub mod aarch64;
pub mod x86_64;
