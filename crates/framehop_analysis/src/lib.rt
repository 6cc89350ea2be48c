//! Analysis of the machine code at an address, for first frames in the start or the end of a
//! function, where unwind info that describes a whole function doesn't hold.
//!
//! A detector reads the instructions around the address and gives the unwind rule of the prologue or
//! the epilogue that they spell, if they spell one.
#![tactic(auto)]

pub mod aarch64;
mod instruction_analysis;
pub mod x86_64;

pub use instruction_analysis::InstructionAnalysis;
