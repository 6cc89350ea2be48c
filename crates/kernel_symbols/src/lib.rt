//! The functions of a kernel by their addresses, from the list that `/proc/kallsyms` is and that perf keeps.
#![tactic(auto)]

mod lines;
mod symbols;

pub use symbols::KernelSymbols;
