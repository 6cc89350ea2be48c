//! The functions of an ELF file, sorted by their addresses, so that many addresses can be looked up.
#![tactic(auto)]

mod entries;
mod functions;
mod index;
mod tables;

pub use index::FunctionIndex;
pub use tables::has_symbol_table;
