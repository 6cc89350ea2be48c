//! What the segments of an ELF file say that has no section headers: the bytes at addresses, and the symbols for dynamic linking.
//!
//! A file is read in place. No function allocates.
#![tactic(auto)]

mod bytes;
mod dynamic;
mod functions;
mod hash_tables;
mod segments;
mod symbols;
mod table_symbols;

pub use functions::dynamic_function;
pub use segments::{PlacedBytes, first_segment, has_named_sections, placed_at, placed_from};
pub use symbols::{DynamicSymbols, dynamic_symbols};
