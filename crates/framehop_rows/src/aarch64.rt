//! The rows of aarch64.

mod dwarf;

pub use dwarf::rule_answers_as_its_row;
