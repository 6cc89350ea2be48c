//! The rows of x86_64.

mod dwarf;

pub use dwarf::rule_answers_as_its_row;
