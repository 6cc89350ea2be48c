//! What the tests of all crates that read DWARF share: readers of every kind over the same bytes, and a section.
#![tactic(auto)]

pub mod backward;
pub mod over_readers;
pub mod worked;

pub use backward::Backward;
pub use over_readers::{Outcome, ReaderTest, over_each_reader};
pub use worked::WORKED;
