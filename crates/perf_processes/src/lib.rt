//! Processes over time: which file was mapped at an address, and what a thread was called, by the records so far.
#![tactic(auto)]

mod change;
mod laws;
mod lists;
mod processes;

pub use change::{Change, MappedFile, ThreadName};
pub use laws::mapped_by_the_latest_change;
pub use processes::Processes;
