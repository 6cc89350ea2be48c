//! What a core says of its process before its threads: its command, and why it ended; and what the line of each thread
//! says.
#![tactic(auto)]

mod codes;
mod heading;
mod signals;
mod writing;

pub use heading::{EndSignal, Heading, heading_of, label_of};
pub use signals::{push_code, push_fault_words, push_signal_name};
pub use writing::{command_of, write_heading};
