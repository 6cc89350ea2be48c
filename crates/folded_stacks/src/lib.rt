//! Folded stacks, as tools for flame graphs read them: a line for each different stack, from the outermost frame to the innermost,
//! with how many samples have it.
#![tactic(auto)]

mod counts;
mod frame_names;
mod laws;
mod lines;
mod names;
mod stack_slots;

pub use counts::{StackCounts, lines_of};
pub use frame_names::FrameNames;
pub use laws::{counts_are_sums, lines_are_in_order, texts_are_counted};
pub use lines::{FoldedLine, push_line};
pub use names::{push_address, push_frame_name, push_kernel_name, push_process_name};
