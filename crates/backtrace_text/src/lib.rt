//! The text of backtraces, as people know it from gdb: a line for each thread, a line for each of its frames,
//! and a line for why the walk stopped before the end of the stack. Nothing is read here.
#![tactic(auto)]

mod cells;
mod ends;
mod frames;
mod names;
mod threads;
mod writing;

pub use ends::{WalkEnd, push_reason};
pub use frames::{CodeLocation, NamedOffset, RegisterValue, ShownFrame};
pub use names::{FunctionNames, push_name};
pub use threads::ThreadLabel;
pub use writing::{write_end, write_frame, write_thread};
