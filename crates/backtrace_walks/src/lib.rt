//! The stacks of a core's threads: its modules, the walk over each thread's stack, and the text of all, written frame by frame.
#![tactic(auto)]

mod arch;
mod backtraces;
mod calls;
mod courses;
mod numbered;
mod registers;
mod saved;
mod session;
mod signals;
mod stack_words;
mod stacks;
mod texts;
mod walks;

pub use arch::{FileModules, ThreadArch};
pub use backtraces::{BacktraceOptions, CoreProcess, FrameOptions};
pub use calls::CallSite;
pub use registers::ThreadStart;
pub use session::session_of;
pub use stack_words::next_in_memory;
pub use stacks::write_threads;
pub use texts::write_stacks;
pub use walks::{NextFrame, WalkedFrame, next_frame};
