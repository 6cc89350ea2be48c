//! The modules of processes over time, and the stack of one sample: which addresses a process has mapped from which file, a module for each
//! of these, which is made when a frame is there for the first time; where the sample's walk begins, the words that were copied, the moves of
//! the walk, and the frames of the kernel.
#![tactic(auto)]

mod arch;
mod code;
mod frames;
mod kernel;
mod known;
mod modules;
mod ranges;
mod signals;
mod stack_copy;
mod walks;

pub use arch::{SampleArch, SampleModules, SampleStart};
pub use code::ProcessCode;
pub use frames::{MOST_FRAMES, push_frames};
pub use kernel::push_kernel_frames;
pub use modules::{CodePlace, FileBytes, ProcessModules};
pub use ranges::{CodeRange, code_ranges};
pub use stack_copy::StackCopy;
pub use walks::{NextMove, WalkEnd, next_frame, next_move};
