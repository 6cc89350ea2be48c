//! Calls over a session that answer statuses and go by numbers alone, for callers that aren't Rattle: unwinders and caches by the numbers
//! that they were given, modules by the sections that a caller lists, steps and walks over samples. A sample is a copy of the stack, and
//! words that are known beside it. There is no callback: a word of which nothing is known is asked for by the answer, and the same call
//! is made again once it is known.
#![tactic(auto)]

mod caches;
mod modules;
mod registers;
mod sample;
mod sample_steps;
mod sample_walks;
mod sections;
mod session;
pub mod status;
mod steps;
mod unwinders;
mod walks;

pub use registers::{RegistersAarch64, RegistersX86_64};
pub use sample::{KnownWord, Sample};
pub use sample_steps::{GivenRegisters, SampleStep, step_in_sample};
pub use sample_walks::{SampleWalk, WalkEnd, WalkPlace, Walked, walk_in_sample};
pub use sections::{FileSections, Section};
pub use session::{CountedSession, let_go};
pub use steps::{SampleStepCall, frame_at};
pub use walks::{SampleWalkCall, numbers_of, place_at};
