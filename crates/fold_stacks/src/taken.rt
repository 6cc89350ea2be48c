//! What is taken of a record.

use perf_processes::Change;

/// A sample that was counted.
#[derive(Debug, Drop)]
pub struct CountedSample {
    /// The names of its stack by their numbers, in the order of `folded_stack`.
    pub stack: Vec<u32>,
    /// What it counts for.
    pub weight: u64,
}

/// What was taken of a record.
#[derive(Debug, Drop)]
pub enum Taken {
    /// It changed what processes have mapped, or what a thread is called.
    Changed(Change),
    /// It is a sample, which was counted.
    Counted(CountedSample),
    /// Neither.
    Nothing,
}
