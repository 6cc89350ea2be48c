//! Why there is no picture.

ghost use Rattle.std.specs.Prelude.{◌≡◌};
ghost use Rattle.flame_graph.specs.declared.error.FlameError.TheVariants.{OutOfMemory};

use std::alloc::{AllocError, AllocFailed};
use thiserror::Error;

/// Why there is no picture.
#[derive(Debug, Clone, Copy, PartialEq, Eq, Error)]
pub enum FlameError {
    /// Out of memory for the boxes or the text.
    #[error("out of memory")]
    OutOfMemory,

    /// The counts of all stacks sum to 2^64 or more.
    #[error("the counts of the stacks sum to 2^64 or more")]
    TooManySamples,
}

impl From<AllocError> for FlameError {
    ghost from_gives = { λ error result. result ≡ OutOfMemory };

    fn from(_error: AllocError) -> Self {
        FlameError::OutOfMemory
    }
}

impl<T: Drop> From<AllocFailed<T>> for FlameError {
    ghost from_gives = { λ error result. result ≡ OutOfMemory };

    fn from(_error: AllocFailed<T>) -> Self {
        FlameError::OutOfMemory
    }
}
