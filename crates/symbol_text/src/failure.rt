//! Why a name has no text.

ghost use Rattle.std.specs.Prelude.{◌≡◌};
ghost use Rattle.symbol_text.specs.declared.failure.Failure.TheVariants.{OutOfMemory};

use std::alloc::{AllocError, AllocFailed};
use thiserror::Error;

/// Why a name has no text.
#[derive(Debug, Clone, Copy, PartialEq, Eq, Error)]
pub enum Failure {
    /// Out of memory for the text or for the lists of its pieces.
    #[error("out of memory")]
    OutOfMemory,

    /// It isn't a name of the grammar, or its text, with all that is put together on the way, is longer than
    /// `TEXT_LIMIT`.
    #[error("not a mangled name that is understood")]
    NotUnderstood,
}

impl From<AllocError> for Failure {
    ghost from_gives = { λ error result. result ≡ OutOfMemory };

    fn from(_error: AllocError) -> Self {
        Failure::OutOfMemory
    }
}

impl<T: Drop> From<AllocFailed<T>> for Failure {
    ghost from_gives = { λ error result. result ≡ OutOfMemory };

    fn from(_error: AllocFailed<T>) -> Self {
        Failure::OutOfMemory
    }
}
