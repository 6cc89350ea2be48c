//! Why a record isn't taken.

use perf_files::{EventError, FieldError};
use std::alloc::{AllocError, AllocFailed};
use thiserror::Error;

/// Why a record isn't taken.
#[derive(Clone, Copy, Debug, PartialEq, Eq, Error)]
pub enum FoldError {
    /// Memory is refused.
    #[error("out of memory")]
    OutOfMemory,

    /// A field of it can't be read.
    #[error("{0}")]
    Field(FieldError),

    /// It isn't known which event it is of.
    #[error("{0}")]
    Event(EventError),
}

impl From<AllocError> for FoldError {
    fn from(_error: AllocError) -> Self {
        FoldError::OutOfMemory
    }
}

impl<T: Drop> From<AllocFailed<T>> for FoldError {
    fn from(_error: AllocFailed<T>) -> Self {
        FoldError::OutOfMemory
    }
}

impl From<FieldError> for FoldError {
    fn from(error: FieldError) -> Self {
        FoldError::Field(error)
    }
}

impl From<EventError> for FoldError {
    fn from(error: EventError) -> Self {
        FoldError::Event(error)
    }
}
