//! The error of an unwinding step.

use thiserror::Error;

/// Why a step of a stack walk gives no frame.
#[derive(Debug, Clone, Copy, PartialEq, Eq, Error)]
pub enum Error {
    /// The word of the stack at this address could not be read.
    #[error("Could not read stack memory at 0x{0:x}")]
    CouldNotReadStack(u64),

    /// The caller's stack pointer, as the frame pointer has it, is not above this frame's.
    #[error("Frame pointer unwinding moved backwards")]
    FramepointerUnwindingMovedBackwards,

    /// The step would answer the frame that it started from.
    #[error("Neither the code address nor the stack pointer changed, would loop")]
    DidNotAdvance,

    /// An address is below 0 or above 2^64 - 1.
    #[error("Unwinding caused integer overflow")]
    IntegerOverflow,

    /// The return address of a frame is 0, which must not be.
    #[error("Return address is null")]
    ReturnAddressIsNull,

    /// The step is out of memory.
    #[error("Out of memory")]
    OutOfMemory,
}
