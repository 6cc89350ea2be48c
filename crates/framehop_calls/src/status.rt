//! What calls answer.

ghost use Rattle.std.specs.Prelude.{◌≡◌};
ghost use Rattle.framehop_calls.specs.Statuses.{error_status};

use framehop_rules::Error;

/// It is done; of a step: the frame has a caller.
pub const OK: u32 = 0;
/// The frame has no caller.
pub const END_OF_STACK: u32 = 1;
/// A word has to be known first.
pub const NEED_WORD: u32 = 2;
/// There is no room for another frame.
pub const FULL: u32 = 3;
/// A word of the stack could not be read.
pub const COULD_NOT_READ_STACK: u32 = 16;
/// The caller's frame is not above this one.
pub const FRAMEPOINTER_UNWINDING_MOVED_BACKWARDS: u32 = 17;
/// The step would answer the frame that it started from.
pub const DID_NOT_ADVANCE: u32 = 18;
/// An address is below 0 or above 2^64 - 1.
pub const INTEGER_OVERFLOW: u32 = 19;
/// A return address is 0.
pub const RETURN_ADDRESS_IS_NULL: u32 = 20;
/// There is no memory.
pub const OUT_OF_MEMORY: u32 = 21;
/// The counter of generations gave all its numbers.
pub const GENERATIONS_EXHAUSTED: u32 = 22;
/// A handle has no session.
pub const NO_VALUE: u32 = 32;
/// The session has no unwinder of this number.
pub const NO_UNWINDER: u32 = 33;
/// The session has no cache of this number.
pub const NO_CACHE: u32 = 34;
/// The session is of the other architecture.
pub const OTHER_ARCHITECTURE: u32 = 35;
/// A number is none of those that the call knows.
pub const BAD_ARGUMENT: u32 = 36;

/// The status of an error of a step.
pub fn error_status(error: Error) -> u32
    ensures { result ≡ error_status error }
{
    match error {
        Error::CouldNotReadStack(_) => COULD_NOT_READ_STACK,
        Error::FramepointerUnwindingMovedBackwards => FRAMEPOINTER_UNWINDING_MOVED_BACKWARDS,
        Error::DidNotAdvance => DID_NOT_ADVANCE,
        Error::IntegerOverflow => INTEGER_OVERFLOW,
        Error::ReturnAddressIsNull => RETURN_ADDRESS_IS_NULL,
        Error::OutOfMemory => OUT_OF_MEMORY,
    }
}
