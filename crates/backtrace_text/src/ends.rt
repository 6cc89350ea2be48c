//! How walks end.

ghost use Rattle.std.specs.Prelude.{◌≡◌, Some};
ghost use Rattle.line_parts.specs.Parts.{Pushes};
ghost use Rattle.backtrace_text.specs.Ends.{end_text, error_text};

use framehop_registers::Error;
use line_parts::push_bytes;
use std::alloc::{AllocError, Global};
use std::fmt;

/// How the walk over a thread's stack ended.
#[derive(Clone, Copy, Debug, PartialEq, Eq)]
pub enum WalkEnd {
    /// At the end of the stack.
    EndOfStack,
    /// A step failed, so that more frames may follow.
    Stopped(Error),
    /// As many frames as were asked for are there, and no further step was made.
    LimitReached,
}

/// Shows why a step failed.
#[derive(Clone, Copy)]
struct ErrorText(Error);

impl fmt::Display for ErrorText {
    ghost output = { λ text. Some (error_text text.0) };

    fn fmt<W: fmt::Write>(&self, f: &mut fmt::Formatter<W>) -> fmt::Result {
        match self.0 {
            Error::CouldNotReadStack(address) => {
                write!(f, "could not read stack memory at 0x{address:x}")
            }
            Error::FramepointerUnwindingMovedBackwards => {
                write!(f, "frame pointer unwinding moved backwards")
            }
            Error::DidNotAdvance => {
                write!(f, "neither the code address nor the stack pointer changed")
            }
            Error::IntegerOverflow => write!(f, "an address is not within 64 bits"),
            Error::ReturnAddressIsNull => write!(f, "the return address is null"),
            Error::OutOfMemory => write!(f, "out of memory"),
        }
    }
}

/// Appends why a step failed.
pub fn push_reason(alloc: Global, text: &mut Vec<u8>, error: Error) -> Result<(), AllocError>
    ensures { Pushes result text.old text.new (error_text error) }
{
    let reason = format!(in alloc; "{}", ErrorText(error))?;
    push_bytes(text, reason.as_bytes())
}

/// Appends the line that says why a walk stopped before the end of its stack, if it did.
pub(crate) fn push_end(alloc: Global, text: &mut Vec<u8>, end: WalkEnd) -> Result<(), AllocError>
    ensures { Pushes result text.old text.new (end_text end) }
{
    match end {
        WalkEnd::EndOfStack => Ok(()),
        WalkEnd::Stopped(error) => {
            let reason = format!(in alloc; "Backtrace stopped: {}\n", ErrorText(error))?;
            push_bytes(text, reason.as_bytes())
        }
        WalkEnd::LimitReached => push_bytes(text, b"Backtrace stopped: limit reached\n"),
    }
}
