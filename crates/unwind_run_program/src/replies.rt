//! The lines of walks and of counts. Each ends with a line feed.

ghost use Rattle.std.specs.Prelude.{◌≡◌, ◌≢◌, ◌++◌, Some, IfOk, codes, string_bytes};
ghost use Rattle.json_program.specs.Lines.{line};
ghost use Rattle.framehop_registers.specs.declared.error.Error.TheVariants.{OutOfMemory};
ghost use Rattle.framehop_unwinder.specs.Frames.{frame_of};
ghost use Rattle.unwind_run_program.specs.Replies.{counts_text, error_name, frame_text, occupancy_text};

use framehop_rules::{CacheOccupancy, CacheStats, Error, FrameAddress};
use std::alloc::{AllocError, Global};
use std::fmt;

/// Shows an error by its name.
#[derive(Clone, Copy)]
pub struct ErrorName(pub Error);

impl fmt::Display for ErrorName {
    ghost output = { λ name. Some (error_name name.0) };

    fn fmt<W: fmt::Write>(&self, f: &mut fmt::Formatter<W>) -> fmt::Result {
        match self.0 {
            Error::CouldNotReadStack(address) => write!(f, "CouldNotReadStack(0x{address:x})"),
            Error::FramepointerUnwindingMovedBackwards => {
                write!(f, "FramepointerUnwindingMovedBackwards")
            }
            Error::DidNotAdvance => write!(f, "DidNotAdvance"),
            Error::IntegerOverflow => write!(f, "IntegerOverflow"),
            Error::ReturnAddressIsNull => write!(f, "ReturnAddressIsNull"),
            Error::OutOfMemory => write!(f, "OutOfMemory"),
        }
    }
}

/// Shows a frame of a walk.
#[derive(Clone, Copy)]
struct FrameText(FrameAddress);

impl fmt::Display for FrameText {
    ghost output = { λ frame. Some (frame_text (frame_of frame.0)) };

    fn fmt<W: fmt::Write>(&self, f: &mut fmt::Formatter<W>) -> fmt::Result {
        match self.0 {
            FrameAddress::InstructionPointer(address) => write!(f, "frame ip 0x{address:x}"),
            FrameAddress::ReturnAddress(address) => {
                let address = address.get();
                write!(f, "frame ra 0x{address:x}")
            }
        }
    }
}

/// The line of a frame of a walk.
pub(crate) fn frame_line(alloc: Global, frame: FrameAddress) -> Result<String, AllocError>
    ensures { IfOk result (λ text. string_bytes text ≡ line (frame_text (frame_of frame))) }
{
    format!(in alloc; "{}\n", FrameText(frame))
}

/// The line of a walk that ends with an error. There is none if memory ran out: this call fails too.
pub(crate) fn stop_line(alloc: Global, error: Error) -> Result<String, AllocError>
    ensures line { IfOk result (λ text.
        string_bytes text ≡ line (codes "stop " ++ error_name error)) }
    ensures memory { IfOk result (λ text. error ≢ OutOfMemory) }
{
    match error {
        Error::OutOfMemory => Err(AllocError),
        error => format!(in alloc; "stop {}\n", ErrorName(error)),
    }
}

/// Shows the counts of a cache.
#[derive(Clone, Copy)]
struct CountsText(CacheStats);

impl fmt::Display for CountsText {
    ghost output = { λ counts. Some (counts_text counts.0) };

    fn fmt<W: fmt::Write>(&self, f: &mut fmt::Formatter<W>) -> fmt::Result {
        let counts = self.0;
        write!(f, "stats hits {} ", counts.hit_count)?;
        write!(f, "empty {} ", counts.miss_empty_slot_count)?;
        write!(f, "modules {} ", counts.miss_wrong_modules_count)?;
        write!(f, "addresses {}", counts.miss_wrong_address_count)
    }
}

/// The line of a cache's counts.
pub(crate) fn counts_line(alloc: Global, counts: CacheStats) -> Result<String, AllocError>
    ensures { IfOk result (λ text. string_bytes text ≡ line (counts_text counts)) }
{
    format!(in alloc; "{}\n", CountsText(counts))
}

/// Shows how many slots a cache has, and how many rules it keeps.
#[derive(Clone, Copy)]
struct OccupancyText(CacheOccupancy);

impl fmt::Display for OccupancyText {
    ghost output = { λ occupancy. Some (occupancy_text occupancy.0) };

    fn fmt<W: fmt::Write>(&self, f: &mut fmt::Formatter<W>) -> fmt::Result {
        let occupancy = self.0;
        write!(f, "occupancy slots {} ", occupancy.slot_count)?;
        write!(f, "rules {}", occupancy.rule_count)
    }
}

/// The line of the slots and the rules of a cache.
pub(crate) fn occupancy_line(alloc: Global, occupancy: CacheOccupancy) -> Result<String, AllocError>
    ensures { IfOk result (λ text. string_bytes text ≡ line (occupancy_text occupancy)) }
{
    format!(in alloc; "{}\n", OccupancyText(occupancy))
}
