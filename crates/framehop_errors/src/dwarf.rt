//! The error of a step by call frames.

ghost use Rattle.std.specs.Prelude.{◌≡◌, Some};
ghost use Rattle.framehop_errors.specs.VariantNames.{dwarf_error_name};
ghost use Rattle.framehop_errors.specs.declared.dwarf.DwarfUnwinderError.TheVariants.{OutOfMemory};

use dwarf_constants::Error;
use std::alloc::AllocError;
use std::{error, fmt};

/// Why call frame information gives no rule and no caller (DWARF 5, 6.4).
#[derive(Debug, Clone, Copy, PartialEq, Eq)]
pub enum DwarfUnwinderError {
    /// At the offset that the lookup gave there is no FDE that parses; or a scan finds no FDE before the error that ends the
    /// list of the section's entries.
    FdeFromOffsetFailed(Error),
    /// No row of the FDE covers the address, or an instruction before that row fails. Not returned: the step is by the rule
    /// for code that no row covers.
    UnwindInfoForAddressFailed(Error),
    /// The module's base plus the relative address doesn't fit 64 bits.
    LookupAddressOverflow,
    /// The row's CFA has no value.
    CouldNotRecoverCfa,
    /// The row's register rule for the return address gives no value, and on x86_64 the word below the CFA
    /// can't be read.
    CouldNotRecoverReturnAddress,
    /// The row's register rule for the frame pointer gives no value, in a later frame on aarch64.
    CouldNotRecoverFramePointer,
    /// The caller would be the frame that the step started from.
    DidNotAdvance,
    /// The caller's stack pointer would be below that of a frame that isn't the first, or on aarch64 not
    /// above it.
    StackPointerMovedBackwards,
    /// Out of memory for the values of an expression.
    OutOfMemory,
}

/// Prints the variant's name.
impl fmt::Display for DwarfUnwinderError {
    ghost output = { λ error. Some (dwarf_error_name error) };

    fn fmt<W: fmt::Write>(&self, f: &mut fmt::Formatter<W>) -> fmt::Result {
        f.write_str(match self {
            DwarfUnwinderError::FdeFromOffsetFailed(_) => "FdeFromOffsetFailed",
            DwarfUnwinderError::UnwindInfoForAddressFailed(_) => "UnwindInfoForAddressFailed",
            DwarfUnwinderError::LookupAddressOverflow => "LookupAddressOverflow",
            DwarfUnwinderError::CouldNotRecoverCfa => "CouldNotRecoverCfa",
            DwarfUnwinderError::CouldNotRecoverReturnAddress => "CouldNotRecoverReturnAddress",
            DwarfUnwinderError::CouldNotRecoverFramePointer => "CouldNotRecoverFramePointer",
            DwarfUnwinderError::DidNotAdvance => "DidNotAdvance",
            DwarfUnwinderError::StackPointerMovedBackwards => "StackPointerMovedBackwards",
            DwarfUnwinderError::OutOfMemory => "OutOfMemory",
        })
    }
}

impl error::Error for DwarfUnwinderError {}

impl From<AllocError> for DwarfUnwinderError {
    ghost from_gives = { λ error result. result ≡ OutOfMemory };

    fn from(_error: AllocError) -> Self {
        DwarfUnwinderError::OutOfMemory
    }
}
