//! The error of an index of call frames.

ghost use Rattle.std.specs.Prelude.{◌≡◌, Some};
ghost use Rattle.framehop_errors.specs.VariantNames.{index_error_name};
ghost use Rattle.framehop_errors.specs.declared.cfi_index.DwarfCfiIndexError.TheVariants.{Gimli, OutOfMemory};

use dwarf_constants::Error;
use std::alloc::AllocError;
use std::{error, fmt};

/// Why a section of call frames has no index. The three variants of a single FDE are the original's: an
/// index leaves such an FDE out, and isn't refused for it.
#[derive(Debug, Clone, Copy, PartialEq, Eq)]
pub enum DwarfCfiIndexError {
    /// An error ends the list of the section's entries.
    Gimli(Error),
    /// An FDE's code starts below the base. Not returned.
    CouldNotSubtractBaseAddress,
    /// An FDE's code starts 2^32 bytes or more above the base. Not returned.
    RelativeAddressTooBig,
    /// An FDE is 2^32 bytes or more from the section's start. Not returned.
    FdeOffsetTooBig,
    /// Out of memory for the index.
    OutOfMemory,
}

/// Prints the variant's name.
impl fmt::Display for DwarfCfiIndexError {
    ghost output = { λ error. Some (index_error_name error) };

    fn fmt<W: fmt::Write>(&self, f: &mut fmt::Formatter<W>) -> fmt::Result {
        f.write_str(match self {
            DwarfCfiIndexError::Gimli(_) => "Gimli",
            DwarfCfiIndexError::CouldNotSubtractBaseAddress => "CouldNotSubtractBaseAddress",
            DwarfCfiIndexError::RelativeAddressTooBig => "RelativeAddressTooBig",
            DwarfCfiIndexError::FdeOffsetTooBig => "FdeOffsetTooBig",
            DwarfCfiIndexError::OutOfMemory => "OutOfMemory",
        })
    }
}

impl error::Error for DwarfCfiIndexError {}

impl From<Error> for DwarfCfiIndexError {
    ghost from_gives = { λ error result. result ≡ Gimli error };

    fn from(error: Error) -> Self {
        DwarfCfiIndexError::Gimli(error)
    }
}

impl From<AllocError> for DwarfCfiIndexError {
    ghost from_gives = { λ error result. result ≡ OutOfMemory };

    fn from(_error: AllocError) -> Self {
        DwarfCfiIndexError::OutOfMemory
    }
}
