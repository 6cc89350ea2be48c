//! The error of a module's unwind data, of whatever format.

ghost use Rattle.std.specs.Prelude.{◌≡◌, Some};
ghost use Rattle.framehop_errors.specs.VariantNames.{unwinder_error_name};
ghost use Rattle.framehop_errors.specs.Wraps.{of_compact_error};
ghost use Rattle.framehop_errors.specs.declared.unwinder.UnwinderError.TheVariants.{Dwarf, Pe};

use crate::compact::CompactUnwindInfoUnwinderError;
use crate::dwarf::DwarfUnwinderError;
use crate::pe::PeUnwinderError;
use std::{error, fmt};

/// Why a module's unwind data gives no rule and no caller for an address.
#[derive(Debug, Clone, Copy, PartialEq, Eq)]
pub enum UnwinderError {
    /// The module has compact unwind info, and that gives none.
    CompactUnwindInfo(CompactUnwindInfoUnwinderError),
    /// The module's call frame information gives none, also where compact unwind info refers to it.
    Dwarf(DwarfUnwinderError),
    /// The module has the unwind info of a PE file, and that gives none.
    Pe(PeUnwinderError),
    /// Compact unwind info refers to `__eh_frame`, which the module doesn't have.
    NoDwarfData,
    /// The module has no unwind data.
    NoModuleUnwindData,
    /// The table of `.eh_frame_hdr` has no FDE for the address.
    EhFrameHdrCouldNotFindAddress,
    /// The index of the module's call frames has no FDE for the address.
    DwarfCfiIndexCouldNotFindAddress,
}

/// Prints the variant's name.
impl fmt::Display for UnwinderError {
    ghost output = { λ error. Some (unwinder_error_name error) };

    fn fmt<W: fmt::Write>(&self, f: &mut fmt::Formatter<W>) -> fmt::Result {
        f.write_str(match self {
            UnwinderError::CompactUnwindInfo(_) => "CompactUnwindInfo",
            UnwinderError::Dwarf(_) => "Dwarf",
            UnwinderError::Pe(_) => "Pe",
            UnwinderError::NoDwarfData => "NoDwarfData",
            UnwinderError::NoModuleUnwindData => "NoModuleUnwindData",
            UnwinderError::EhFrameHdrCouldNotFindAddress => "EhFrameHdrCouldNotFindAddress",
            UnwinderError::DwarfCfiIndexCouldNotFindAddress => "DwarfCfiIndexCouldNotFindAddress",
        })
    }
}

impl error::Error for UnwinderError {}

impl From<DwarfUnwinderError> for UnwinderError {
    ghost from_gives = { λ error result. result ≡ Dwarf error };

    fn from(error: DwarfUnwinderError) -> Self {
        UnwinderError::Dwarf(error)
    }
}

impl From<PeUnwinderError> for UnwinderError {
    ghost from_gives = { λ error result. result ≡ Pe error };

    fn from(error: PeUnwinderError) -> Self {
        UnwinderError::Pe(error)
    }
}

/// An error of the call frames to which compact unwind info refers is an error of call frames.
impl From<CompactUnwindInfoUnwinderError> for UnwinderError {
    ghost from_gives = { λ error result. result ≡ of_compact_error error };

    fn from(error: CompactUnwindInfoUnwinderError) -> Self {
        match error {
            CompactUnwindInfoUnwinderError::BadDwarfUnwinding(error) => UnwinderError::Dwarf(error),
            error => UnwinderError::CompactUnwindInfo(error),
        }
    }
}
