//! What errors are for a module.

ghost use Rattle.std.specs.Prelude.{◌≡◌};
ghost use Rattle.framehop.specs.RowAttempts.{dwarf_failure, failure_of};

use framehop_errors::{DwarfUnwinderError, PeUnwinderError, UnwinderError};
use framehop_unwinder::UnwindFailure;

// What an error of call frames is for the module: it says nothing of the address if the FDE isn't known, and
// gives no caller for these registers after any other but want of memory.
fn dwarf_failure(error: DwarfUnwinderError) -> UnwindFailure
    ensures { result ≡ dwarf_failure error }
{
    match error {
        DwarfUnwinderError::FdeFromOffsetFailed(_)
        | DwarfUnwinderError::UnwindInfoForAddressFailed(_)
        | DwarfUnwinderError::LookupAddressOverflow => UnwindFailure::OfModule,
        DwarfUnwinderError::CouldNotRecoverCfa
        | DwarfUnwinderError::CouldNotRecoverReturnAddress
        | DwarfUnwinderError::CouldNotRecoverFramePointer
        | DwarfUnwinderError::DidNotAdvance
        | DwarfUnwinderError::StackPointerMovedBackwards => UnwindFailure::OfFrame,
        DwarfUnwinderError::OutOfMemory => UnwindFailure::OutOfMemory,
    }
}

// What an error of unwind data is for the module.
pub(crate) fn failure_of(error: UnwinderError) -> UnwindFailure
    ensures { result ≡ failure_of error }
{
    match error {
        UnwinderError::Dwarf(error) => dwarf_failure(error),
        UnwinderError::Pe(PeUnwinderError::MissingStackData(_)) => UnwindFailure::OfFrame,
        UnwinderError::CompactUnwindInfo(_)
        | UnwinderError::Pe(_)
        | UnwinderError::NoDwarfData
        | UnwinderError::NoModuleUnwindData
        | UnwinderError::EhFrameHdrCouldNotFindAddress
        | UnwinderError::DwarfCfiIndexCouldNotFindAddress => UnwindFailure::OfModule,
    }
}
