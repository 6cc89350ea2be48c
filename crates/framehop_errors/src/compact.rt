//! The error of a step by compact unwind info.

ghost use Rattle.std.specs.Prelude.{◌≡◌, Some};
ghost use Rattle.framehop_errors.specs.VariantNames.{compact_error_name};
ghost use Rattle.framehop_errors.specs.declared.compact.CompactUnwindInfoUnwinderError.TheVariants.{BadFormat, BadDwarfUnwinding};

use crate::compact_format::CompactFormatError;
use crate::dwarf::DwarfUnwinderError;
use std::{error, fmt};

/// Why compact unwind info gives no rule (Apple's compact unwind encoding). Addresses are relative to the module's
/// base.
#[derive(Debug, Clone, Copy, PartialEq, Eq)]
pub enum CompactUnwindInfoUnwinderError {
    /// The bytes of `__unwind_info` can't be read.
    BadFormat(CompactFormatError),
    /// No function contains this address, in a frame that isn't the first.
    AddressOutsideRange(u32),
    /// The function has no frame, and its frame isn't the first, on aarch64.
    CallerCannotBeFrameless,
    /// The kind of the function's encoding is null: it has no unwind info.
    FunctionHasNoInfo,
    /// The offset of the saved RBP from the stack pointer, in words, is outside -2^15 to 2^15 - 1.
    BpOffsetDoesNotFit,
    /// The function's encoding has this kind, which isn't one of the architecture's.
    BadOpcodeKind(u8),
    /// The function's call frame information gives no rule and no caller.
    BadDwarfUnwinding(DwarfUnwinderError),
    /// The stack size stands in the function's code, and the text's bytes aren't there.
    NoTextBytesToLookUpIndirectStackOffset,
    /// The stack size stands in the function's code, at an offset outside of it.
    IndirectStackOffsetOutOfBounds,
    /// The stack size from the function's code plus what is added to it doesn't fit 32 bits.
    StackAdjustOverflow,
    /// The stack size isn't a multiple of 8 bytes, or it is 2^16 words or more.
    StackSizeDoesNotFit,
    /// The address is in `__stubs` or `__stub_helper`, in a frame that isn't the first.
    StubFunctionCannotBeCaller,
    /// No list of as many saved registers as the encoding counts has the permutation's number.
    InvalidFrameless,
}

/// Prints the variant's name.
impl fmt::Display for CompactUnwindInfoUnwinderError {
    ghost output = { λ error. Some (compact_error_name error) };

    fn fmt<W: fmt::Write>(&self, f: &mut fmt::Formatter<W>) -> fmt::Result {
        f.write_str(match self {
            CompactUnwindInfoUnwinderError::BadFormat(_) => "BadFormat",
            CompactUnwindInfoUnwinderError::AddressOutsideRange(_) => "AddressOutsideRange",
            CompactUnwindInfoUnwinderError::CallerCannotBeFrameless => "CallerCannotBeFrameless",
            CompactUnwindInfoUnwinderError::FunctionHasNoInfo => "FunctionHasNoInfo",
            CompactUnwindInfoUnwinderError::BpOffsetDoesNotFit => "BpOffsetDoesNotFit",
            CompactUnwindInfoUnwinderError::BadOpcodeKind(_) => "BadOpcodeKind",
            CompactUnwindInfoUnwinderError::BadDwarfUnwinding(_) => "BadDwarfUnwinding",
            CompactUnwindInfoUnwinderError::NoTextBytesToLookUpIndirectStackOffset => {
                "NoTextBytesToLookUpIndirectStackOffset"
            }
            CompactUnwindInfoUnwinderError::IndirectStackOffsetOutOfBounds => {
                "IndirectStackOffsetOutOfBounds"
            }
            CompactUnwindInfoUnwinderError::StackAdjustOverflow => "StackAdjustOverflow",
            CompactUnwindInfoUnwinderError::StackSizeDoesNotFit => "StackSizeDoesNotFit",
            CompactUnwindInfoUnwinderError::StubFunctionCannotBeCaller => {
                "StubFunctionCannotBeCaller"
            }
            CompactUnwindInfoUnwinderError::InvalidFrameless => "InvalidFrameless",
        })
    }
}

impl error::Error for CompactUnwindInfoUnwinderError {}

impl From<CompactFormatError> for CompactUnwindInfoUnwinderError {
    ghost from_gives = { λ error result. result ≡ BadFormat error };

    fn from(error: CompactFormatError) -> Self {
        CompactUnwindInfoUnwinderError::BadFormat(error)
    }
}

impl From<DwarfUnwinderError> for CompactUnwindInfoUnwinderError {
    ghost from_gives = { λ error result. result ≡ BadDwarfUnwinding error };

    fn from(error: DwarfUnwinderError) -> Self {
        CompactUnwindInfoUnwinderError::BadDwarfUnwinding(error)
    }
}
