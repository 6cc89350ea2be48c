//! The error of a step by unwind info of Windows.

ghost use Rattle.std.specs.Prelude.{Some};
ghost use Rattle.framehop_errors.specs.VariantNames.{pe_error_name};

use std::{error, fmt};

/// Why the unwind info of a PE file gives no rule and no caller (Microsoft's x64 exception handling). Addresses are
/// relative to the module's base.
#[derive(Debug, Clone, Copy, PartialEq, Eq)]
pub enum PeUnwinderError {
    /// The unwind info at this address is outside of `.rdata` and `.xdata`, or past their data.
    MissingUnwindInfoData(u32),
    /// The code at this address is outside of `.text`, or past its data, or `.text` ends before the function does.
    MissingInstructionData(u32),
    /// The word of the stack at this address can't be read, or, without an address, a register's value can't be
    /// read, or an address doesn't fit 64 bits.
    MissingStackData(Option<u64>),
    /// The unwind info is of a version other than 1, cut short, has an unknown code, or sets a frame register that it
    /// doesn't name, or its chain has more than 32 of them.
    UnwindInfoParseError,
    /// The file is for aarch64.
    Aarch64Unsupported,
}

/// Prints the variant's name.
impl fmt::Display for PeUnwinderError {
    ghost output = { λ error. Some (pe_error_name error) };

    fn fmt<W: fmt::Write>(&self, f: &mut fmt::Formatter<W>) -> fmt::Result {
        f.write_str(match self {
            PeUnwinderError::MissingUnwindInfoData(_) => "MissingUnwindInfoData",
            PeUnwinderError::MissingInstructionData(_) => "MissingInstructionData",
            PeUnwinderError::MissingStackData(_) => "MissingStackData",
            PeUnwinderError::UnwindInfoParseError => "UnwindInfoParseError",
            PeUnwinderError::Aarch64Unsupported => "Aarch64Unsupported",
        })
    }
}

impl error::Error for PeUnwinderError {}
