//! The error of reading compact unwind info.

ghost use Rattle.std.specs.Prelude.{Some};
ghost use Rattle.framehop_errors.specs.VariantNames.{compact_format_error_name};

use std::{error, fmt};

/// Why the bytes of `__unwind_info` can't be read (Apple's compact unwind encoding).
#[derive(Debug, Clone, Copy, PartialEq, Eq)]
pub enum CompactFormatError {
    /// The header, the index, a page's header, its entries or the encoding that is read aren't whole in the data.
    Truncated,
    /// The kind of a page is neither that of a regular page (2) nor that of a compressed one (3).
    BadPageKind(u32),
    /// The entry of a compressed page names an encoding that neither the common ones nor the page's have.
    BadEncodingIndex,
}

/// Prints the variant's name.
impl fmt::Display for CompactFormatError {
    ghost output = { λ error. Some (compact_format_error_name error) };

    fn fmt<W: fmt::Write>(&self, f: &mut fmt::Formatter<W>) -> fmt::Result {
        f.write_str(match self {
            CompactFormatError::Truncated => "Truncated",
            CompactFormatError::BadPageKind(_) => "BadPageKind",
            CompactFormatError::BadEncodingIndex => "BadEncodingIndex",
        })
    }
}

impl error::Error for CompactFormatError {}
