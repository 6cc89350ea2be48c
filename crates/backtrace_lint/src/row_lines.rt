//! Findings in the rows of FDEs, and their lines.

ghost use Rattle.std.specs.Prelude.{◌∷◌};
ghost use Rattle.line_parts.specs.Parts.{Pushes};
ghost use Rattle.backtrace_lint.specs.PlaceViews.{place_seen};
ghost use Rattle.backtrace_lint.specs.RowLines.{failed_text, faileds_text, start_text, unsaids_text};

use crate::lines::{Place, push_count, push_error, push_hexadecimal};
use dwarf_constants::Error;
use line_parts::push_bytes;
use std::alloc::{AllocError, Global};

/// An FDE whose rows end with an error.
#[derive(Debug, Clone, Copy, PartialEq, Eq)]
pub struct FailedFde {
    /// The FDE's offset in the section, in bytes.
    pub offset: u64,
    /// The error.
    pub error: Error,
}

// Appends where a row starts.
fn push_start(alloc: Global, text: &mut Vec<u8>, start: u64) -> Result<(), AllocError>
    ensures { Pushes result text.old text.new (start_text start) }
{
    push_bytes(text, b"from ")?;
    push_hexadecimal(alloc, text, start)?;
    push_bytes(text, b"\n")
}

// Appends the line of rows without an unwind rule.
fn push_some_unsaid(
    alloc: Global,
    text: &mut Vec<u8>,
    place: &Place<'_>,
    first: u64,
    others: &[u64],
) -> Result<(), AllocError>
    ensures { Pushes result text.old text.new
        (unsaids_text (place_seen place.now) (first ∷ others.now)) }
{
    let count = others.len() as u64 + 1;
    push_count(alloc, text, place, b"rows without an unwind rule", count)?;
    push_start(alloc, text, first)
}

/// Appends the line of rows that no unwind rule says exactly, by their first addresses, if there are some.
pub fn push_unsaid(
    alloc: Global,
    text: &mut Vec<u8>,
    place: &Place<'_>,
    starts: &[u64],
) -> Result<(), AllocError>
    ensures { Pushes result text.old text.new (unsaids_text (place_seen place.now) starts.now) }
{
    match starts {
        [first, others @ ..] => push_some_unsaid(alloc, text, place, *first, others),
        [] => Ok(()),
    }
}

// Appends an FDE whose rows end with an error.
fn push_failed_fde(alloc: Global, text: &mut Vec<u8>, fde: &FailedFde) -> Result<(), AllocError>
    ensures { Pushes result text.old text.new (failed_text fde.now) }
{
    push_bytes(text, b"at ")?;
    push_hexadecimal(alloc, text, fde.offset)?;
    push_bytes(text, b": ")?;
    push_error(alloc, text, fde.error)?;
    push_bytes(text, b"\n")
}

// Appends the line of such FDEs.
fn push_some_failed(
    alloc: Global,
    text: &mut Vec<u8>,
    place: &Place<'_>,
    first: &FailedFde,
    others: &[FailedFde],
) -> Result<(), AllocError>
    ensures { Pushes result text.old text.new
        (faileds_text (place_seen place.now) (first.now ∷ others.now)) }
{
    let count = others.len() as u64 + 1;
    push_count(alloc, text, place, b"FDEs whose rows fail", count)?;
    push_failed_fde(alloc, text, first)
}

/// Appends the line of FDEs whose rows end with an error, if there are some.
pub fn push_failed(
    alloc: Global,
    text: &mut Vec<u8>,
    place: &Place<'_>,
    fdes: &[FailedFde],
) -> Result<(), AllocError>
    ensures { Pushes result text.old text.new (faileds_text (place_seen place.now) fdes.now) }
{
    match fdes {
        [first, others @ ..] => push_some_failed(alloc, text, place, first, others),
        [] => Ok(()),
    }
}
