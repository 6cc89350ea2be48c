//! The lines of findings. Each begins with the file and the section.

ghost use Rattle.std.specs.Prelude.{◌∷◌, decimal};
ghost use Rattle.json_program.specs.Lines.{hexadecimal};
ghost use Rattle.line_parts.specs.Parts.{Pushes};
ghost use Rattle.dwarf_constants.specs.Error.{variant_name};
ghost use Rattle.backtrace_lint.specs.Lines.{cause_text, count_text, fault_line, fault_text, left_out_text, left_outs_text, overlap_text, overlaps_text, place_text, span_text};
ghost use Rattle.backtrace_lint.specs.PlaceViews.{place_seen};

use crate::fdes::Fault;
use crate::left_out::{LeftOut, LeftOutCause};
use crate::overlaps::{Overlap, SpannedFde};
use dwarf_constants::Error;
use line_parts::{push_bytes, push_decimal};
use std::alloc::{AllocError, Global};

/// Where findings are.
#[derive(Debug, Clone, Copy)]
pub struct Place<'a> {
    /// The path of the file.
    pub file: &'a [u8],
    /// The name of the section.
    pub section: &'a [u8],
}

/// Appends `0x` and a number in hexadecimal digits.
pub(crate) fn push_hexadecimal(
    alloc: Global,
    text: &mut Vec<u8>,
    number: u64,
) -> Result<(), AllocError>
    ensures { Pushes result text.old text.new (hexadecimal number) }
{
    let digits = format!(in alloc; "0x{number:x}")?;
    push_bytes(text, digits.as_bytes())
}

/// Appends the name of an error.
pub(crate) fn push_error(alloc: Global, text: &mut Vec<u8>, error: Error) -> Result<(), AllocError>
    ensures { Pushes result text.old text.new (variant_name error) }
{
    let name = format!(in alloc; "{error}")?;
    push_bytes(text, name.as_bytes())
}

/// Appends the file and the section.
pub(crate) fn push_place(text: &mut Vec<u8>, place: &Place<'_>) -> Result<(), AllocError>
    ensures { Pushes result text.old text.new (place_text (place_seen place.now)) }
{
    push_bytes(text, place.file)?;
    push_bytes(text, b": ")?;
    push_bytes(text, place.section)?;
    push_bytes(text, b": ")
}

/// Appends what is counted, and before the first of it.
pub(crate) fn push_count(
    alloc: Global,
    text: &mut Vec<u8>,
    place: &Place<'_>,
    what: &[u8],
    count: u64,
) -> Result<(), AllocError>
    ensures { Pushes result text.old text.new
        (count_text (place_seen place.now) what.now count) }
{
    push_place(text, place)?;
    push_bytes(text, what)?;
    push_bytes(text, b": ")?;
    push_decimal(alloc, text, count)?;
    push_bytes(text, b", first ")
}

// Appends the line of a fault.
fn push_fault_line(
    alloc: Global,
    text: &mut Vec<u8>,
    place: &Place<'_>,
    fault: &Fault,
) -> Result<(), AllocError>
    ensures { Pushes result text.old text.new (fault_line (place_seen place.now) fault.now) }
{
    push_place(text, place)?;
    push_bytes(text, b"fault: ")?;
    push_error(alloc, text, fault.error)?;
    push_bytes(text, b" at ")?;
    push_hexadecimal(alloc, text, fault.offset)?;
    push_bytes(text, b"\n")
}

/// Appends the line of the error that ends a section's list of entries, if one does.
pub fn push_fault(
    alloc: Global,
    text: &mut Vec<u8>,
    place: &Place<'_>,
    fault: &Option<Fault>,
) -> Result<(), AllocError>
    ensures { Pushes result text.old text.new (fault_text (place_seen place.now) fault.now) }
{
    match fault {
        Some(fault) => push_fault_line(alloc, text, place, fault),
        None => Ok(()),
    }
}

// Appends why an FDE is left out.
fn push_cause(alloc: Global, text: &mut Vec<u8>, cause: LeftOutCause) -> Result<(), AllocError>
    ensures { Pushes result text.old text.new (cause_text cause) }
{
    match cause {
        LeftOutCause::Unread(error) => push_error(alloc, text, error),
        LeftOutCause::FarStart => push_bytes(text, b"start of more than 32 bits"),
        LeftOutCause::FarOffset => push_bytes(text, b"offset of more than 32 bits"),
    }
}

// Appends an FDE that is left out.
fn push_left_out(alloc: Global, text: &mut Vec<u8>, out: &LeftOut) -> Result<(), AllocError>
    ensures { Pushes result text.old text.new (left_out_text out.now) }
{
    push_bytes(text, b"at ")?;
    push_hexadecimal(alloc, text, out.offset)?;
    push_bytes(text, b": ")?;
    push_cause(alloc, text, out.cause)?;
    push_bytes(text, b"\n")
}

// Appends the line of FDEs that are left out.
fn push_some_left_outs(
    alloc: Global,
    text: &mut Vec<u8>,
    place: &Place<'_>,
    first: &LeftOut,
    others: &[LeftOut],
) -> Result<(), AllocError>
    ensures { Pushes result text.old text.new
        (left_outs_text (place_seen place.now) (first.now ∷ others.now)) }
{
    let count = others.len() as u64 + 1;
    push_count(alloc, text, place, b"FDEs left out", count)?;
    push_left_out(alloc, text, first)
}

/// Appends the line of the FDEs that an index leaves out, if it leaves some out.
pub fn push_left_outs(
    alloc: Global,
    text: &mut Vec<u8>,
    place: &Place<'_>,
    outs: &[LeftOut],
) -> Result<(), AllocError>
    ensures { Pushes result text.old text.new (left_outs_text (place_seen place.now) outs.now) }
{
    match outs {
        [first, others @ ..] => push_some_left_outs(alloc, text, place, first, others),
        [] => Ok(()),
    }
}

// Appends the addresses of an FDE, and its offset.
fn push_span(alloc: Global, text: &mut Vec<u8>, fde: &SpannedFde) -> Result<(), AllocError>
    ensures { Pushes result text.old text.new (span_text fde.now) }
{
    push_hexadecimal(alloc, text, fde.start)?;
    push_bytes(text, b"..")?;
    push_hexadecimal(alloc, text, fde.end)?;
    push_bytes(text, b" at ")?;
    push_hexadecimal(alloc, text, fde.offset)
}

// Appends an overlap.
fn push_overlap(alloc: Global, text: &mut Vec<u8>, overlap: &Overlap) -> Result<(), AllocError>
    ensures { Pushes result text.old text.new (overlap_text overlap.now) }
{
    push_span(alloc, text, &overlap.first)?;
    push_bytes(text, b" and ")?;
    push_span(alloc, text, &overlap.second)?;
    push_bytes(text, b"\n")
}

// Appends the line of FDEs that overlap.
fn push_some_overlaps(
    alloc: Global,
    text: &mut Vec<u8>,
    place: &Place<'_>,
    first: &Overlap,
    others: &[Overlap],
) -> Result<(), AllocError>
    ensures { Pushes result text.old text.new
        (overlaps_text (place_seen place.now) (first.now ∷ others.now)) }
{
    let count = others.len() as u64 + 1;
    push_count(alloc, text, place, b"FDEs that overlap", count)?;
    push_overlap(alloc, text, first)
}

/// Appends the line of FDEs that overlap, if some do.
pub fn push_overlaps(
    alloc: Global,
    text: &mut Vec<u8>,
    place: &Place<'_>,
    overlaps: &[Overlap],
) -> Result<(), AllocError>
    ensures { Pushes result text.old text.new (overlaps_text (place_seen place.now) overlaps.now) }
{
    match overlaps {
        [first, others @ ..] => push_some_overlaps(alloc, text, place, first, others),
        [] => Ok(()),
    }
}
