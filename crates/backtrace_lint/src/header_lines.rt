//! The lines of findings in an `.eh_frame_hdr`.

ghost use Rattle.std.specs.Prelude.{◌∷◌};
ghost use Rattle.line_parts.specs.Parts.{Pushes};
ghost use Rattle.backtrace_lint.specs.HeaderLines.{header_fault_text, located_text, named_text, no_fde_text, other_start_text, reason_text, row_text, rowless_text, rows_text, unordered_text, unordereds_text, untrue_text, untrues_text};
ghost use Rattle.backtrace_lint.specs.PlaceViews.{place_seen};

use crate::header_tables::{
    HeaderFault, HeaderRow, LocatedFde, UnorderedRow, UntrueRow, rowless_fdes, unordered_rows,
    untrue_rows,
};
use crate::lines::{Place, push_count, push_error, push_hexadecimal, push_place};
use line_parts::{push_bytes, push_decimal};
use std::alloc::{AllocError, Global};

// Appends why rows can't be compared with FDEs.
fn push_reason(alloc: Global, text: &mut Vec<u8>, fault: HeaderFault) -> Result<(), AllocError>
    ensures { Pushes result text.old text.new (reason_text fault) }
{
    match fault {
        HeaderFault::Unread(error) => {
            push_bytes(text, b"fault: ")?;
            push_error(alloc, text, error)
        }
        HeaderFault::OtherSection(address) => {
            push_bytes(text, b"another .eh_frame, at ")?;
            push_hexadecimal(alloc, text, address)
        }
        HeaderFault::NoTable => push_bytes(text, b"no table"),
        HeaderFault::UnreadRow(index, error) => {
            push_bytes(text, b"fault: ")?;
            push_error(alloc, text, error)?;
            push_bytes(text, b" in row ")?;
            push_decimal(alloc, text, index)
        }
    }
}

/// Appends the line of a header whose rows can't be compared with FDEs.
pub fn push_header_fault(
    alloc: Global,
    text: &mut Vec<u8>,
    place: &Place<'_>,
    fault: HeaderFault,
) -> Result<(), AllocError>
    ensures { Pushes result text.old text.new (header_fault_text (place_seen place.now) fault) }
{
    push_place(text, place)?;
    push_reason(alloc, text, fault)?;
    push_bytes(text, b"\n")
}

// Appends a row's index and its start.
fn push_row(alloc: Global, text: &mut Vec<u8>, index: u64, start: u64) -> Result<(), AllocError>
    ensures { Pushes result text.old text.new (row_text index start) }
{
    push_bytes(text, b"row ")?;
    push_decimal(alloc, text, index)?;
    push_bytes(text, b": ")?;
    push_hexadecimal(alloc, text, start)
}

// Appends a row that doesn't start above the one before it.
fn push_unordered(alloc: Global, text: &mut Vec<u8>, row: &UnorderedRow) -> Result<(), AllocError>
    ensures { Pushes result text.old text.new (unordered_text row.now) }
{
    push_row(alloc, text, row.index, row.start)?;
    push_bytes(text, b" after ")?;
    push_hexadecimal(alloc, text, row.before)?;
    push_bytes(text, b"\n")
}

// Appends the line of rows that are out of order.
fn push_some_unordered(
    alloc: Global,
    text: &mut Vec<u8>,
    place: &Place<'_>,
    first: &UnorderedRow,
    others: &[UnorderedRow],
) -> Result<(), AllocError>
    ensures { Pushes result text.old text.new
        (unordereds_text (place_seen place.now) (first.now ∷ others.now)) }
{
    let count = others.len() as u64 + 1;
    push_count(alloc, text, place, b"rows out of order", count)?;
    push_unordered(alloc, text, first)
}

// Appends the line of rows that are out of order, if some are.
fn push_unordereds(
    alloc: Global,
    text: &mut Vec<u8>,
    place: &Place<'_>,
    rows: &[UnorderedRow],
) -> Result<(), AllocError>
    ensures { Pushes result text.old text.new (unordereds_text (place_seen place.now) rows.now) }
{
    match rows {
        [first, others @ ..] => push_some_unordered(alloc, text, place, first, others),
        [] => Ok(()),
    }
}

// Appends that no FDE is at the address that a row names.
fn push_no_fde(alloc: Global, text: &mut Vec<u8>, address: u64) -> Result<(), AllocError>
    ensures { Pushes result text.old text.new (no_fde_text address) }
{
    push_bytes(text, b", no FDE at ")?;
    push_hexadecimal(alloc, text, address)?;
    push_bytes(text, b"\n")
}

// Appends where the FDE at the address that a row names starts.
fn push_other_start(
    alloc: Global,
    text: &mut Vec<u8>,
    address: u64,
    start: u64,
) -> Result<(), AllocError>
    ensures { Pushes result text.old text.new (other_start_text address start) }
{
    push_bytes(text, b", FDE at ")?;
    push_hexadecimal(alloc, text, address)?;
    push_bytes(text, b" starts at ")?;
    push_hexadecimal(alloc, text, start)?;
    push_bytes(text, b"\n")
}

// Appends what is at the address that a row names.
fn push_named(
    alloc: Global,
    text: &mut Vec<u8>,
    address: u64,
    named: Option<u64>,
) -> Result<(), AllocError>
    ensures { Pushes result text.old text.new (named_text address named) }
{
    match named {
        Some(start) => push_other_start(alloc, text, address, start),
        None => push_no_fde(alloc, text, address),
    }
}

// Appends a row that isn't an FDE's.
fn push_untrue(alloc: Global, text: &mut Vec<u8>, untrue: &UntrueRow) -> Result<(), AllocError>
    ensures { Pushes result text.old text.new (untrue_text untrue.now) }
{
    push_row(alloc, text, untrue.index, untrue.row.start)?;
    push_named(alloc, text, untrue.row.fde, untrue.named)
}

// Appends the line of rows that aren't an FDE's.
fn push_some_untrue(
    alloc: Global,
    text: &mut Vec<u8>,
    place: &Place<'_>,
    first: &UntrueRow,
    others: &[UntrueRow],
) -> Result<(), AllocError>
    ensures { Pushes result text.old text.new
        (untrues_text (place_seen place.now) (first.now ∷ others.now)) }
{
    let count = others.len() as u64 + 1;
    push_count(alloc, text, place, b"rows without their FDE", count)?;
    push_untrue(alloc, text, first)
}

// Appends the line of rows that aren't an FDE's, if some aren't.
fn push_untrues(
    alloc: Global,
    text: &mut Vec<u8>,
    place: &Place<'_>,
    rows: &[UntrueRow],
) -> Result<(), AllocError>
    ensures { Pushes result text.old text.new (untrues_text (place_seen place.now) rows.now) }
{
    match rows {
        [first, others @ ..] => push_some_untrue(alloc, text, place, first, others),
        [] => Ok(()),
    }
}

// Appends where an FDE is.
fn push_located(alloc: Global, text: &mut Vec<u8>, fde: &LocatedFde) -> Result<(), AllocError>
    ensures { Pushes result text.old text.new (located_text fde.now) }
{
    push_bytes(text, b"at ")?;
    push_hexadecimal(alloc, text, fde.offset)?;
    push_bytes(text, b"\n")
}

// Appends the line of FDEs without a row.
fn push_some_rowless(
    alloc: Global,
    text: &mut Vec<u8>,
    place: &Place<'_>,
    first: &LocatedFde,
    others: &[LocatedFde],
) -> Result<(), AllocError>
    ensures { Pushes result text.old text.new
        (rowless_text (place_seen place.now) (first.now ∷ others.now)) }
{
    let count = others.len() as u64 + 1;
    push_count(alloc, text, place, b"FDEs without a row", count)?;
    push_located(alloc, text, first)
}

// Appends the line of FDEs without a row, if there are some.
fn push_rowless(
    alloc: Global,
    text: &mut Vec<u8>,
    place: &Place<'_>,
    fdes: &[LocatedFde],
) -> Result<(), AllocError>
    ensures { Pushes result text.old text.new (rowless_text (place_seen place.now) fdes.now) }
{
    match fdes {
        [first, others @ ..] => push_some_rowless(alloc, text, place, first, others),
        [] => Ok(()),
    }
}

/// Appends the lines of a table of rows beside the FDEs of its section that can be read: a line for the rows that are out of order, one
/// for those that aren't an FDE's, and one for the FDEs that have none. `section` is the address of `.eh_frame`.
pub fn push_header_rows(
    alloc: Global,
    text: &mut Vec<u8>,
    place: &Place<'_>,
    section: u64,
    rows: &[HeaderRow],
    fdes: &[LocatedFde],
) -> Result<(), AllocError>
    ensures { Pushes result text.old text.new
        (rows_text (place_seen place.now) section rows.now fdes.now) }
{
    let unordered = unordered_rows(alloc, rows)?;
    push_unordereds(alloc, text, place, &unordered)?;
    let untrue = untrue_rows(alloc, section, rows, fdes)?;
    push_untrues(alloc, text, place, &untrue)?;
    let rowless = rowless_fdes(alloc, section, rows, fdes)?;
    push_rowless(alloc, text, place, &rowless)
}
