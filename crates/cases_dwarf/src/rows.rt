//! The rows of an FDE, one after the other and by address.

use crate::lines::{show_answer, show_row};
use crate::lookups::fde_at;
use crate::values::ShowValues;
use anyhow::{Context, Result};
use dwarf_frame_entries::{
    BaseAddresses, FrameDescriptionEntry, UnwindContext, UnwindContextStorage, UnwindOffset,
    UnwindSection, UnwindTable,
};
use dwarf_readers::{Reader, ReaderOffset};
use shown_text::Shown;

// How many rows of an entry are shown at most.
const MOST_ROWS: usize = 100_000;

// Adds a line for each row of a table, and for the error, after which there is no row.
fn show_table<R: Reader, S: UnwindContextStorage<R::Offset>>(
    table: &mut UnwindTable<'_, '_, R, S>,
    shown: &mut Shown,
) {
    for _ in 0..MOST_ROWS {
        match table.next_row() {
            Ok(Some(row)) => {
                shown.text("  ");
                show_row(row, shown);
                shown.end();
            }
            Ok(None) => return,
            Err(error) => shown.error_line("  ", error),
        }
    }
}

/// Adds a line for each row of an entry, and for the error. An error in its CIE comes at once.
pub fn show_rows<R: Reader, S: UnwindContextStorage<R::Offset>, Section: UnwindSection<R>>(
    section: &Section,
    bases: &BaseAddresses,
    fde: &FrameDescriptionEntry<R>,
    context: &mut UnwindContext<R::Offset, S>,
    shown: &mut Shown,
) {
    match fde.rows(section, bases, context) {
        Ok(mut table) => show_table(&mut table, shown),
        Err(error) => shown.error_line("  at once ", error),
    }
}

// Adds a line for each address: the row for it, or the error.
fn show_addresses<R: Reader, S: UnwindContextStorage<R::Offset>, Section: UnwindSection<R>>(
    section: &Section,
    bases: &BaseAddresses,
    fde: &FrameDescriptionEntry<R>,
    context: &mut UnwindContext<R::Offset, S>,
    addresses: &[u64],
    shown: &mut Shown,
) {
    for address in addresses {
        shown.hex("  ", *address);
        shown.text(": ");
        let row = fde.unwind_info_for_address(section, bases, context, *address);
        show_answer(row, shown);
    }
}

// The rows of an FDE, and those for addresses. By the context that was used for all of them the rows have to be the same.
fn show_twice<R: Reader, S: UnwindContextStorage<R::Offset>, Section: UnwindSection<R>>(
    section: &Section,
    bases: &BaseAddresses,
    fde: &FrameDescriptionEntry<R>,
    context: &mut UnwindContext<R::Offset, S>,
    addresses: &[u64],
    shown: &mut Shown,
) -> Result<()> {
    show_rows(section, bases, fde, context, shown);
    show_addresses(section, bases, fde, context, addresses, shown);
    let mut again = Shown::new(shown.alloc());
    show_rows(section, bases, fde, context, &mut again);
    let again = again.finish()?;
    if !shown.as_bytes().starts_with(&again) {
        shown.text("otherwise by a context that served other programs\n");
    }
    Ok(())
}

/// The rows of the FDE at the offset that the first number says, one after the other and for the addresses that the others say, and once
/// more by the context that was used for all of them.
pub fn show_program<R: Reader, S: UnwindContextStorage<R::Offset>, Section: UnwindSection<R>>(
    section: &Section,
    bases: &BaseAddresses,
    numbers: &[u64],
    context: &mut UnwindContext<R::Offset, S>,
    shown: &mut Shown,
) -> Result<()> {
    let (offset, addresses) = numbers.split_first().context("an offset")?;
    let offset = Section::Offset::from(R::Offset::from_u64(*offset)?);
    let fde = fde_at(section, bases, offset)?;
    show_twice(section, bases, &fde, context, addresses, shown)
}
