//! Headers, the rows of their tables, and lookups in these.

use crate::case::Case;
use crate::values::ShowValues;
use dwarf_call_frames::{
    BaseAddresses, EhFrameHdr, EhHdrTable, EhHdrTableIter, ParsedEhFrameHdr, Pointer,
};
use dwarf_constants::Result as Answer;
use dwarf_readers::{Counted, Reader, ReaderOffset, Steps, count_steps};
use shown_text::Shown;
use std::sync::ledger::Ledger;

// How many rows are shown at most.
const MOST_ROWS: usize = 9;

// A lookup of an address, whose steps are the starts that it reads.
#[derive(Drop)]
struct CountedLookup<'t, 'a, 'b, R: Reader> {
    table: &'t EhHdrTable<'a, R>,
    address: u64,
    bases: &'b BaseAddresses,
}

impl<'t, 'a, 'b, R: Reader> Counted for CountedLookup<'t, 'a, 'b, R> {
    ghost use Rattle.std.specs.Prelude.{◌≡◌};
    ghost use Rattle.dwarf_call_frames.specs.HeaderTable.{header_table, starts_read};

    type Answer = Answer<Pointer>;

    ghost says = { λ c answer n. n ≡ starts_read R.Offset.limit c.address
        (header_table c.bases.now.eh_frame_hdr c.table.now) };

    fn run<L: Ledger>(self, steps: &mut Steps<L>) -> Answer<Pointer> {
        self.table.lookup_counted(self.address, self.bases, steps)
    }
}

// An address in hexadecimal, after a `*` if the pointer to it is indirect.
fn show_pointer(before: &str, pointer: Pointer, shown: &mut Shown) {
    shown.text(before);
    match pointer {
        Pointer::Direct(address) => shown.hex("", address),
        Pointer::Indirect(address) => shown.hex("*", address),
    }
}

// A row, an error, or "end".
fn show_row(row: Answer<Option<(Pointer, Pointer)>>, shown: &mut Shown) {
    match row {
        Ok(Some((start, target))) => {
            show_pointer("", start, shown);
            show_pointer(" ", target, shown);
        }
        Ok(None) => shown.text("end"),
        Err(error) => shown.error("", error),
    }
}

// The first rows, one after the other.
fn show_rows<R: Reader>(mut rows: EhHdrTableIter<'_, '_, R>, shown: &mut Shown) {
    let (least, most) = rows.size_hint();
    shown.number("", least as u64);
    shown.value(" rows, ", &most);
    shown.text(" at most\n");
    for _ in 0..MOST_ROWS {
        shown.text("  ");
        show_row(rows.next(), shown);
        shown.end();
    }
    shown.number("", rows.size_hint().0 as u64);
    shown.text(" rows left\n");
}

// The row after some others, and how many are left then.
fn show_behind<R: Reader>(mut rows: EhHdrTableIter<'_, '_, R>, count: u64, shown: &mut Shown) {
    shown.number("  behind ", count);
    shown.text(": ");
    show_row(rows.nth(count as usize), shown);
    shown.number(", ", rows.size_hint().0 as u64);
    shown.text(" rows left\n");
}

// A pointer's offset from the start of `.eh_frame`, or the error, and the end of the line.
fn show_offset<R: Reader>(table: &EhHdrTable<'_, R>, pointer: Pointer, shown: &mut Shown) {
    match table.pointer_to_offset(pointer) {
        Ok(offset) => shown.hex(" at ", offset.0.into_u64()),
        Err(error) => shown.error(" ", error),
    }
    shown.end();
}

// The pointer for an address with its offset from the start of `.eh_frame`, or the error of either. A lookup that is counted has to find
// the same.
fn show_address<R: Reader>(
    table: &EhHdrTable<'_, R>,
    bases: &BaseAddresses,
    address: u64,
    shown: &mut Shown,
) {
    let found = table.lookup(address, bases);
    let counted = count_steps(CountedLookup {
        table,
        address,
        bases,
    });
    if counted != found {
        shown.text("otherwise if it is counted\n");
    }
    shown.hex("  ", address);
    match found {
        Ok(pointer) => {
            show_pointer(": ", pointer, shown);
            show_offset(table, pointer, shown);
        }
        Err(error) => shown.error_line(": ", error),
    }
}

// What is asked of a table: its rows, those behind so many, and lookups of addresses.
fn show_table<R: Reader>(
    case: &Case<'_>,
    table: &EhHdrTable<'_, R>,
    bases: &BaseAddresses,
    shown: &mut Shown,
) {
    show_rows(table.iter(bases), shown);
    for count in &case.behind {
        show_behind(table.iter(bases), *count, shown);
    }
    for address in &case.numbers {
        show_address(table, bases, *address, shown);
    }
}

// The start of `.eh_frame` by a header, and its table.
fn show_header<R: Reader>(
    case: &Case<'_>,
    header: &ParsedEhFrameHdr<R>,
    bases: &BaseAddresses,
    shown: &mut Shown,
) {
    show_pointer("start ", header.eh_frame_ptr(), shown);
    shown.end();
    match header.table() {
        Some(table) => show_table(case, &table, bases, shown),
        None => shown.text("no table\n"),
    }
}

/// What is shown of a header. The numbers are addresses that are looked up, and those behind them numbers of rows that are skipped.
pub fn show<R: Reader>(case: &Case<'_>, reader: R, shown: &mut Shown) {
    let bases = match case.start {
        Some(start) => BaseAddresses::default()
            .set_eh_frame_hdr(start)
            .set_text(0x1000),
        None => BaseAddresses::default(),
    };
    match EhFrameHdr::from(reader).parse(&bases, case.address_size) {
        Ok(header) => show_header(case, &header, &bases, shown),
        Err(error) => shown.error_line("", error),
    }
}
