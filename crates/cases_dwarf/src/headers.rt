//! The FDEs and the rows for addresses, by a header.

use crate::lines::show_answer;
use crate::values::ShowValues;
use crate::words::{bytes, numbers, word};
use anyhow::Result;
use dwarf_call_frames::{EhFrameHdr, EhHdrTable};
use dwarf_constants::Result as Answer;
use dwarf_frame_entries::{
    BaseAddresses, EhFrame, UnwindContext, UnwindContextStorage, UnwindSection, UnwindTableRow,
};
use dwarf_frame_rows::StoreOnHeap;
use dwarf_readers::{EndianSlice, LittleEndian, ReaderOffset};
use shown_text::Shown;
use std::alloc::Global;
use std::str::SplitWhitespace;

type Slice<'a> = EndianSlice<'a, LittleEndian>;

// The offset of the FDE for an address.
fn offset_for<'a>(
    table: &EhHdrTable<'_, Slice<'a>>,
    frame: &EhFrame<Slice<'a>>,
    bases: &BaseAddresses,
    address: u64,
) -> Answer<u64> {
    let fde = table.fde_for_address(frame, bases, address, UnwindSection::cie_from_offset)?;
    Ok(fde.offset().into_u64())
}

// The row for an address.
fn row_for<'ctx, 'a, S: UnwindContextStorage<usize>>(
    table: &EhHdrTable<'_, Slice<'a>>,
    frame: &EhFrame<Slice<'a>>,
    bases: &BaseAddresses,
    context: &'ctx mut UnwindContext<usize, S>,
    address: u64,
) -> Answer<&'ctx UnwindTableRow<usize, S::Rules>> {
    let cie = UnwindSection::cie_from_offset;
    table.unwind_info_for_address(frame, bases, context, address, cie)
}

// A line for each address, with the FDE and the row for it.
fn show_addresses<'a, S: UnwindContextStorage<usize>>(
    table: &EhHdrTable<'_, Slice<'a>>,
    frame: &EhFrame<Slice<'a>>,
    bases: &BaseAddresses,
    context: &mut UnwindContext<usize, S>,
    addresses: &[u64],
    shown: &mut Shown,
) {
    for address in addresses {
        shown.hex("  ", *address);
        shown.answer(": ", offset_for(table, frame, bases, *address));
        shown.text(", ");
        show_answer(row_for(table, frame, bases, context, *address), shown);
    }
}

// The bytes of a section, and the address of the first.
#[derive(Drop)]
struct Placed {
    start: u64,
    bytes: Vec<u8>,
}

impl Placed {
    // Reads two words.
    fn parse(alloc: Global, words: &mut SplitWhitespace<'_>) -> Result<Self> {
        let start = word(words)?.parse::<u64>()?;
        let bytes = bytes(alloc, words)?;
        Ok(Placed { start, bytes })
    }
}

// A line for each address, if the header has a table.
fn show_found(header: &Placed, frame: &Placed, addresses: &[u64], shown: &mut Shown) -> Result<()> {
    let bases = BaseAddresses::default()
        .set_eh_frame_hdr(header.start)
        .set_eh_frame(frame.start);
    let header = EhFrameHdr::new(&header.bytes, LittleEndian).parse(&bases, 8)?;
    if let Some(table) = header.table() {
        let frame = EhFrame::new(&frame.bytes, LittleEndian);
        let mut context: UnwindContext<usize, StoreOnHeap> = UnwindContext::new(shown.alloc())?;
        show_addresses(&table, &frame, &bases, &mut context, addresses, shown);
    }
    Ok(())
}

/// Reads words: the address of the header and its bytes, those of `.eh_frame`, and addresses. Shows what is found for each address.
pub fn show_headers(line: &str, shown: &mut Shown) -> Result<()> {
    let mut words = line.split_whitespace();
    let header = Placed::parse(shown.alloc(), &mut words)?;
    let frame = Placed::parse(shown.alloc(), &mut words)?;
    let addresses = numbers(shown.alloc(), &mut words)?;
    show_found(&header, &frame, &addresses, shown)
}
