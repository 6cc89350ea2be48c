//! What sections have for addresses and at offsets.

use crate::lines::{edges, show_answer};
use crate::values::ShowValues;
use dwarf_constants::{Error, Result as Answer};
use dwarf_frame_entries::{
    _UnwindSectionPrivate, BaseAddresses, FrameDescriptionEntry, PartialFrameDescriptionEntry,
    UnwindContext, UnwindContextStorage, UnwindSection, UnwindTableRow,
};
use dwarf_readers::{Reader, ReaderOffset};
use shown_text::Shown;

// A reader, for which the type names the types that belong to it.
#[derive(Clone, Copy)]
struct Of<R: Reader> {
    reader: R,
}

/// The FDE at an offset, with its CIE.
pub fn fde_at<R: Reader, Section: UnwindSection<R>>(
    section: &Section,
    bases: &BaseAddresses,
    offset: Section::Offset,
) -> Answer<FrameDescriptionEntry<R>> {
    let of = Of {
        reader: *section.section(),
    };
    section.fde_from_offset(bases, offset, move |s, b, o| {
        let _of = of;
        s.cie_from_offset(b, o)
    })
}

/// The whole FDE, with its CIE.
pub fn whole<R: Reader, Section: UnwindSection<R>>(
    section: &Section,
    partial: &PartialFrameDescriptionEntry<'_, Section, R>,
) -> Answer<FrameDescriptionEntry<R>> {
    let of = Of {
        reader: *section.section(),
    };
    partial.parse(move |s, b, o| {
        let _of = of;
        s.cie_from_offset(b, o)
    })
}

// The first FDE for an address.
fn first_for<R: Reader, Section: UnwindSection<R>>(
    section: &Section,
    bases: &BaseAddresses,
    address: u64,
) -> Answer<FrameDescriptionEntry<R>> {
    let of = Of {
        reader: *section.section(),
    };
    section.fde_for_address(bases, address, move |s, b, o| {
        let _of = of;
        s.cie_from_offset(b, o)
    })
}

// The first FDE for an address that can be read, or what comes if there is no memory for a CIE.
fn readable_for<R: Reader, Section: UnwindSection<R>>(
    section: &Section,
    bases: &BaseAddresses,
    address: u64,
    has_memory: bool,
) -> Answer<FrameDescriptionEntry<R>> {
    let of = Of {
        reader: *section.section(),
    };
    section.fde_for_address_skipping(bases, address, move |s, b, o| {
        let _of = of;
        if !has_memory {
            return Err(Error::OutOfMemory);
        }
        s.cie_from_offset(b, o)
    })
}

// The row for an address.
fn row_for<'ctx, R: Reader, S: UnwindContextStorage<R::Offset>, Section: UnwindSection<R>>(
    section: &Section,
    bases: &BaseAddresses,
    context: &'ctx mut UnwindContext<R::Offset, S>,
    address: u64,
) -> Answer<&'ctx UnwindTableRow<R::Offset, S::Rules>> {
    let of = Of {
        reader: *section.section(),
    };
    section.unwind_info_for_address(bases, context, address, move |s, b, o| {
        let _of = of;
        s.cie_from_offset(b, o)
    })
}

// The offset of an FDE, or the error.
fn offset_of<R: Reader>(fde: Answer<FrameDescriptionEntry<R>>) -> Answer<u64> {
    Ok(fde?.offset().into_u64())
}

// Adds an address and the offset of the first FDE for it or the error, that of the first that can be read, and what comes if memory is
// wanted.
fn show_fdes<R: Reader, Section: UnwindSection<R>>(
    section: &Section,
    bases: &BaseAddresses,
    address: u64,
    shown: &mut Shown,
) {
    shown.hex("  ", address);
    shown.answer(": ", offset_of(first_for(section, bases, address)));
    let readable = readable_for(section, bases, address, true);
    shown.answer(", ", offset_of(readable));
    let wanting = readable_for(section, bases, address, false);
    shown.answer(", ", offset_of(wanting));
}

/// A line for each address: the FDEs for it, and the row or an error.
pub fn show_lookups<R: Reader, S: UnwindContextStorage<R::Offset>, Section: UnwindSection<R>>(
    section: &Section,
    bases: &BaseAddresses,
    addresses: &[u64],
    context: &mut UnwindContext<R::Offset, S>,
    shown: &mut Shown,
) {
    for address in addresses {
        show_fdes(section, bases, *address, shown);
        shown.text(", ");
        show_answer(row_for(section, bases, context, *address), shown);
    }
}

// Adds whether an FDE's code contains its first address, its last and those beside them.
fn show_contained<R: Reader>(fde: &FrameDescriptionEntry<R>, shown: &mut Shown) {
    shown.text(" contains");
    for address in edges(fde.initial_address(), fde.end_address()) {
        shown.flag(" ", fde.contains(address));
    }
    shown.end();
}

// Adds an FDE's place, the version of its CIE, and the end of its code; and whether its code contains its first address, its last and
// those beside them. Or adds the error.
fn show_place<R: Reader>(fde: Answer<FrameDescriptionEntry<R>>, shown: &mut Shown) {
    match fde {
        Ok(fde) => {
            shown.hex(", ", fde.offset().into_u64());
            shown.hex(" length ", fde.entry_len().into_u64());
            shown.number(" version ", u64::from(fde.cie().version()));
            shown.hex(" end ", fde.end_address());
            show_contained(&fde, shown);
        }
        Err(error) => shown.error_line(", ", error),
    }
}

// A line for an offset: the CIE there or an error, and the FDE or an error.
fn show_at<R: Reader, Section: UnwindSection<R>>(
    section: &Section,
    bases: &BaseAddresses,
    offset: Section::Offset,
    shown: &mut Shown,
) {
    match section.cie_from_offset(bases, offset) {
        Ok(cie) => shown.hex("  ", cie.offset().into_u64()),
        Err(error) => shown.error("  ", error),
    }
    match section.partial_fde_from_offset(bases, offset) {
        Ok(partial) => show_place(partial.parse_by_offset(), shown),
        Err(error) => shown.error_line(", ", error),
    }
}

/// A line for each offset: the CIE there or an error, and the FDE or an error.
pub fn show_offsets<R: Reader, Section: UnwindSection<R>>(
    section: &Section,
    bases: &BaseAddresses,
    offsets: &[u64],
    shown: &mut Shown,
) -> Answer<()> {
    for offset in offsets {
        let offset = Section::Offset::from(R::Offset::from_u64(*offset)?);
        show_at(section, bases, offset, shown);
    }
    Ok(())
}
