//! The entries of a section, and the rows of each.

use crate::lookups::{fde_at, whole};
use crate::rows::show_rows;
use crate::values::ShowValues;
use dwarf_constants::Result as Answer;
use dwarf_frame_entries::{
    BaseAddresses, CommonInformationEntry, Entry, FrameDescriptionEntry,
    PartialFrameDescriptionEntry, UnwindContext, UnwindContextStorage, UnwindOffset, UnwindSection,
};
use dwarf_readers::{Reader, ReaderOffset};
use shown_text::Shown;

// How many entries of a section are shown at most.
const MOST: usize = 100_000;

// A line for a CIE.
fn show_cie<R: Reader>(cie: &CommonInformationEntry<R>, shown: &mut Shown) {
    shown.hex("cie ", cie.offset().into_u64());
    shown.hex(" length ", cie.entry_len().into_u64());
    shown.number(" version ", u64::from(cie.version()));
    shown.number(" size ", u64::from(cie.address_size()));
    shown.number(" factors ", cie.code_alignment_factor());
    shown.signed(" ", cie.data_alignment_factor());
    shown.number(" register ", u64::from(cie.return_address_register().0));
    shown.value(" ", &cie.augmentation().copied());
    shown.end();
}

// The end of an FDE's line: its code and its pointer to language-specific data, or the error.
fn show_code<R: Reader>(fde: Answer<FrameDescriptionEntry<R>>, shown: &mut Shown) {
    match fde {
        Ok(fde) => {
            shown.hex(" code ", fde.initial_address());
            shown.hex(" ", fde.len());
            shown.value(" ", &fde.lsda());
            shown.end();
        }
        Err(error) => shown.error_line(" ", error),
    }
}

// Lines for an FDE: its parts by its offset, and its rows, or the error of the entry that was listed.
fn show_fde<R: Reader, S: UnwindContextStorage<R::Offset>, Section: UnwindSection<R>>(
    section: &Section,
    bases: &BaseAddresses,
    partial: &PartialFrameDescriptionEntry<'_, Section, R>,
    context: &mut UnwindContext<R::Offset, S>,
    shown: &mut Shown,
) {
    let offset = partial.offset();
    shown.hex("fde ", offset.into_u64());
    shown.hex(" length ", partial.entry_len().into_u64());
    let cie = UnwindOffset::into(partial.cie_offset());
    shown.hex(" cie ", cie.into_u64());
    show_code(fde_at(section, bases, Section::Offset::from(offset)), shown);
    match whole(section, partial) {
        Ok(fde) => show_rows(section, bases, &fde, context, shown),
        Err(error) => shown.error_line("  ", error),
    }
}

/// Lines for each entry and its rows, for an error, and for the end, after which no entry comes.
pub fn show_entries<R: Reader, S: UnwindContextStorage<R::Offset>, Section: UnwindSection<R>>(
    section: &Section,
    bases: &BaseAddresses,
    context: &mut UnwindContext<R::Offset, S>,
    shown: &mut Shown,
) {
    let mut entries = section.entries(bases);
    for _ in 0..MOST {
        match entries.next() {
            Ok(Some(Entry::Cie(cie))) => show_cie(&cie, shown),
            Ok(Some(Entry::Fde(fde))) => show_fde(section, bases, &fde, context, shown),
            Err(error) => shown.error_line("", error),
            Ok(None) => break,
        }
    }
    if let Ok(None) = entries.next() {
        shown.text("end\n");
    }
}
