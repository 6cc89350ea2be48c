//! Passes over the entries of a section.

use dwarf_constants::Result;
use dwarf_frame_entries::{
    BaseAddresses, CommonInformationEntry, Entry, FrameDescriptionEntry,
    PartialFrameDescriptionEntry, UnwindContext, UnwindContextStorage, UnwindSection,
    UnwindTableRow,
};
use dwarf_frame_rows::{CfaRule, RegisterRule, RuledRegister};
use dwarf_readers::{Reader, ReaderOffset};
use dwarf_storage::ArrayLike;
use std::alloc::Global;

/// The result of a pass.
#[derive(Clone, Copy)]
pub struct Tally {
    /// How many there are.
    pub count: u64,
    /// The sum of some of their parts, modulo 2^64.
    pub sum: u64,
}

impl Tally {
    pub fn new() -> Tally {
        Tally { count: 0, sum: 0 }
    }

    fn count(&mut self, part: u64) {
        self.count = self.count.wrapping_add(1);
        self.sum = self.sum.wrapping_add(part);
    }
}

/// Lists the entries, and adds up the offsets of the CIEs. FDEs are read without their CIEs.
pub fn list_entries<R: Reader, Section: UnwindSection<R>>(
    section: &Section,
    bases: &BaseAddresses,
) -> Result<Tally> {
    let mut tally = Tally::new();
    let mut entries = section.entries(bases);
    'entries: while let Some(entry) = entries.next()? {
        match &entry {
            Entry::Cie(cie) => tally.count(cie.offset().into_u64()),
            Entry::Fde(_) => tally.count(1),
        }
    }
    Ok(tally)
}

/// The CIE that was read last, and its offset.
#[derive(Drop)]
struct LastCie<R: Reader, Section: UnwindSection<R>> {
    offset: Section::Offset,
    cie: CommonInformationEntry<R>,
}

/// An FDE with its CIE.
#[inline(always)]
fn fde_with<R: Reader, Section: UnwindSection<R>>(
    partial: &PartialFrameDescriptionEntry<'_, Section, R>,
    cie: &CommonInformationEntry<R>,
) -> Result<FrameDescriptionEntry<R>> {
    partial.parse(move |_section, _bases, _offset| Ok(cie.clone()?))
}

/// Reads the CIE at an offset, and keeps it.
#[inline(never)]
fn read_cie<R: Reader, Section: UnwindSection<R>>(
    section: &Section,
    bases: &BaseAddresses,
    offset: Section::Offset,
    last: &mut Option<LastCie<R, Section>>,
) -> Result<CommonInformationEntry<R>> {
    let cie = section.cie_from_offset(bases, offset)?;
    *last = Some(LastCie {
        offset,
        cie: cie.clone()?,
    });
    Ok(cie)
}

/// The CIE at an offset, which is read only if it isn't the one that was read last.
#[inline(always)]
fn cie_by_last<R: Reader, Section: UnwindSection<R>>(
    section: &Section,
    bases: &BaseAddresses,
    offset: Section::Offset,
    last: &mut Option<LastCie<R, Section>>,
) -> Result<CommonInformationEntry<R>> {
    if let Some(last) = last
        && last.offset == offset
    {
        return Ok(last.cie.clone()?);
    }
    read_cie(section, bases, offset, last)
}

/// An FDE with its CIE.
#[inline(always)]
fn whole_fde<R: Reader, Section: UnwindSection<R>>(
    section: &Section,
    bases: &BaseAddresses,
    partial: &PartialFrameDescriptionEntry<'_, Section, R>,
    last: &mut Option<LastCie<R, Section>>,
) -> Result<FrameDescriptionEntry<R>> {
    let cie = cie_by_last(section, bases, partial.cie_offset(), last)?;
    fde_with(partial, &cie)
}

/// Lists the FDEs with their CIEs, and adds up their offsets and the starts of their code.
pub fn list_fdes<R: Reader, Section: UnwindSection<R>>(
    section: &Section,
    bases: &BaseAddresses,
) -> Result<Tally> {
    let mut tally = Tally::new();
    let mut last = None;
    let mut entries = section.entries(bases);
    'entries: while let Some(entry) = entries.next()? {
        if let Entry::Fde(partial) = entry {
            let fde = whole_fde(section, bases, &partial, &mut last)?;
            let offset = fde.offset().into_u64();
            tally.count(
                offset
                    .wrapping_add(fde.initial_address())
                    .wrapping_add(fde.len()),
            );
        }
    }
    Ok(tally)
}

/// FDEs with their CIEs.
#[derive(Drop)]
pub struct Fdes<R: Reader> {
    fdes: Vec<FrameDescriptionEntry<R>>,
}

impl<R: Reader> Fdes<R> {
    /// None yet.
    pub fn new(alloc: Global) -> Fdes<R> {
        Fdes {
            fdes: Vec::new(alloc),
        }
    }

    // Keeps one.
    fn push(&mut self, fde: FrameDescriptionEntry<R>) -> Result<()> {
        Ok(self.fdes.push(fde)?)
    }
}

/// Keeps all FDEs with their CIEs.
pub fn keep_fdes<R: Reader, Section: UnwindSection<R>>(
    fdes: &mut Fdes<R>,
    section: &Section,
    bases: &BaseAddresses,
) -> Result<()> {
    let mut last = None;
    let mut entries = section.entries(bases);
    'entries: while let Some(entry) = entries.next()? {
        if let Entry::Fde(partial) = entry {
            let fde = whole_fde(section, bases, &partial, &mut last)?;
            fdes.push(fde)?;
        }
    }
    Ok(())
}

/// Some parts of a row, as one number.
fn parts_of<T: ReaderOffset, Rules: ArrayLike<Item = RuledRegister<RegisterRule<T>>>>(
    row: &UnwindTableRow<T, Rules>,
) -> u64 {
    let offset = match row.cfa() {
        CfaRule::RegisterAndOffset { offset, .. } => offset.cast_unsigned(),
        CfaRule::Expression(_) => 1,
    };
    row.start_address()
        .wrapping_add(row.end_address())
        .wrapping_add(offset)
}

/// Goes over the rows of an FDE.
fn count_rows<R: Reader, Section: UnwindSection<R>, S: UnwindContextStorage<R::Offset>>(
    section: &Section,
    bases: &BaseAddresses,
    fde: &FrameDescriptionEntry<R>,
    context: &mut UnwindContext<R::Offset, S>,
    tally: &mut Tally,
) -> Result<()> {
    let mut table = fde.rows(section, bases, context)?;
    'rows: while let Some(row) = table.next_row()? {
        tally.count(parts_of(row));
    }
    Ok(())
}

/// Lists the rows of FDEs, and adds up some of their parts.
pub fn list_rows<R: Reader, Section: UnwindSection<R>, S: UnwindContextStorage<R::Offset>>(
    section: &Section,
    bases: &BaseAddresses,
    fdes: &Fdes<R>,
    context: &mut UnwindContext<R::Offset, S>,
) -> Result<Tally> {
    let mut tally = Tally::new();
    for fde in &fdes.fdes {
        count_rows(section, bases, fde, context, &mut tally)?;
    }
    Ok(tally)
}
