//! A section whose CIEs are kept once they were read.

ghost use Rattle.std.specs.Prelude.{◌≡◌};
ghost use Rattle.dwarf_endianity.specs.Answers.{Gives};
ghost use Rattle.dwarf_frame_entries.specs.Entries.{fde_of};
ghost use Rattle.dwarf_frame_entries.specs.EntryViews.{GivesCie};
ghost use Rattle.dwarf_frame_entries.specs.SectionWithin.{cie_there, fde_there};

use crate::cie::CommonInformationEntry;
use crate::fde::{FrameDescriptionEntry, PartialFrameDescriptionEntry};
use crate::section::UnwindSection;
use dwarf_constants::Result;
use dwarf_frame_rows::{_UnwindSectionPrivate, BaseAddresses, UnwindOffset};
use dwarf_readers::{Reader, ReaderOffset};
use std::alloc::Global;
use std::collections::BTreeMap;
use std::marker::Model;

// What was read at an offset: the CIE there, or why there is none.
#[derive(Drop)]
struct ReadCie<R: Reader> {
    offset: u64,
    cie: Result<CommonInformationEntry<R>>,
}

// The same CIE, or why there is none. It takes no memory.
#[inline(always)]
fn copied<R: Reader>(cie: &Result<CommonInformationEntry<R>>) -> Result<CommonInformationEntry<R>>
    ensures { result ≡ cie.now }
{
    match cie {
        Ok(cie) => Ok(cie.clone()?),
        Err(error) => Err(*error),
    }
}

/// A section of call frames, and each CIE that was read in it by its offset, so that none is read again for each FDE that names it: to
/// read all FDEs of a section takes time in proportion to its size, whatever CIEs they name. Why there is no CIE at an offset is kept
/// too. Without memory to keep a CIE it is read again.
#[derive(Drop)]
pub struct KnownCies<'bases, Section: UnwindSection<R>, R: Reader> {
    section: Section,
    bases: &'bases BaseAddresses,
    // What was asked for last: most FDEs name the CIE of the one before.
    last: Option<ReadCie<R>>,
    read: BTreeMap<u64, Result<CommonInformationEntry<R>>>,
}

impl<'bases, Section: UnwindSection<R>, R: Reader> Model for KnownCies<'bases, Section, R> {
    ghost use Rattle.dwarf_frame_rows.specs.FrameSection.{SectionContents, section_data};
    ghost use Rattle.dwarf_frame_entries.specs.KnownCies.{AreReadIn};
    ghost use Rattle.dwarf_frame_entries.specs.SectionWithin.{section_within};

    ghost Value = { SectionContents };

    ghost view = { λ known. section_data (Section.size known.section)
        (R.stretch (Section.reader known.section)) known.bases.now };

    ghost invariant = { λ known. AreReadIn R.stretch R.Offset.value
        (section_within R.Offset.limit Section.kind (section_data (Section.size known.section)
        (R.stretch (Section.reader known.section)) known.bases.now)) known.last known.read };
}

impl<'bases, Section: UnwindSection<R>, R: Reader> KnownCies<'bases, Section, R> {
    /// A section of which no CIE was read yet. `bases` are the addresses to which its pointers are relative.
    pub fn new(alloc: Global, section: &Section, bases: &'bases BaseAddresses) -> Self
        ensures { result ≡ (Section.frame section.now bases.now).within }
    {
        KnownCies {
            section: *section,
            bases,
            last: None,
            read: BTreeMap::new(alloc),
        }
    }

    /// The CIE at an offset, as [`UnwindSection::cie_from_offset`] gives it. It is read if it wasn't before.
    #[inline(always)]
    pub fn cie_from_offset(&mut self, offset: Section::Offset) -> Result<CommonInformationEntry<R>>
        ensures cie { GivesCie R.stretch R.Offset.value result
            (cie_there R.Offset.limit Section.kind self.old (Section.Offset.number offset)) }
        ensures same { self.new ≡ self.old }
    {
        if let Some(last) = &self.last
            && last.offset == UnwindOffset::into(offset).into_u64()
        {
            return copied(&last.cie);
        }
        self.other_cie(offset)
    }

    // The CIE at an offset, which is asked for last from then on. It isn't inlined, since few FDEs need it.
    #[inline(never)]
    fn other_cie(&mut self, offset: Section::Offset) -> Result<CommonInformationEntry<R>>
        ensures cie { GivesCie R.stretch R.Offset.value result
            (cie_there R.Offset.limit Section.kind self.old (Section.Offset.number offset)) }
        ensures same { self.new ≡ self.old }
    {
        let cie = self.kept_cie(offset);
        self.last = Some(ReadCie {
            offset: UnwindOffset::into(offset).into_u64(),
            cie: copied(&cie),
        });
        cie
    }

    // The CIE at an offset, which is read and kept if it wasn't before.
    fn kept_cie(&mut self, offset: Section::Offset) -> Result<CommonInformationEntry<R>>
        ensures cie { GivesCie R.stretch R.Offset.value result
            (cie_there R.Offset.limit Section.kind self.old (Section.Offset.number offset)) }
        ensures same { self.new ≡ self.old }
    {
        let number = UnwindOffset::into(offset).into_u64();
        if let Some(cie) = self.read.get(&number) {
            return copied(cie);
        }
        let cie = self.section.cie_from_offset(self.bases, offset);
        // Without memory it is read again.
        let _ = self.read.insert(number, copied(&cie));
        cie
    }

    /// An FDE of the section with its CIE, as [`PartialFrameDescriptionEntry::parse_by_offset`] gives it.
    #[inline(always)]
    pub fn fde(
        &mut self,
        partial: &PartialFrameDescriptionEntry<'_, Section, R>,
    ) -> Result<FrameDescriptionEntry<R>>
        requires { partial.now.within ≡ self.old }
        ensures fde { Gives (λ fde. fde) result (fde_of R.Offset.limit Section.kind partial.now) }
        ensures same { self.new ≡ self.old }
    {
        let cie = self.cie_from_offset(partial.cie_offset())?;
        partial.with_cie(cie)
    }

    /// The FDE at an offset with its CIE, as [`UnwindSection::fde_from_offset`] gives it.
    #[inline(always)]
    pub fn fde_from_offset(&mut self, offset: Section::Offset) -> Result<FrameDescriptionEntry<R>>
        ensures fde { Gives (λ fde. fde) result
            (fde_there R.Offset.limit Section.kind self.old (Section.Offset.number offset)) }
        ensures same { self.new ≡ self.old }
    {
        let partial = self.section.partial_fde_from_offset(self.bases, offset)?;
        self.fde(&partial)
    }
}
