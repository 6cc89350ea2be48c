//! The index of a section of call frames, by which the FDE for an address is found.

ghost use Rattle.std.specs.Prelude.{◌≡◌, ℕ, length, IfOk, IsTrue};
ghost use Rattle.std.specs.List.Sorted.{IsNonDecreasingBy};
ghost use Rattle.dwarf_frame_entries.specs.Entries.{fde_of};
ghost use Rattle.framehop_index.specs.FrameSections.{eh_frame_of, debug_frame_of};
ghost use Rattle.framehop_index.specs.CfiIndex.{IsMadeOf, entry_held, entry_kept};
ghost use Rattle.framehop_index.specs.KeptFdes.{KeepsSection};
ghost use Rattle.framehop_index.specs.Rising.{IsSortedFromBack, RisesBy};

use crate::kept_cies::KeptCies;
use dwarf_frame_entries::{
    BaseAddresses, DebugFrame, EhFrame, Entry, FrameDescriptionEntry, KnownCies,
    PartialFrameDescriptionEntry, UnwindSection,
};
use dwarf_read_core::{LittleEndian, Reader, ReaderOffset};
use framehop_errors::DwarfCfiIndexError;
use sorted_starts::{HasStart, halve_items};
use std::alloc::{AllocError, Global};

/// What an index keeps of an FDE.
#[derive(Debug, Clone, Copy, PartialEq, Eq)]
pub struct IndexedFde {
    /// The first address of the code, relative to the base.
    pub start: u32,
    /// The FDE's offset in the section, in bytes.
    pub offset: u32,
}

impl HasStart for IndexedFde {
    ghost start = { λ fde. fde.start };

    #[inline(always)]
    fn start(&self) -> u32 {
        self.start
    }
}

// What the index keeps of an FDE, if it can hold it.
#[inline(always)]
fn entry_held<R: Reader>(fde: &FrameDescriptionEntry<R>, base_svma: u64) -> Option<IndexedFde>
    ensures { result ≡ entry_held base_svma fde.now }
{
    let start = fde.initial_address().checked_sub(base_svma)?;
    let start = u32::try_from(start).ok()?;
    let offset = u32::try_from(fde.offset().into_u64()).ok()?;
    Some(IndexedFde { start, offset })
}

// What the index keeps of an FDE of a section, if the FDE can be read and the index can hold it. Its CIE is
// read only if no FDE before it names that.
#[inline(always)]
fn entry_kept<R: Reader, Section: UnwindSection<R>>(
    known: &mut KnownCies<'_, Section, R>,
    partial: &PartialFrameDescriptionEntry<'_, Section, R>,
    base_svma: u64,
) -> Option<IndexedFde>
    requires { partial.now.within ≡ known.old }
    ensures kept { result ≡ entry_kept base_svma (fde_of R.Offset.limit Section.kind partial.now) }
    ensures same { known.new ≡ known.old }
{
    let fde = known.fde(partial).ok()?;
    entry_held(&fde, base_svma)
}

// How many bytes a section has.
fn size_of_section<R: Reader, Section: UnwindSection<R>>(section: &Section) -> u64
    ensures { (bases : BaseAddresses) → result ≡ length (Section.frame section.now bases).within.bytes.bytes }
{
    section.section().len().into_u64()
}

// What an index keeps of a section's FDEs, in their order, how many it leaves out, and what is kept of the first CIEs.
#[derive(Drop)]
struct KeptFdes {
    fdes: Vec<IndexedFde>,
    left_out: usize,
    cies: KeptCies,
}

// What an index keeps of a section's FDEs, and what is kept of its first CIEs.
fn kept_fdes<R: Reader, Section: UnwindSection<R>>(
    alloc: Global,
    section: &Section,
    bases: &BaseAddresses,
    base_svma: u64,
) -> Result<KeptFdes, DwarfCfiIndexError>
    ensures { IsMadeOf result KeepsSection base_svma (Section.frame section.now bases.now) }
{
    let mut fdes = Vec::new(alloc);
    // No more are left out than there are bytes.
    let _bytes = size_of_section(section);
    let mut left_out: usize = 0;
    let mut cies = KeptCies::new(alloc);
    let mut known = KnownCies::new(alloc, section, bases);
    let mut entries = section.entries(bases);
    'entries: loop {
        let Some(entry) = entries.next()? else {
            return Ok(KeptFdes {
                fdes,
                left_out,
                cies,
            });
        };
        let partial = match entry {
            Entry::Fde(partial) => partial,
            Entry::Cie(cie) => {
                cies.keep(section, &cie)?;
                continue;
            }
        };
        match entry_kept(&mut known, &partial, base_svma) {
            Some(kept) => {
                if fdes.push(kept).is_err() {
                    return Err(DwarfCfiIndexError::OutOfMemory);
                }
            }
            None => left_out += 1,
        }
    }
}

// Whether each FDE starts above the one before it.
fn starts_rise(fdes: &[IndexedFde]) -> bool
    ensures { IsTrue result → RisesBy (λ fde. fde.start) fdes.now }
{
    let mut rising = 1;
    'rising: while rising < fdes.len() {
        if fdes[rising].start <= fdes[rising - 1].start {
            return false;
        }
        rising += 1;
    }
    true
}

// FDEs in the order of their starts, and of equal starts the last before the first. Many small sections have
// them in that order already, each start above the one before; most large ones don't.
fn in_order(mut fdes: Vec<IndexedFde>) -> Result<Vec<IndexedFde>, AllocError>
    ensures { IfOk result (λ sorted. IsSortedFromBack fdes.items sorted.items) }
{
    if starts_rise(&fdes) {
        return Ok(fdes);
    }
    fdes.reverse();
    fdes.sort_by_key(|fde| fde.start)?;
    Ok(fdes)
}

/// What a look-up in an index found.
#[derive(Debug, Clone, Copy, PartialEq, Eq)]
pub struct IndexLookup {
    /// The FDE's offset in the section, in bytes.
    pub fde_offset: Option<u32>,
    /// How many of the index's starts were read.
    pub starts_read: u32,
}

/// An index of a section's FDEs, sorted by the starts of their code. Of equal starts the first in
/// the section is the last here, so that the last that starts at or below an address is the one to find.
#[derive(Drop)]
pub struct DwarfCfiIndex {
    fdes: Vec<IndexedFde>,
    left_out: usize,
    ghost ordered: { IsNonDecreasingBy (λ fde. fde.start) fdes.items },
}

/// An index of a section, and the CIEs that are kept of the section, by which its FDEs are read.
#[derive(Drop)]
pub(crate) struct IndexWithCies {
    pub(crate) index: DwarfCfiIndex,
    pub(crate) cies: KeptCies,
}

impl IndexWithCies {
    ghost use Rattle.framehop_index.specs.CfiIndexCies.{IsIndexWithCies};

    // The index of a section, as `DwarfCfiIndex::try_new` makes it, with the CIEs of the section.
    fn try_new<R: Reader, Section: UnwindSection<R>>(
        alloc: Global,
        section: &Section,
        bases: &BaseAddresses,
        base_svma: u64,
    ) -> Result<Self, DwarfCfiIndexError>
        ensures { IsMadeOf result IsIndexWithCies base_svma
            (Section.frame section.now bases.now) }
    {
        let KeptFdes {
            fdes,
            left_out,
            cies,
        } = kept_fdes(alloc, section, bases, base_svma)?;
        let fdes = in_order(fdes)?;
        let index = DwarfCfiIndex { fdes, left_out };
        Ok(IndexWithCies { index, cies })
    }

    /// The same of a section `.eh_frame` of these bytes, as `DwarfCfiIndex::try_new_eh_frame` reads it.
    pub(crate) fn try_new_eh_frame(
        alloc: Global,
        eh_frame_data: &[u8],
        bases: &BaseAddresses,
        base_svma: u64,
    ) -> Result<Self, DwarfCfiIndexError>
        ensures { IsMadeOf result IsIndexWithCies base_svma
            (eh_frame_of bases.now eh_frame_data.now) }
    {
        let section = EhFrame::new(eh_frame_data, LittleEndian);
        IndexWithCies::try_new(alloc, &section, bases, base_svma)
    }

    /// The same of a section `.debug_frame` of these bytes, as `DwarfCfiIndex::try_new_debug_frame` reads it.
    pub(crate) fn try_new_debug_frame(
        alloc: Global,
        debug_frame_data: &[u8],
        bases: &BaseAddresses,
        base_svma: u64,
    ) -> Result<Self, DwarfCfiIndexError>
        ensures { IsMadeOf result IsIndexWithCies base_svma
            (debug_frame_of bases.now debug_frame_data.now) }
    {
        let section = DebugFrame::new(debug_frame_data, LittleEndian);
        IndexWithCies::try_new(alloc, &section, bases, base_svma)
    }
}

impl DwarfCfiIndex {
    ghost use Rattle.dwarf_frame_rows.specs.FrameSection.{FrameSection};
    ghost use Rattle.framehop_index.specs.CfiIndexView.{IsIndexOf, IsOffsetByIndex, LeavesOut, ReadsEnough, ReadsFew};
    ghost use Rattle.framehop_index.specs.IndexSpans.{HasInSpans};

    /// The index of a section. Its starts are relative to `base_svma`; the section's pointers are relative
    /// to `bases`. An FDE that can't be read, by itself or by its CIE, is left out, and so is one whose start
    /// is below the base or 2^32 bytes or more above it, or whose offset in the section is 2^32 or more.
    /// Fails with `Gimli` if an error ends the list of the section's entries, and with `OutOfMemory`; no other
    /// error is returned.
    pub fn try_new<R: Reader, Section: UnwindSection<R>>(
        alloc: Global,
        section: &Section,
        bases: &BaseAddresses,
        base_svma: u64,
    ) -> Result<Self, DwarfCfiIndexError>
        ensures { IsMadeOf result IsIndexOf base_svma
            (Section.frame section.now bases.now) }
    {
        let IndexWithCies { index, cies: _cies } = IndexWithCies::try_new(
            alloc, section, bases, base_svma,
        )?;
        Ok(index)
    }

    /// The index of a section `.eh_frame` of these bytes, as `try_new` makes it. Numbers are
    /// little-endian, and addresses have 8 bytes.
    pub fn try_new_eh_frame(
        alloc: Global,
        eh_frame_data: &[u8],
        bases: &BaseAddresses,
        base_svma: u64,
    ) -> Result<Self, DwarfCfiIndexError>
        ensures { IsMadeOf result IsIndexOf base_svma
            (eh_frame_of bases.now eh_frame_data.now) }
    {
        let IndexWithCies { index, cies: _cies } = IndexWithCies::try_new_eh_frame(
            alloc,
            eh_frame_data,
            bases,
            base_svma,
        )?;
        Ok(index)
    }

    /// The index of a section `.debug_frame` of these bytes, as `try_new` makes it. Numbers are
    /// little-endian, and addresses have 8 bytes unless a CIE says another size.
    pub fn try_new_debug_frame(
        alloc: Global,
        debug_frame_data: &[u8],
        bases: &BaseAddresses,
        base_svma: u64,
    ) -> Result<Self, DwarfCfiIndexError>
        ensures { IsMadeOf result IsIndexOf base_svma
            (debug_frame_of bases.now debug_frame_data.now) }
    {
        let IndexWithCies { index, cies: _cies } = IndexWithCies::try_new_debug_frame(
            alloc,
            debug_frame_data,
            bases,
            base_svma,
        )?;
        Ok(index)
    }

    /// The FDEs, in the order of their starts. Of equal starts the first in the section is the last.
    pub fn fdes(&self) -> &[IndexedFde]
        ensures fdes { result.now ≡ self.now.fdes.items }
        ensures found { (base : ℕ) (section : FrameSection) → IsIndexOf self.now base section
            → HasInSpans result.now base section }
        ensures ordered { IsNonDecreasingBy (λ fde. fde.start) result.now }
    {
        &self.fdes
    }

    /// How many FDEs of the section are left out, since they can't be read or the index can't hold them.
    pub fn left_out(&self) -> usize
        ensures { LeavesOut self.now result }
    {
        self.left_out
    }

    /// The offset in the section, in bytes, of the FDE for an address relative to the base: of those with
    /// the greatest start at or below it, the first in the section. `None` if each starts above.
    pub fn fde_offset_for_relative_address(&self, rel_lookup_address: u32) -> Option<u32>
        ensures { IsOffsetByIndex self.now rel_lookup_address result }
    {
        self.look_up(rel_lookup_address).fde_offset
    }

    /// As `fde_offset_for_relative_address`, with the number of starts that were read: of n at most
    /// ceil(log2(n)) + 1, and at least floor(log2(n + 1)).
    pub fn look_up(&self, rel_lookup_address: u32) -> IndexLookup
        ensures found { IsOffsetByIndex self.now rel_lookup_address result.fde_offset }
        ensures few { ReadsFew self.now result.starts_read }
        ensures counted { ReadsEnough self.now result.starts_read }
    {
        let halved = halve_items(&self.fdes, rel_lookup_address);
        let fde_offset = match halved.at_or_below {
            0 => None,
            count => Some(self.fdes[count - 1].offset),
        };
        IndexLookup {
            fde_offset,
            starts_read: halved.reads,
        }
    }
}
