//! A section of call frames with what finds its FDEs.

ghost use Rattle.std.specs.Prelude.{◌≡◌, ◌+◌, ◌<◌, ◌^◌, ℕ, List, IfOk};
ghost use Rattle.framehop_index.specs.FdeLookups.{ByIndex};
ghost use Rattle.dwarf_call_frames.specs.Linked.{IsKeptOf};
ghost use Rattle.framehop_index.specs.SectionFramesViews.{AreFoundBy, MakesEntries, entries_fde, entries_view, offset_by_bytes};

use crate::cfi_index::{DwarfCfiIndex, IndexWithCies};
use crate::fde_lookups::{
    FoundFde, LentFde, fde_found, fde_found_around, fde_indexed, lookup_address, offset_by_header,
    parsed_header,
};
use crate::section_type::UnwindSectionType;
use dwarf_call_frames::LinkedHeader;
use dwarf_frame_entries::{BaseAddresses, DebugFrame, EhFrame, UnwindSection};
use dwarf_read_core::{EndianSlice, LittleEndian, Reader};
use framehop_errors::{DwarfCfiIndexError, UnwinderError};
use framehop_modules::SectionBytes;
use std::alloc::{AllocError, Global};
use std::marker::Model;

// The bytes of a header, and what is kept of it, if it is as linkers write it.
#[derive(Drop)]
struct HeaderBytes<D> {
    bytes: D,
    kept: Option<LinkedHeader>,
}

impl<D: SectionBytes> HeaderBytes<D> {
    ghost use Rattle.std.specs.Prelude.{IfSome};

    // The bytes of a header with what is kept of it.
    fn of(bytes: D, bases: &BaseAddresses) -> Self
        ensures bytes { result.bytes ≡ bytes }
        ensures kept { IfSome result.kept (IsKeptOf bases.now (D.content bytes)) }
    {
        let kept = LinkedHeader::of(bytes.bytes(), bases);
        HeaderBytes { bytes, kept }
    }
}

// How the FDEs of a section are found.
#[derive(Drop)]
enum Entries<D> {
    // By the table of the section's header.
    Header(HeaderBytes<D>),
    // By an index of the section, and the CIEs that are kept of it.
    Index(IndexWithCies),
    // By an index, which the section doesn't have.
    Unindexed,
    // By reading the section from its first entry on.
    Scan,
}

/// A section of call frames with what finds its FDEs: the table of its header, an index of it, or a scan. Its pointers are relative to
/// bases, and relative addresses to a base.
#[derive(Drop)]
pub struct SectionFrames<D: SectionBytes> {
    section: UnwindSectionType<D>,
    entries: Entries<D>,
    bases: BaseAddresses,
    base_svma: u64,
}

impl<D: SectionBytes> Model for SectionFrames<D> {
    ghost use Rattle.framehop_index.specs.FdeLookups.{PlacedFrames};
    ghost use Rattle.framehop_index.specs.SectionFramesViews.{AreFoundBy, entries_view};
    ghost use Rattle.framehop_index.specs.SectionTypes.{frame_section_bytes, section_of_type};

    ghost Value = { PlacedFrames };

    ghost view = { λ frames. record {
      section = frame_section_bytes D.content frames.section;
      lookup = entries_view D.content frames.entries;
      bases = frames.bases;
      base_svma = frames.base_svma;
    } };

    // what is kept of a header is that of its bytes, an index is that of the section, and only a section that has none lacks one
    ghost invariant = { λ frames. AreFoundBy D.content frames.bases frames.base_svma
        (section_of_type frames.bases (frame_section_bytes D.content frames.section)) frames.entries };
}

// The lookup by an index of a section, if it has one. Fails if the index failed to allocate.
fn index_made<D>(index: Result<IndexWithCies, DwarfCfiIndexError>) -> Result<Entries<D>, AllocError>
    ensures view { (content : D → List ℕ)
        → IfOk result (λ entries. entries_view content entries ≡ ByIndex) }
    ensures indexed { MakesEntries index result }
{
    match index {
        Ok(index) => Ok(Entries::Index(index)),
        Err(error) => match error {
            DwarfCfiIndexError::OutOfMemory => Err(AllocError),
            _ => Ok(Entries::Unindexed),
        },
    }
}

// The offset of the FDE that the table of a header names for an address, by what is kept of the header.
#[inline(always)]
fn offset_by_kept(
    kept: &LinkedHeader,
    bytes: &[u8],
    bases: &BaseAddresses,
    base_svma: u64,
    relative_address: u32,
    address: u64,
) -> Option<u32>
    requires kept { IsKeptOf bases.now bytes.now kept.now }
    requires address { address ≡ base_svma + relative_address }
    ensures { result ≡ offset_by_bytes bases.now bytes.now base_svma relative_address }
{
    let offset = kept.fde_offset(bytes, address).ok()?;
    u32::try_from(offset).ok()
}

// The same by a header that isn't as linkers write it, which is parsed for each look-up.
#[cold]
#[inline(never)]
fn offset_by_parsed(
    bytes: &[u8],
    bases: &BaseAddresses,
    base_svma: u64,
    relative_address: u32,
) -> Option<u32>
    ensures { result ≡ offset_by_bytes bases.now bytes.now base_svma relative_address }
{
    let header = parsed_header(bytes, bases);
    offset_by_header(&header, bases, base_svma, relative_address)
}

// The FDE of a section for an address, by what finds its FDEs.
#[inline(always)]
fn fde_by<D: SectionBytes, R: Reader<Offset = usize>, Section: UnwindSection<R>>(
    entries: &Entries<D>,
    section: &Section,
    bases: &BaseAddresses,
    base_svma: u64,
    relative_address: u32,
    address: u64,
) -> FoundFde<R>
    requires found { AreFoundBy D.content bases.now base_svma (Section.frame section.now bases.now) entries.now }
    requires address { address ≡ base_svma + relative_address }
    ensures { result ≡ entries_fde D.content entries.now bases.now
        (Section.frame section.now bases.now) base_svma relative_address }
{
    match entries {
        Entries::Header(header) => {
            let bytes = header.bytes.bytes();
            let offset = match &header.kept {
                Some(kept) => offset_by_kept(
                    kept,
                    bytes,
                    bases,
                    base_svma,
                    relative_address,
                    address,
                ),
                None => offset_by_parsed(bytes, bases, base_svma, relative_address),
            };
            fde_found(
                section,
                bases,
                UnwinderError::EhFrameHdrCouldNotFindAddress,
                offset,
            )
        }
        Entries::Index(made) => {
            let offset = made.index.fde_offset_for_relative_address(relative_address);
            fde_indexed(section, bases, &made.cies, offset)
        }
        Entries::Unindexed => Err(UnwinderError::DwarfCfiIndexCouldNotFindAddress),
        Entries::Scan => fde_found_around(section, bases, address),
    }
}

impl<D: SectionBytes + Drop> SectionFrames<D> {
    ghost use Rattle.framehop_index.specs.FdeLookups.{placed};
    ghost use Rattle.framehop_index.specs.SectionTypes.{frame_section_bytes};

    /// A section whose FDEs are found by an index, which it makes if the section has one. Fails if it fails to allocate the index.
    pub fn with_index(
        alloc: Global,
        section: UnwindSectionType<D>,
        bases: &BaseAddresses,
        base_svma: u64,
    ) -> Result<Self, AllocError>
        ensures { IfOk result (λ frames.
            frames ≡ placed (frame_section_bytes D.content section) ByIndex bases.now base_svma) }
    {
        let made = match &section {
            UnwindSectionType::EhFrame(data) => {
                IndexWithCies::try_new_eh_frame(alloc, data.bytes(), bases, base_svma)
            }
            UnwindSectionType::DebugFrame(data) => {
                IndexWithCies::try_new_debug_frame(alloc, data.bytes(), bases, base_svma)
            }
        };
        let entries = index_made(made)?;
        Ok(SectionFrames {
            section,
            entries,
            bases: *bases,
            base_svma,
        })
    }
}

impl<D: SectionBytes> SectionFrames<D> {
    ghost use Rattle.std.specs.Prelude.{IfSome, is_some};
    ghost use Rattle.framehop_index.specs.CfiIndexView.{IsIndexOf};
    ghost use Rattle.framehop_index.specs.FdeLookups.{ByHeader, ByScan, covering_fde, covers, fde_for, is_indexed, placed, section_of};
    ghost use Rattle.framehop_index.specs.FirstCies.{cies_kept};
    ghost use Rattle.framehop_index.specs.LeftOut.{fdes_left_out, lacks_index};
    ghost use Rattle.framehop_index.specs.SectionTypes.{frame_section_bytes};

    /// A section whose FDEs are found by the table of its header; a header that doesn't parse has none.
    pub fn with_header(
        section: UnwindSectionType<D>,
        header: D,
        bases: &BaseAddresses,
        base_svma: u64,
    ) -> Self
        ensures { result
            ≡ placed (frame_section_bytes D.content section) (ByHeader (D.content header)) bases.now base_svma }
    {
        let header = HeaderBytes::of(header, bases);
        SectionFrames {
            section,
            entries: Entries::Header(header),
            bases: *bases,
            base_svma,
        }
    }

    /// A section whose FDEs are found by reading it from its first entry on.
    pub fn scanned(section: UnwindSectionType<D>, bases: &BaseAddresses, base_svma: u64) -> Self
        ensures { result ≡ placed (frame_section_bytes D.content section) ByScan bases.now base_svma }
    {
        SectionFrames {
            section,
            entries: Entries::Scan,
            bases: *bases,
            base_svma,
        }
    }

    /// The section by its bytes.
    #[inline(always)]
    pub fn section(&self) -> UnwindSectionType<&[u8]>
        ensures { frame_section_bytes (λ b. b.now) result ≡ self.now.section }
    {
        self.section.lend()
    }

    /// The addresses that pointers of the section are relative to.
    #[inline(always)]
    pub fn bases(&self) -> &BaseAddresses
        ensures { result.now ≡ self.now.bases }
    {
        &self.bases
    }

    /// The address that relative addresses are relative to.
    #[inline(always)]
    pub fn base_svma(&self) -> u64
        ensures { result ≡ self.now.base_svma }
    {
        self.base_svma
    }

    /// The index that FDEs are found by, if they are found so and the section has one.
    pub fn index(&self) -> Option<&DwarfCfiIndex>
        ensures there { is_some result ≡ is_indexed self.now }
        ensures index { IfSome result (λ index. IsIndexOf index.now self.now.base_svma (section_of self.now)) }
    {
        match &self.entries {
            Entries::Index(made) => Some(&made.index),
            Entries::Header(_) | Entries::Unindexed | Entries::Scan => None,
        }
    }

    /// Whether FDEs would be found by an index that the section doesn't have, since an error ends the list of its entries.
    pub fn lacks_index(&self) -> bool
        ensures { result ≡ lacks_index self.now }
    {
        matches!(self.entries, Entries::Unindexed)
    }

    /// How many FDEs the index leaves out, if FDEs are found by an index and the section has one.
    pub fn left_out(&self) -> Option<usize>
        ensures { result ≡ fdes_left_out self.now }
    {
        match &self.entries {
            Entries::Index(made) => Some(made.index.left_out()),
            Entries::Header(_) | Entries::Unindexed | Entries::Scan => None,
        }
    }

    /// How many CIEs are kept with the index, if FDEs are found by an index and the section has one: its first 255. An FDE that names
    /// one of them is read without reading the CIE again.
    pub fn kept_cies(&self) -> Option<usize>
        ensures { result ≡ cies_kept self.now }
    {
        match &self.entries {
            Entries::Index(made) => Some(made.cies.count()),
            Entries::Header(_) | Entries::Unindexed | Entries::Scan => None,
        }
    }

    /// The FDE of the section for a relative address. By a header it is the one that the table names, by an index the nearest that
    /// starts at or below the address: neither has to contain it. By a scan it is the first that can be read and contains it, and there
    /// is none if the section was read to its end. Fails with `LookupAddressOverflow` if the address doesn't fit 64 bits, with
    /// `FdeFromOffsetFailed` if the FDE can't be read, a scan found it at an offset of more than 32 bits, or an error ended the scan,
    /// and if header or index name none.
    #[inline(always)]
    pub fn fde_for(&self, relative_address: u32) -> Result<Option<LentFde<'_>>, UnwinderError>
        ensures { result ≡ fde_for self.now relative_address }
    {
        let (bases, base_svma) = (&self.bases, self.base_svma);
        let address = match lookup_address(base_svma, relative_address) {
            Ok(address) => address,
            Err(error) => return Err(UnwinderError::Dwarf(error)),
        };
        match &self.section {
            UnwindSectionType::EhFrame(data) => {
                let section = EhFrame::new(data.bytes(), LittleEndian);
                fde_by(
                    &self.entries,
                    &section,
                    bases,
                    base_svma,
                    relative_address,
                    address,
                )
            }
            UnwindSectionType::DebugFrame(data) => {
                let section = DebugFrame::new(data.bytes(), LittleEndian);
                fde_by(
                    &self.entries,
                    &section,
                    bases,
                    base_svma,
                    relative_address,
                    address,
                )
            }
        }
    }

    /// Whether the FDE that was found for a relative address contains it.
    #[inline(always)]
    pub fn is_covered_by(
        &self,
        found: &FoundFde<EndianSlice<'_, LittleEndian>>,
        relative_address: u32,
    ) -> bool
        requires { found.now ≡ fde_for self.now relative_address }
        ensures { result ≡ covers self.now relative_address }
    {
        let Ok(address) = lookup_address(self.base_svma, relative_address) else {
            return false;
        };
        match found {
            Ok(Some(fde)) => fde.contains(address),
            Ok(None) | Err(_) => false,
        }
    }

    /// The FDE of the section for a relative address, if it contains it.
    pub fn covering_fde(&self, relative_address: u32) -> Option<LentFde<'_>>
        ensures { result ≡ covering_fde self.now relative_address }
    {
        let address = lookup_address(self.base_svma, relative_address).ok()?;
        let Ok(Some(fde)) = self.fde_for(relative_address) else {
            return None;
        };
        if fde.contains(address) {
            Some(fde)
        } else {
            None
        }
    }
}
