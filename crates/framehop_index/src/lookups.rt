//! The FDE of a section of call frames for an address.

ghost use Rattle.std.specs.Prelude.{◌≡◌};
ghost use Rattle.dwarf_endianity.specs.Answers.{Gives};
ghost use Rattle.dwarf_frame_entries.specs.AddressLookups.{fde_for_address_skipping};
ghost use Rattle.dwarf_frame_entries.specs.Entries.{fde_from_offset};
ghost use Rattle.framehop_index.specs.KeptCies.{AreKeptOf};
ghost use Rattle.framehop_index.specs.LastCie.{IsLastCie};
ghost use Rattle.framehop_index.specs.Lookups.{headed_offset, offset_in_table};

use crate::kept_cies::KeptCies;
use crate::last_cie::{LastCie, fde_by_last};
use dwarf_call_frames::{EhHdrTable, ParsedEhFrameHdr};
use dwarf_frame_entries::{
    BaseAddresses, Entry, FrameDescriptionEntry, UnwindOffset, UnwindSection,
};
use dwarf_read_core::{EndianSlice, Error, LittleEndian, Reader, ReaderOffset};

// An offset in a section, in the section's type of offsets.
fn typed_offset<R: Reader, Section: UnwindSection<R>>(offset: u32) -> Section::Offset
    ensures { Section.Offset.number result ≡ offset }
{
    Section::Offset::from(R::Offset::from_u32(offset))
}

/// The FDE at an offset of a section, in bytes. Fails as `partial_fde_from_offset` and `parse_by_offset` do.
pub fn fde_at<R: Reader, Section: UnwindSection<R>>(
    section: &Section,
    bases: &BaseAddresses,
    offset: u32,
) -> dwarf_read_core::Result<FrameDescriptionEntry<R>>
    ensures { Gives (λ fde. fde) result (fde_from_offset (Section.frame section.now bases.now) offset) }
{
    let offset = typed_offset::<R, Section>(offset);
    let partial = section.partial_fde_from_offset(bases, offset)?;
    partial.parse_by_offset()
}

/// The FDE at an offset of a section, in bytes, as [`fde_at`] gives it. Its CIE is read only if it isn't the one that was read last,
/// and is kept in that one's place.
#[inline(always)]
pub fn fde_at_by_last<R: Reader, Section: UnwindSection<R>>(
    section: &Section,
    bases: &BaseAddresses,
    offset: u32,
    last: &mut Option<LastCie<R>>,
) -> dwarf_read_core::Result<FrameDescriptionEntry<R>>
    requires { IsLastCie R.stretch R.Offset.value (Section.frame section.now bases.now) last.old }
    ensures fde { Gives (λ fde. fde) result (fde_from_offset (Section.frame section.now bases.now) offset) }
    ensures last { IsLastCie R.stretch R.Offset.value (Section.frame section.now bases.now) last.new }
{
    let offset = typed_offset::<R, Section>(offset);
    let partial = section.partial_fde_from_offset(bases, offset)?;
    fde_by_last(section, bases, &partial, last)
}

/// The FDE at an offset of a section, in bytes, as [`fde_at`] gives it. Its CIE is read only if it isn't kept.
#[inline(always)]
pub(crate) fn fde_at_by_kept<R: Reader, Section: UnwindSection<R>>(
    section: &Section,
    bases: &BaseAddresses,
    offset: u32,
    cies: &KeptCies,
) -> dwarf_read_core::Result<FrameDescriptionEntry<R>>
    requires { AreKeptOf (Section.frame section.now bases.now) cies.now }
    ensures { Gives (λ fde. fde) result (fde_from_offset (Section.frame section.now bases.now) offset) }
{
    let offset = typed_offset::<R, Section>(offset);
    let partial = section.partial_fde_from_offset(bases, offset)?;
    match cies.at(UnwindOffset::into(partial.cie_offset()).into_u64()) {
        Some(kept) => partial.parse_by_kept(kept),
        None => partial.parse_by_offset(),
    }
}

// The offset of the FDE that the table of a header names for an address. Fails as
// `EhHdrTable::lookup` and `pointer_to_offset` do, and with `UnsupportedOffset` if the offset doesn't
// fit 32 bits.
fn offset_in_table(
    table: &EhHdrTable<'_, EndianSlice<'_, LittleEndian>>,
    bases: &BaseAddresses,
    address: u64,
) -> dwarf_read_core::Result<u32>
    ensures { Gives (λ offset. offset) result (offset_in_table bases.now table.now address) }
{
    let pointer = table.lookup(address, bases)?;
    let offset = table.pointer_to_offset(pointer)?;
    u32::from_u64(offset.0.into_u64())
}

/// The offset in its section, in bytes, of the FDE that a header names for an address. Fails with
/// `NoUnwindInfoForAddress` if the header has no table, as `EhHdrTable::lookup` and `pointer_to_offset` do, and with
/// `UnsupportedOffset` if the offset doesn't fit 32 bits.
pub fn headed_offset(
    header: &ParsedEhFrameHdr<EndianSlice<'_, LittleEndian>>,
    bases: &BaseAddresses,
    address: u64,
) -> dwarf_read_core::Result<u32>
    ensures { Gives (λ offset. offset) result (headed_offset bases.now header.now address) }
{
    let Some(table) = header.table() else {
        return Err(Error::NoUnwindInfoForAddress);
    };
    offset_in_table(&table, bases, address)
}

/// The first FDE of a section that can be read and contains an address. If none does, it fails with the error
/// that ends the list of entries, or with `NoUnwindInfoForAddress`. A CIE is read only if it isn't the one
/// that was read last: a scan takes no memory, so it keeps no other.
pub fn containing_fde<R: Reader, Section: UnwindSection<R>>(
    section: &Section,
    bases: &BaseAddresses,
    address: u64,
) -> dwarf_read_core::Result<FrameDescriptionEntry<R>>
    ensures { Gives (λ fde. fde) result (fde_for_address_skipping (Section.frame section.now bases.now) address) }
{
    let mut last = None;
    let mut entries = section.entries(bases);
    'entries: loop {
        let Some(entry) = entries.next()? else {
            return Err(Error::NoUnwindInfoForAddress);
        };
        let Entry::Fde(partial) = entry else {
            continue;
        };
        let Ok(fde) = fde_by_last(section, bases, &partial, &mut last) else {
            continue;
        };
        if fde.contains(address) {
            return Ok(fde);
        }
    }
}
