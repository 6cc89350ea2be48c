//! The FDE of a section of call frames for an address, by what finds it.

ghost use Rattle.std.specs.Prelude.{◌≡◌, ◌+◌, ◌^◌, ◌<◌, ◌≤◌, Some, IfOk, IfErr};
ghost use Rattle.dwarf_endianity.specs.Answers.{Gives};
ghost use Rattle.dwarf_frame_entries.specs.AddressLookups.{fde_for_address_skipping};
ghost use Rattle.dwarf_frame_entries.specs.Entries.{fde_from_offset};
ghost use Rattle.framehop_errors.specs.declared.dwarf.DwarfUnwinderError.TheVariants.{LookupAddressOverflow};
ghost use Rattle.framehop_index.specs.FdeLookups.{fde_by_scan, fde_found, fde_scanned, near_fde};
ghost use Rattle.framehop_errors.specs.declared.unwinder.UnwinderError.TheVariants.{DwarfCfiIndexCouldNotFindAddress};
ghost use Rattle.framehop_index.specs.KeptCies.{AreKeptOf};
ghost use Rattle.framehop_index.specs.Lookups.{found_by_header, parsed_header};
ghost use Rattle.framehop_index.specs.SectionTypes.{frame_section_lent};

use crate::kept_cies::KeptCies;
use crate::lookups::{containing_fde, fde_at, fde_at_by_kept, headed_offset};
use crate::section_type::UnwindSectionType;
use dwarf_call_frames::{EhFrameHdr, ParsedEhFrameHdr};
use dwarf_frame_entries::{
    BaseAddresses, DebugFrame, EhFrame, FrameDescriptionEntry, UnwindSection,
};
use dwarf_read_core::{EndianSlice, Error, LittleEndian, Reader, ReaderOffset};
use framehop_errors::{DwarfUnwinderError, UnwinderError};

/// What is known of the FDE for an address: which it is; that no FDE that can be read contains the address (`None`); or why neither is
/// known.
pub type FoundFde<R> = Result<Option<FrameDescriptionEntry<R>>, UnwinderError>;

/// An FDE of a section that is lent.
pub type LentFde<'a> = FrameDescriptionEntry<EndianSlice<'a, LittleEndian>>;

/// The address that a section has for a relative address. Fails if it doesn't fit 64 bits.
pub fn lookup_address(base_svma: u64, relative_address: u32) -> Result<u64, DwarfUnwinderError>
    ensures some { IfOk result (λ address. address ≡ base_svma + relative_address) }
    ensures fits { IfOk result (λ address. address < 2 ^ 64) }
    ensures none { IfErr result (λ error. (error ≡ LookupAddressOverflow)
        × (2 ^ 64 ≤ base_svma + relative_address)) }
{
    base_svma
        .checked_add(u64::from(relative_address))
        .ok_or(DwarfUnwinderError::LookupAddressOverflow)
}

/// The header of these bytes, if they parse.
#[inline(always)]
pub fn parsed_header<'a>(
    bytes: &'a [u8],
    bases: &BaseAddresses,
) -> Option<ParsedEhFrameHdr<EndianSlice<'a, LittleEndian>>>
    ensures { result ≡ parsed_header bases.now (Some bytes.now) }
{
    EhFrameHdr::new(bytes, LittleEndian).parse(bases, 8).ok()
}

/// The offset of the FDE that the table of a header names for a relative address, if there is a header, it has a row for the address
/// that can be read, and the address fits 64 bits.
#[inline(always)]
pub fn offset_by_header(
    header: &Option<ParsedEhFrameHdr<EndianSlice<'_, LittleEndian>>>,
    bases: &BaseAddresses,
    base_svma: u64,
    relative_address: u32,
) -> Option<u32>
    ensures { result ≡ found_by_header bases.now header.now base_svma relative_address }
{
    let header = header.as_ref()?;
    let address = lookup_address(base_svma, relative_address).ok()?;
    headed_offset(header, bases, address).ok()
}

/// The FDE at an offset of a section that is lent, in bytes. Fails as [`fde_at`] does.
#[inline(always)]
pub fn lent_fde_at<'a>(
    section: &UnwindSectionType<&'a [u8]>,
    bases: &BaseAddresses,
    offset: u32,
) -> dwarf_read_core::Result<LentFde<'a>>
    ensures { Gives (λ fde. fde) result (fde_from_offset (frame_section_lent bases.entry section.now) offset) }
{
    match *section {
        UnwindSectionType::EhFrame(bytes) => {
            let eh_frame = EhFrame::new(bytes, LittleEndian);
            fde_at(&eh_frame, bases, offset)
        }
        UnwindSectionType::DebugFrame(bytes) => {
            let debug_frame = DebugFrame::new(bytes, LittleEndian);
            fde_at(&debug_frame, bases, offset)
        }
    }
}

// The FDE that was found near enough: at an offset of 32 bits.
fn near_fde<R: Reader<Offset = usize>>(
    fde: FrameDescriptionEntry<R>,
) -> dwarf_read_core::Result<Option<FrameDescriptionEntry<R>>>
    ensures { result ≡ near_fde fde }
{
    if fde.offset().into_u64() >= 1 << 32 {
        return Err(Error::UnsupportedOffset);
    }
    Ok(Some(fde))
}

// The first FDE of a section that can be read and contains an address, if its offset fits 32 bits. `None` if the section was read to its
// end.
fn fde_around<R: Reader<Offset = usize>, Section: UnwindSection<R>>(
    section: &Section,
    bases: &BaseAddresses,
    address: u64,
) -> dwarf_read_core::Result<Option<FrameDescriptionEntry<R>>>
    ensures { result ≡ fde_scanned (fde_for_address_skipping (Section.frame section.now bases.now) address) }
{
    match containing_fde(section, bases, address) {
        Ok(fde) => near_fde(fde),
        Err(error) => match error {
            Error::NoUnwindInfoForAddress => Ok(None),
            _ => Err(error),
        },
    }
}

/// The first FDE of a section that is lent that can be read and contains an address. `None` if there is none and the section was read to
/// its end; fails with the error that ends the list of its entries, or with `UnsupportedOffset` if the FDE's offset doesn't fit 32 bits.
pub fn lent_fde_around<'a>(
    section: &UnwindSectionType<&'a [u8]>,
    bases: &BaseAddresses,
    address: u64,
) -> dwarf_read_core::Result<Option<LentFde<'a>>>
    ensures { let frame = frame_section_lent bases.entry section.now in
        result ≡ fde_scanned (fde_for_address_skipping frame address) }
{
    match *section {
        UnwindSectionType::EhFrame(bytes) => {
            let eh_frame = EhFrame::new(bytes, LittleEndian);
            fde_around(&eh_frame, bases, address)
        }
        UnwindSectionType::DebugFrame(bytes) => {
            let debug_frame = DebugFrame::new(bytes, LittleEndian);
            fde_around(&debug_frame, bases, address)
        }
    }
}

/// The FDE at the offset that was found, if one was; `not_found` says that none was.
#[inline(always)]
pub(crate) fn fde_found<R: Reader<Offset = usize>, Section: UnwindSection<R>>(
    section: &Section,
    bases: &BaseAddresses,
    not_found: UnwinderError,
    offset: Option<u32>,
) -> FoundFde<R>
    ensures { result ≡ fde_found (Section.frame section.now bases.now) not_found offset }
{
    let Some(offset) = offset else {
        return Err(not_found);
    };
    match fde_at(section, bases, offset) {
        Ok(fde) => Ok(Some(fde)),
        Err(error) => Err(UnwinderError::Dwarf(DwarfUnwinderError::FdeFromOffsetFailed(error))),
    }
}

/// The FDE at the offset that the index of a section found, if it found one, by the CIEs that are kept of the section.
#[inline(always)]
pub(crate) fn fde_indexed<R: Reader<Offset = usize>, Section: UnwindSection<R>>(
    section: &Section,
    bases: &BaseAddresses,
    cies: &KeptCies,
    offset: Option<u32>,
) -> FoundFde<R>
    requires { AreKeptOf (Section.frame section.now bases.now) cies.now }
    ensures { let frame = Section.frame section.now bases.now in
        result ≡ fde_found frame DwarfCfiIndexCouldNotFindAddress offset }
{
    let Some(offset) = offset else {
        return Err(UnwinderError::DwarfCfiIndexCouldNotFindAddress);
    };
    match fde_at_by_kept(section, bases, offset, cies) {
        Ok(fde) => Ok(Some(fde)),
        Err(error) => Err(UnwinderError::Dwarf(DwarfUnwinderError::FdeFromOffsetFailed(error))),
    }
}

/// The FDE that a scan of a section finds for an address.
pub(crate) fn fde_found_around<R: Reader<Offset = usize>, Section: UnwindSection<R>>(
    section: &Section,
    bases: &BaseAddresses,
    address: u64,
) -> FoundFde<R>
    ensures { result ≡ fde_by_scan (fde_for_address_skipping (Section.frame section.now bases.now) address) }
{
    match fde_around(section, bases, address) {
        Ok(found) => Ok(found),
        Err(error) => Err(UnwinderError::Dwarf(DwarfUnwinderError::FdeFromOffsetFailed(error))),
    }
}
