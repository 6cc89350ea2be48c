//! Lookups in a section of call frames, by offset and by address.

ghost use Rattle.std.specs.Prelude.{◌≡◌};
ghost use Rattle.dwarf_endianity.specs.Answers.{Gives};
ghost use Rattle.dwarf_frame_entries.specs.CieReaders.{FindsFde, FindsRowFor, ReadsFdeAt, ScansFde, cies};
ghost use Rattle.dwarf_frame_entries.specs.Entries.{cie_from_offset, partial_fde_from_offset};
ghost use Rattle.dwarf_frame_entries.specs.EntryLists.{entry_list_of};
ghost use Rattle.dwarf_frame_entries.specs.EntryViews.{GivesCie};

use crate::cie::CommonInformationEntry;
use crate::entries::{CfiEntriesIter, CieOrFde};
use crate::fde::{FrameDescriptionEntry, PartialFrameDescriptionEntry};
use crate::parse::parse_entry;
use dwarf_constants::{Error, Result};
use dwarf_frame_rows::{
    _UnwindSectionPrivate, BaseAddresses, UnwindContext, UnwindContextStorage, UnwindOffset,
    UnwindTableRow,
};
use dwarf_frame_sections::{DebugFrame, EhFrame};
use dwarf_offsets::{DebugFrameOffset, EhFrameOffset};
use dwarf_readers::{Reader, ReaderOffset};
use std::fmt::Debug;

/// A section of call frames, `.eh_frame` or `.debug_frame`. `bases` are the addresses to which its
/// pointers are relative.
///
/// Lookups read the CIE of an FDE by `get_cie`: [`UnwindSection::cie_from_offset`] itself, or a
/// function that keeps what that returned for this section and these bases. A function that returns
/// anything else is safe, and its lookups are unspecified.
pub trait UnwindSection<R: Reader>: Copy + Debug + _UnwindSectionPrivate<R> {
    /// The type of offsets in the section.
    type Offset: UnwindOffset<R::Offset>;

    /// The entries of the section, in their order.
    final fn entries<'bases>(&self, bases: &'bases BaseAddresses) -> CfiEntriesIter<'bases, Self, R>
    where
        Self: Sized,
        ensures { result ≡ entry_list_of (Self.frame self.now bases.now) }
    {
        CfiEntriesIter::new(self, bases)
    }

    /// The CIE at `offset`. Fails if the entry there can't be read, with `NotCieId` if it is an
    /// FDE, and with `NoEntryAtGivenOffset` at a length of 0.
    #[inline(always)]
    final fn cie_from_offset(
        &self,
        bases: &BaseAddresses,
        offset: Self::Offset,
    ) -> Result<CommonInformationEntry<R>>
    where
        Self: Sized,
        ensures { GivesCie R.stretch R.Offset.value result
            (cie_from_offset (Self.frame self.now bases.now) (Self.Offset.number offset)) }
    {
        let offset = UnwindOffset::into(offset);
        let mut input = *self.section();
        input.skip(offset)?;
        match parse_entry(self, bases, &mut input)? {
            Some(CieOrFde::Cie(cie)) => Ok(cie),
            Some(CieOrFde::Fde(_)) => Err(Error::NotCieId(offset.into_u64())),
            None => Err(Error::NoEntryAtGivenOffset),
        }
    }

    /// The FDE at `offset`, without its CIE. Fails if the entry there can't be read, with
    /// `NotCiePointer` if it is a CIE, and with `NoEntryAtGivenOffset` at a length of 0.
    #[inline(always)]
    final fn partial_fde_from_offset<'bases>(
        &self,
        bases: &'bases BaseAddresses,
        offset: Self::Offset,
    ) -> Result<PartialFrameDescriptionEntry<'bases, Self, R>>
    where
        Self: Sized,
        ensures { Gives (λ partial. partial) result (partial_fde_from_offset
            (Self.frame self.now bases.now) (Self.Offset.number offset)) }
    {
        let offset = UnwindOffset::into(offset);
        let mut input = *self.section();
        input.skip(offset)?;
        match parse_entry(self, bases, &mut input)? {
            Some(CieOrFde::Cie(_)) => Err(Error::NotCiePointer(offset.into_u64())),
            Some(CieOrFde::Fde(partial)) => Ok(partial),
            None => Err(Error::NoEntryAtGivenOffset),
        }
    }

    /// The FDE at `offset`, with its CIE. Fails as `partial_fde_from_offset` does, with the error
    /// of `get_cie`, and if the FDE can't be read by its CIE.
    #[inline(always)]
    final fn fde_from_offset<
        F: FnMut(&Self, &BaseAddresses, Self::Offset) -> Result<CommonInformationEntry<R>>,
    >(
        &self,
        bases: &BaseAddresses,
        offset: Self::Offset,
        get_cie: F,
    ) -> Result<FrameDescriptionEntry<R>>
    where
        Self: Sized,
        requires { F.IsAlwaysCallable get_cie }
        ensures { ReadsFdeAt (cies F.step R.stretch R.Offset.value Self.frame Self.Offset.number)
            self.now bases.now offset get_cie result }
    {
        let partial = self.partial_fde_from_offset(bases, offset)?;
        partial.parse(get_cie)
    }

    /// The FDE for an address: the first in the section that contains it. It reads the entries
    /// before that FDE, and fails with the first error of one of these, and with
    /// `NoUnwindInfoForAddress` if no FDE contains the address.
    final fn fde_for_address<
        F: FnMut(&Self, &BaseAddresses, Self::Offset) -> Result<CommonInformationEntry<R>>,
    >(
        &self,
        bases: &BaseAddresses,
        address: u64,
        mut get_cie: F,
    ) -> Result<FrameDescriptionEntry<R>>
    where
        Self: Sized,
        requires { F.IsAlwaysCallable get_cie }
        ensures { FindsFde (cies F.step R.stretch R.Offset.value Self.frame Self.Offset.number)
            self.now bases.now address get_cie result }
    {
        let mut entries = self.entries(bases);
        while let Some(entry) = entries.next()? {
            if let CieOrFde::Fde(partial) = entry {
                let cie = get_cie(&partial.section, partial.bases, partial.cie_offset)?;
                let fde = partial.with_cie(cie)?;
                if fde.contains(address) {
                    return Ok(fde);
                }
            }
        }
        Err(Error::NoUnwindInfoForAddress)
    }

    /// The FDE for an address: the first in the section that can be read and contains it. FDEs that
    /// can't be read, by themselves or by their CIEs, are passed over. If no other contains the
    /// address, it fails with the error that ends the section's list, if one does, and else with
    /// `NoUnwindInfoForAddress`. `OutOfMemory` of `get_cie` is returned at once.
    final fn fde_for_address_skipping<
        F: FnMut(&Self, &BaseAddresses, Self::Offset) -> Result<CommonInformationEntry<R>>,
    >(
        &self,
        bases: &BaseAddresses,
        address: u64,
        mut get_cie: F,
    ) -> Result<FrameDescriptionEntry<R>>
    where
        Self: Sized,
        requires { F.IsAlwaysCallable get_cie }
        ensures { ScansFde (cies F.step R.stretch R.Offset.value Self.frame Self.Offset.number)
            self.now bases.now address get_cie result }
    {
        let mut entries = self.entries(bases);
        while let Some(entry) = entries.next()? {
            let CieOrFde::Fde(partial) = entry else {
                continue;
            };
            let cie = match get_cie(&partial.section, partial.bases, partial.cie_offset) {
                Ok(cie) => cie,
                Err(error) => match error {
                    Error::OutOfMemory => return Err(error),
                    _ => continue,
                },
            };
            let Ok(fde) = partial.with_cie(cie) else {
                continue;
            };
            if fde.contains(address) {
                return Ok(fde);
            }
        }
        Err(Error::NoUnwindInfoForAddress)
    }

    /// The row for an address: that of the FDE that `fde_for_address` finds. Fails as this does,
    /// and as the FDE's own `unwind_info_for_address`. What the context held before doesn't matter.
    final fn unwind_info_for_address<
        'ctx,
        F: FnMut(&Self, &BaseAddresses, Self::Offset) -> Result<CommonInformationEntry<R>>,
        S: UnwindContextStorage<R::Offset>,
    >(
        &self,
        bases: &BaseAddresses,
        ctx: &'ctx mut UnwindContext<R::Offset, S>,
        address: u64,
        get_cie: F,
    ) -> Result<&'ctx UnwindTableRow<R::Offset, S::Rules>>
    where
        Self: Sized,
        requires { F.IsAlwaysCallable get_cie }
        ensures { FindsRowFor (cies F.step R.stretch R.Offset.value Self.frame Self.Offset.number)
            S.never_allocates S.limits (Self.extensions self.now) self.now bases.now address
            get_cie result }
    {
        let fde = self.fde_for_address(bases, address, get_cie)?;
        fde.unwind_info_for_address(self, bases, ctx, address)
    }
}

impl<R: Reader> UnwindSection<R> for EhFrame<R> {
    type Offset = EhFrameOffset<R::Offset>;
}

impl<R: Reader> UnwindSection<R> for DebugFrame<R> {
    type Offset = DebugFrameOffset<R::Offset>;
}
