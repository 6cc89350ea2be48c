//! The FDE for an address, by the table.

ghost use Rattle.dwarf_call_frames.specs.EhFrameCies.{NamesFdeFor, NamesRowFor, eh_cies};

use crate::table::EhHdrTable;
use dwarf_constants::{Error, Result};
use dwarf_frame_entries::{
    BaseAddresses, CommonInformationEntry, EhFrame, FrameDescriptionEntry, UnwindContext,
    UnwindContextStorage, UnwindSection, UnwindTableRow,
};
use dwarf_offsets::EhFrameOffset;
use dwarf_readers::Reader;

impl<'a, R: Reader> EhHdrTable<'a, R> {
    /// The FDE in the row for an address, if it contains the address. Fails as `lookup` and
    /// `pointer_to_offset` do, if the FDE can't be read, with the error of `get_cie`, which is
    /// called at most once, and with `NoUnwindInfoForAddress` if the FDE doesn't contain the
    /// address.
    pub fn fde_for_address<
        F: FnMut(
            &EhFrame<R>,
            &BaseAddresses,
            EhFrameOffset<R::Offset>,
        ) -> Result<CommonInformationEntry<R>>,
    >(
        &self,
        frame: &EhFrame<R>,
        bases: &BaseAddresses,
        address: u64,
        get_cie: F,
    ) -> Result<FrameDescriptionEntry<R>>
        requires { F.IsAlwaysCallable get_cie }
        ensures { NamesFdeFor (eh_cies F.step R.stretch R.Offset.value R.Offset.limit) self.now
            frame.now bases.now address get_cie result }
    {
        let pointer = self.lookup(address, bases)?;
        let offset = self.pointer_to_offset(pointer)?;
        let fde = frame.fde_from_offset(bases, offset, get_cie)?;
        if fde.contains(address) {
            Ok(fde)
        } else {
            Err(Error::NoUnwindInfoForAddress)
        }
    }

    /// The row for an address: that of the FDE that `fde_for_address` finds. Fails as this does,
    /// and as the FDE's own `unwind_info_for_address`. What the context held before doesn't matter.
    pub fn unwind_info_for_address<
        'ctx,
        F: FnMut(
            &EhFrame<R>,
            &BaseAddresses,
            EhFrameOffset<R::Offset>,
        ) -> Result<CommonInformationEntry<R>>,
        S: UnwindContextStorage<R::Offset>,
    >(
        &self,
        frame: &EhFrame<R>,
        bases: &BaseAddresses,
        ctx: &'ctx mut UnwindContext<R::Offset, S>,
        address: u64,
        get_cie: F,
    ) -> Result<&'ctx UnwindTableRow<R::Offset, S::Rules>>
        requires { F.IsAlwaysCallable get_cie }
        ensures { NamesRowFor (eh_cies F.step R.stretch R.Offset.value R.Offset.limit)
            S.never_allocates S.limits self.now frame.now bases.now address get_cie result }
    {
        let fde = self.fde_for_address(frame, bases, address, get_cie)?;
        fde.unwind_info_for_address(frame, bases, ctx, address)
    }
}
