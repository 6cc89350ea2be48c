//! The rows of modules by which steps go.

ghost use Rattle.std.specs.Prelude.{◌≡◌, false};
ghost use Rattle.dwarf_readers.specs.Stretch.{whole};
ghost use Rattle.framehop_index.specs.FdeLookups.{fde_for};
ghost use Rattle.framehop_index.specs.SectionTypes.{frame_section_lent};
ghost use Rattle.framehop_loads.specs.CallFrames.{frames_used};
ghost use Rattle.framehop_whole_modules.specs.ModuleRows.{is_whole, row_at, row_for, row_in};
ghost use Rattle.framehop_whole_modules.specs.Views.{Shows};

use dwarf_frame_entries::{
    BaseAddresses, DebugFrame, EhFrame, FrameDescriptionEntry, UnwindContext, UnwindSection,
};
use dwarf_frame_rows::UnwindContextStorage;
use dwarf_read_core::{EndianSlice, LittleEndian, Reader};
use framehop_index::{FoundFde, LentFde, SectionFrames, UnwindSectionType, lookup_address};
use framehop_loads::{
    AllocationPolicy, CallFrames, DwarfUnwindContext, ModuleFormat, ModuleUnwindData, Rows,
    fde_beside,
};
use framehop_modules::SectionBytes;
use framehop_rows::DwarfUnwinding;
use framehop_whole_steps::FoundRow;

// The row of an FDE for an address, if it has one. The section has these bytes.
fn row_of<
    'a,
    UCS: UnwindContextStorage<usize>,
    R: Reader<Offset = usize>,
    Section: UnwindSection<R>,
>(
    bytes: &'a [u8],
    section: &Section,
    bases: &BaseAddresses,
    context: &'a mut UnwindContext<usize, UCS>,
    fde: &FrameDescriptionEntry<R>,
    address: u64,
) -> Option<FoundRow<'a, UCS::Rules>>
    requires rows { UCS.never_allocates }
    requires bytes { R.stretch (Section.reader section.now) ≡ whole false bytes.now }
    ensures { Shows result (row_for UCS.limits (Section.extensions section.now)
        (Section.frame section.now bases.now) address fde.now) }
{
    let column = fde.cie().return_address_register();
    match fde.unwind_info_for_address(section, bases, context, address) {
        Ok(row) => Some(FoundRow {
            section: bytes,
            row,
            column,
        }),
        Err(_) => None,
    }
}

// The row of an FDE of a module's section for an address, if it has one.
fn row_by_fde<'a, A: DwarfUnwinding, UCS: UnwindContextStorage<usize>>(
    section: UnwindSectionType<&'a [u8]>,
    bases: &BaseAddresses,
    context: &'a mut UnwindContext<usize, UCS>,
    fde: &LentFde<'_>,
    address: u64,
) -> Option<FoundRow<'a, UCS::Rules>>
    requires { UCS.never_allocates }
    ensures { Shows result (row_for UCS.limits A.rows.vendor
        (frame_section_lent bases.entry section.entry) address fde.now) }
{
    match section {
        UnwindSectionType::EhFrame(bytes) => {
            let mut section = EhFrame::new(bytes, LittleEndian);
            section.set_vendor(A::vendor());
            row_of::<UCS, EndianSlice<'_, LittleEndian>, _>(
                bytes, &section, bases, context, fde, address,
            )
        }
        UnwindSectionType::DebugFrame(bytes) => {
            let mut section = DebugFrame::new(bytes, LittleEndian);
            section.set_vendor(A::vendor());
            row_of::<UCS, EndianSlice<'_, LittleEndian>, _>(
                bytes, &section, bases, context, fde, address,
            )
        }
    }
}

// The row in a section for a relative address, by what was found of its FDE, if there is one.
fn row_by_found<'a, A: DwarfUnwinding, P: AllocationPolicy, D: SectionBytes>(
    frames: &'a SectionFrames<D>,
    found: FoundFde<EndianSlice<'_, LittleEndian>>,
    relative: u32,
    context: &'a mut DwarfUnwindContext<P>,
) -> Option<FoundRow<'a, <P::GimliUnwindContextStorage as UnwindContextStorage<usize>>::Rules>>
    requires { found ≡ fde_for frames.now relative }
    ensures { Shows result (row_in P.limits.rows A.rows.vendor frames.now relative) }
{
    let Ok(Some(fde)) = found else {
        return None;
    };
    let Ok(address) = lookup_address(frames.base_svma(), relative) else {
        return None;
    };
    row_by_fde::<A, P::GimliUnwindContextStorage>(
        frames.section(),
        frames.bases(),
        &mut *context.rows,
        &fde,
        address,
    )
}

// The row in the section of call frames that is used at a relative address, if there is one.
fn row_in_used<'a, A: DwarfUnwinding, P: AllocationPolicy, D: SectionBytes>(
    frames: &'a CallFrames<D>,
    relative: u32,
    context: &'a mut DwarfUnwindContext<P>,
) -> Option<FoundRow<'a, <P::GimliUnwindContextStorage as UnwindContextStorage<usize>>::Rules>>
    ensures { Shows result (row_in P.limits.rows A.rows.vendor
        (frames_used frames.now relative) relative) }
{
    let main = frames.main();
    let found = main.fde_for(relative);
    let Some(beside) = frames.beside() else {
        return row_by_found::<A, P, D>(main, found, relative, context);
    };
    match fde_beside(main, beside, &found, relative) {
        Some(other) => row_by_found::<A, P, D>(beside, other, relative, context),
        None => row_by_found::<A, P, D>(main, found, relative, context),
    }
}

// Whether rows are taken to say what DWARF says.
fn is_whole(rows: Rows) -> bool
    ensures { result ≡ is_whole rows }
{
    match rows {
        Rows::Published => false,
        Rows::Whole => true,
    }
}

/// The row of a module's call frames for a relative address, if the module's load asks for rows to be taken whole, and there is one.
pub(crate) fn row_at<'a, A: DwarfUnwinding, P: AllocationPolicy, D: SectionBytes>(
    given: &'a ModuleUnwindData<D>,
    relative: u32,
    context: &'a mut DwarfUnwindContext<P>,
) -> Option<FoundRow<'a, <P::GimliUnwindContextStorage as UnwindContextStorage<usize>>::Rules>>
    ensures { Shows result (row_at P.limits.rows A.rows.vendor given.now relative) }
{
    if !is_whole(given.rows()) {
        return None;
    }
    match given.format() {
        ModuleFormat::CallFrames(frames) => row_in_used::<A, P, D>(frames, relative, context),
        ModuleFormat::Pe(_) | ModuleFormat::Compact(..) | ModuleFormat::NoFormat => None,
    }
}
