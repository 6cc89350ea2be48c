//! Steps by the call frames of a module.

ghost use Rattle.std.specs.Prelude.{◌≡◌, IfSome, option_map};
ghost use Rattle.framehop_rules.specs.UnwindResults.{HasValidRule};
ghost use Rattle.framehop_index.specs.FdeLookups.{fde_for};
ghost use Rattle.framehop_index.specs.SectionTypes.{frame_section_lent};
ghost use Rattle.framehop_loads.specs.CallFrames.{frames_for, frames_used};
ghost use Rattle.framehop.specs.FormatMethods.{method_in};
ghost use Rattle.framehop.specs.MethodViews.{AnswersMethod};
ghost use Rattle.framehop.specs.Methods.{UsesFde, method_at_offset, method_by_frames};

use crate::dwarf::unwind_frame_by_known_fde;
use crate::failures::failure_of;
use dwarf_frame_entries::BaseAddresses;
use dwarf_read_core::{EndianSlice, LittleEndian};
use framehop_errors::UnwinderError;
use framehop_index::{
    FoundFde, LentFde, SectionFrames, UnwindSectionType, lent_fde_at, lookup_address,
};
use framehop_loads::{AllocationPolicy, CallFrames, DwarfUnwindContext, Tabulating, fde_beside};
use framehop_modules::SectionBytes;
use framehop_rows::DwarfUnwinding;
use framehop_rules::UnwindResult;
use framehop_tables::Covered;
use framehop_unwinder::UnwindFailure;

// The step by what is known of the FDE for an address, from a frame there.
#[inline(always)]
fn unwind_frame_with_context<
    A: DwarfUnwinding,
    P: AllocationPolicy,
    F: FnMut(u64) -> Result<u64, ()>,
>(
    section: &UnwindSectionType<&[u8]>,
    bases: &BaseAddresses,
    known: &Option<LentFde<'_>>,
    address: u64,
    regs: &mut A::UnwindRegs,
    is_first_frame: bool,
    unwind_context: &mut DwarfUnwindContext<P>,
    read_stack: &mut F,
) -> Result<UnwindResult<A::UnwindRule>, UnwindFailure>
    requires callable { F.IsAlwaysCallable read_stack.old }
    ensures callable { F.IsAlwaysCallable read_stack.new }
    ensures answers { AnswersMethod F.step read_stack.old read_stack.new regs.old regs.new result
        A.rows A.MeetsExpression P.limits P.may_allocate is_first_frame
        (UsesFde (frame_section_lent bases.entry section.now) address known.now) }
    ensures valid { HasValidRule A.UnwindRule.is_valid result }
{
    let alloc = unwind_context.alloc;
    match unwind_frame_by_known_fde::<
        A,
        P::GimliEvaluationStorage,
        P::GimliUnwindContextStorage,
        F,
    >(
        alloc,
        section,
        bases,
        &mut *unwind_context.rows,
        known,
        address,
        regs,
        is_first_frame,
        read_stack,
    ) {
        Ok(answer) => Ok(answer),
        Err(error) => Err(failure_of(UnwinderError::Dwarf(error))),
    }
}

// The step by what a section has for a relative address, from a frame there.
#[inline(always)]
fn unwind_frame_by_found<
    A: DwarfUnwinding,
    P: AllocationPolicy,
    D: SectionBytes,
    F: FnMut(u64) -> Result<u64, ()>,
>(
    frames: &SectionFrames<D>,
    found: FoundFde<EndianSlice<'_, LittleEndian>>,
    regs: &mut A::UnwindRegs,
    is_first_frame: bool,
    relative_address: u32,
    unwind_context: &mut DwarfUnwindContext<P>,
    read_stack: &mut F,
) -> Result<UnwindResult<A::UnwindRule>, UnwindFailure>
    requires found { found ≡ fde_for frames.now relative_address }
    requires callable { F.IsAlwaysCallable read_stack.old }
    ensures callable { F.IsAlwaysCallable read_stack.new }
    ensures answers { AnswersMethod F.step read_stack.old read_stack.new regs.old regs.new result
        A.rows A.MeetsExpression P.limits P.may_allocate is_first_frame
        (method_by_frames frames.now relative_address) }
    ensures valid { HasValidRule A.UnwindRule.is_valid result }
{
    let known = match found {
        Ok(known) => known,
        Err(_) => return Err(UnwindFailure::OfModule),
    };
    match lookup_address(frames.base_svma(), relative_address) {
        Ok(address) => unwind_frame_with_context::<A, P, F>(
            &frames.section(),
            frames.bases(),
            &known,
            address,
            regs,
            is_first_frame,
            unwind_context,
            read_stack,
        ),
        Err(_) => Err(UnwindFailure::OfModule),
    }
}

// The step by the section itself, from a frame at a relative address: by its table, if that says a rule or nothing, or else by the FDE.
#[inline(always)]
fn unwind_frame_by_main<
    A: Tabulating,
    P: AllocationPolicy,
    D: SectionBytes,
    F: FnMut(u64) -> Result<u64, ()>,
>(
    frames: &CallFrames<D>,
    found: Option<FoundFde<EndianSlice<'_, LittleEndian>>>,
    regs: &mut A::UnwindRegs,
    is_first_frame: bool,
    relative_address: u32,
    unwind_context: &mut DwarfUnwindContext<P>,
    read_stack: &mut F,
) -> Result<UnwindResult<A::UnwindRule>, UnwindFailure>
    requires found { IfSome found (λ found. found ≡ fde_for frames.now.main relative_address) }
    requires callable { F.IsAlwaysCallable read_stack.old }
    ensures callable { F.IsAlwaysCallable read_stack.new }
    ensures answers { AnswersMethod F.step read_stack.old read_stack.new regs.old regs.new result
        A.rows A.MeetsExpression P.limits P.may_allocate is_first_frame
        (method_by_frames frames.now.main relative_address) }
    ensures valid { HasValidRule A.UnwindRule.is_valid result }
{
    if let Some(covered) = frames.said_by_table::<A>(relative_address) {
        match covered {
            Covered::Says(rule) => return Ok(UnwindResult::ExecRule(rule)),
            Covered::Nothing => return Err(UnwindFailure::OfModule),
            Covered::Evaluates(_) => {}
        }
    }
    let found = frames.main_fde(found, relative_address);
    unwind_frame_by_found::<A, P, D, F>(
        frames.main(),
        found,
        regs,
        is_first_frame,
        relative_address,
        unwind_context,
        read_stack,
    )
}

// The step by two sections, from a frame at a relative address. Each is searched once, and its FDE parsed once.
#[tactic(auto, using(crate::proofs::MethodAnswers::as_used))]
fn unwind_frame_by_both<
    A: Tabulating,
    P: AllocationPolicy,
    D: SectionBytes,
    F: FnMut(u64) -> Result<u64, ()>,
>(
    frames: &CallFrames<D>,
    beside: &SectionFrames<D>,
    regs: &mut A::UnwindRegs,
    is_first_frame: bool,
    relative_address: u32,
    unwind_context: &mut DwarfUnwindContext<P>,
    read_stack: &mut F,
) -> Result<UnwindResult<A::UnwindRule>, UnwindFailure>
    requires callable { F.IsAlwaysCallable read_stack.old }
    ensures callable { F.IsAlwaysCallable read_stack.new }
    ensures answers { AnswersMethod F.step read_stack.old read_stack.new regs.old regs.new result
        A.rows A.MeetsExpression P.limits P.may_allocate is_first_frame
        (method_by_frames (frames_for frames.now.main beside.now relative_address) relative_address) }
    ensures valid { HasValidRule A.UnwindRule.is_valid result }
{
    let found = frames.main().fde_for(relative_address);
    match fde_beside(frames.main(), beside, &found, relative_address) {
        Some(other) => unwind_frame_by_found::<A, P, D, F>(
            beside,
            other,
            regs,
            is_first_frame,
            relative_address,
            unwind_context,
            read_stack,
        ),
        None => unwind_frame_by_main::<A, P, D, F>(
            frames,
            Some(found),
            regs,
            is_first_frame,
            relative_address,
            unwind_context,
            read_stack,
        ),
    }
}

// The step by the call frames of a module, from a frame at a relative address.
#[inline(always)]
pub(crate) fn unwind_frame_by_call_frames<
    A: Tabulating,
    P: AllocationPolicy,
    D: SectionBytes,
    F: FnMut(u64) -> Result<u64, ()>,
>(
    frames: &CallFrames<D>,
    regs: &mut A::UnwindRegs,
    is_first_frame: bool,
    relative_address: u32,
    unwind_context: &mut DwarfUnwindContext<P>,
    read_stack: &mut F,
) -> Result<UnwindResult<A::UnwindRule>, UnwindFailure>
    requires callable { F.IsAlwaysCallable read_stack.old }
    ensures callable { F.IsAlwaysCallable read_stack.new }
    ensures answers { AnswersMethod F.step read_stack.old read_stack.new regs.old regs.new result
        A.rows A.MeetsExpression P.limits P.may_allocate is_first_frame
        (method_by_frames (frames_used frames.now relative_address) relative_address) }
    ensures valid { HasValidRule A.UnwindRule.is_valid result }
{
    match frames.beside() {
        Some(beside) => unwind_frame_by_both::<A, P, D, F>(
            frames,
            beside,
            regs,
            is_first_frame,
            relative_address,
            unwind_context,
            read_stack,
        ),
        None => unwind_frame_by_main::<A, P, D, F>(
            frames,
            None,
            regs,
            is_first_frame,
            relative_address,
            unwind_context,
            read_stack,
        ),
    }
}

// The step by the FDE at an offset of a section of call frames, from a frame at a relative address.
fn unwind_frame_at_offset<A: DwarfUnwinding, P: AllocationPolicy, F: FnMut(u64) -> Result<u64, ()>>(
    section: UnwindSectionType<&[u8]>,
    bases: &BaseAddresses,
    base_svma: u64,
    regs: &mut A::UnwindRegs,
    is_first_frame: bool,
    relative_address: u32,
    fde_offset: u32,
    unwind_context: &mut DwarfUnwindContext<P>,
    read_stack: &mut F,
) -> Result<UnwindResult<A::UnwindRule>, UnwindFailure>
    requires callable { F.IsAlwaysCallable read_stack.old }
    ensures callable { F.IsAlwaysCallable read_stack.new }
    ensures answers { AnswersMethod F.step read_stack.old read_stack.new regs.old regs.new result
        A.rows A.MeetsExpression P.limits P.may_allocate is_first_frame
        (method_at_offset (frame_section_lent bases.entry section.entry) base_svma relative_address fde_offset) }
    ensures valid { HasValidRule A.UnwindRule.is_valid result }
{
    let address = match lookup_address(base_svma, relative_address) {
        Ok(address) => address,
        Err(_) => return Err(UnwindFailure::OfModule),
    };
    match lent_fde_at(&section, bases, fde_offset) {
        Ok(fde) => unwind_frame_with_context::<A, P, F>(
            &section,
            bases,
            &Some(fde),
            address,
            regs,
            is_first_frame,
            unwind_context,
            read_stack,
        ),
        Err(_) => Err(UnwindFailure::OfModule),
    }
}

// The step by the FDE at an offset of `__eh_frame`, which isn't in every module, from a frame at a relative address.
pub(crate) fn unwind_frame_by_eh_frame<
    A: DwarfUnwinding,
    P: AllocationPolicy,
    F: FnMut(u64) -> Result<u64, ()>,
>(
    eh_frame: Option<&[u8]>,
    bases: &BaseAddresses,
    base_svma: u64,
    regs: &mut A::UnwindRegs,
    is_first_frame: bool,
    relative_address: u32,
    fde_offset: u32,
    unwind_context: &mut DwarfUnwindContext<P>,
    read_stack: &mut F,
) -> Result<UnwindResult<A::UnwindRule>, UnwindFailure>
    requires callable { F.IsAlwaysCallable read_stack.old }
    ensures callable { F.IsAlwaysCallable read_stack.new }
    ensures answers { AnswersMethod F.step read_stack.old read_stack.new regs.old regs.new result
        A.rows A.MeetsExpression P.limits P.may_allocate is_first_frame
        (method_in bases.now base_svma relative_address
        (option_map (λ bytes. bytes.now) eh_frame.entry) fde_offset) }
    ensures valid { HasValidRule A.UnwindRule.is_valid result }
{
    let Some(bytes) = eh_frame else {
        return Err(failure_of(UnwinderError::NoDwarfData));
    };
    unwind_frame_at_offset::<A, P, F>(
        UnwindSectionType::EhFrame(bytes),
        bases,
        base_svma,
        regs,
        is_first_frame,
        relative_address,
        fde_offset,
        unwind_context,
        read_stack,
    )
}
