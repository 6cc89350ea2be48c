//! Steps by the compact unwind info of a Mach-O file.

ghost use Rattle.std.specs.Prelude.{◌≡◌, option_map};
ghost use Rattle.framehop_compact.specs.CompactSteps.{compact_step};
ghost use Rattle.framehop_rules.specs.UnwindResults.{HasValidRule};
ghost use Rattle.framehop.specs.FormatMethods.{method_by_compact};
ghost use Rattle.framehop.specs.MethodViews.{AnswersMethod};

use crate::call_frames::unwind_frame_by_eh_frame;
use crate::failures::failure_of;
use dwarf_frame_entries::BaseAddresses;
use framehop_compact::{CompactUnwindInfoUnwinding, CuiUnwindResult};
use framehop_errors::UnwinderError;
use framehop_loads::{AllocationPolicy, CompactModule, DwarfUnwindContext};
use framehop_modules::SectionBytes;
use framehop_rows::DwarfUnwinding;
use framehop_rules::UnwindResult;
use framehop_unwinder::UnwindFailure;

// The bytes of a section that is lent, if it is there.
fn bytes_of<D: SectionBytes>(section: &Option<D>) -> Option<&[u8]>
    ensures { option_map (λ bytes. bytes.now) result ≡ option_map D.content section.now }
{
    match section {
        Some(section) => Some(section.bytes()),
        None => None,
    }
}

// The step by compact unwind info, from a frame at a relative address: by its rule, or by an FDE of `__eh_frame`.
#[inline(never)]
pub(crate) fn unwind_frame_by_compact<
    A: DwarfUnwinding + CompactUnwindInfoUnwinding,
    P: AllocationPolicy,
    D: SectionBytes,
    F: FnMut(u64) -> Result<u64, ()>,
>(
    file: &CompactModule<D>,
    eh_frame: &Option<D>,
    bases: &BaseAddresses,
    base_svma: u64,
    regs: &mut A::UnwindRegs,
    is_first_frame: bool,
    relative_address: u32,
    unwind_context: &mut DwarfUnwindContext<P>,
    read_stack: &mut F,
) -> Result<UnwindResult<A::UnwindRule>, UnwindFailure>
    requires callable { F.IsAlwaysCallable read_stack.old }
    ensures callable { F.IsAlwaysCallable read_stack.new }
    ensures answers { AnswersMethod F.step read_stack.old read_stack.new regs.old regs.new result
        A.rows A.MeetsExpression P.limits P.may_allocate is_first_frame
        (method_by_compact bases.now base_svma relative_address (option_map D.content eh_frame.now)
        (compact_step A.compact file.now relative_address is_first_frame)) }
    ensures valid { HasValidRule A.UnwindRule.is_valid result }
{
    match file.said_by_tables::<A>(relative_address, is_first_frame) {
        Ok(CuiUnwindResult::ExecRule(rule)) => Ok(UnwindResult::ExecRule(rule)),
        Ok(CuiUnwindResult::NeedDwarf(fde_offset)) => unwind_frame_by_eh_frame::<A, P, F>(
            bytes_of(eh_frame),
            bases,
            base_svma,
            regs,
            is_first_frame,
            relative_address,
            fde_offset,
            unwind_context,
            read_stack,
        ),
        Err(error) => Err(failure_of(UnwinderError::CompactUnwindInfo(error))),
    }
}
