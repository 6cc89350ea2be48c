//! Steps by the unwind data of a PE file.

ghost use Rattle.std.specs.Prelude.{◌≡◌, IsTrue};
ghost use Rattle.framehop_rules.specs.UnwindResults.{HasValidRule, KeepsUnlessDirect};
ghost use Rattle.framehop_pe_codes.specs.Sections.{file_of};
ghost use Rattle.framehop_pe.specs.PeAttempts.{AnswersPe};
ghost use Rattle.framehop_pe.specs.Rows.{IsIncreasing};
ghost use Rattle.framehop.specs.MethodViews.{AnswersMethod};
ghost use Rattle.framehop.specs.PeMethods.{method_by_pe};

use crate::failures::failure_of;
use framehop_errors::{PeUnwinderError, UnwinderError};
use framehop_loads::{AllocationPolicy, PeModule};
use framehop_modules::SectionBytes;
use framehop_pe::{PeSections, PeUnwinding};
use framehop_rows::DwarfUnwinding;
use framehop_rules::UnwindResult;
use framehop_unwinder::UnwindFailure;

// The step by the sections of a PE file.
fn unwind_frame_by_pe_sections<A: PeUnwinding, F: FnMut(u64) -> Result<u64, ()>>(
    sections: PeSections<'_>,
    relative_address: u32,
    regs: &mut A::UnwindRegs,
    is_first_frame: bool,
    read_stack: &mut F,
) -> Result<UnwindResult<A::UnwindRule>, PeUnwinderError>
    requires callable { F.IsAlwaysCallable read_stack.old }
    requires increasing { IsTrue sections.increasing → IsIncreasing sections.pdata.now }
    ensures callable { F.IsAlwaysCallable read_stack.new }
    ensures answers { AnswersPe F.step read_stack.old read_stack.new regs.old regs.new result
        (A.pe_attempt (file_of sections.entry) relative_address is_first_frame) }
    ensures valid { HasValidRule A.UnwindRule.is_valid result }
    ensures keeps { KeepsUnlessDirect result regs.old regs.new }
{
    A::unwind_frame(sections, relative_address, regs, is_first_frame, read_stack)
}

// The step by the unwind data of a PE file, from a frame at a relative address.
#[inline(never)]
pub(crate) fn unwind_frame_by_pe<
    A: DwarfUnwinding + PeUnwinding,
    P: AllocationPolicy,
    D: SectionBytes,
    F: FnMut(u64) -> Result<u64, ()>,
>(
    file: &PeModule<D>,
    regs: &mut A::UnwindRegs,
    is_first_frame: bool,
    relative_address: u32,
    read_stack: &mut F,
) -> Result<UnwindResult<A::UnwindRule>, UnwindFailure>
    requires callable { F.IsAlwaysCallable read_stack.old }
    ensures callable { F.IsAlwaysCallable read_stack.new }
    ensures answers { AnswersMethod F.step read_stack.old read_stack.new regs.old
        regs.new result A.rows A.MeetsExpression P.limits P.may_allocate is_first_frame (method_by_pe
        (A.pe_attempt file.now relative_address is_first_frame)) }
    ensures valid { HasValidRule A.UnwindRule.is_valid result }
{
    let rdata = file.rdata();
    let xdata = file.xdata();
    let text = file.text();
    let sections = PeSections {
        pdata: file.pdata(),
        increasing: file.is_increasing(),
        rdata: rdata.as_ref(),
        xdata: xdata.as_ref(),
        text: text.as_ref(),
        code_rules: file.code_rules(),
    };
    match unwind_frame_by_pe_sections::<A, F>(
        sections,
        relative_address,
        regs,
        is_first_frame,
        read_stack,
    ) {
        Ok(answer) => Ok(answer),
        Err(error) => Err(failure_of(UnwinderError::Pe(error))),
    }
}
