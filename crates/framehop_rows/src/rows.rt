//! Steps by the parts of rows, on any architecture.

ghost use Rattle.std.specs.Prelude.{◌≡◌, ℕ, Option, Err, IfErr, IfSome};
ghost use Rattle.dwarf_constants.specs.declared.common.Register.{Register};
ghost use Rattle.framehop_rules.specs.UnwindResults.{HasValidRule};
ghost use Rattle.framehop_rows.specs.Memory.{HasExpressionPart, TakesMemory};
ghost use Rattle.framehop_rows.specs.RowAttempt.{AnswersCaller, AnswersRow, DirectAnswer, MeetsExpressionPart, attempt_by_parts};
ghost use Rattle.framehop_rows.specs.RowErrors.{IsOfRow};
ghost use Rattle.dwarf_frame_parts.specs.RowParts.{parts_as};
ghost use Rattle.framehop_errors.specs.declared.dwarf.DwarfUnwinderError.TheVariants.{OutOfMemory};
ghost use Rattle.dwarf_frame_parts.specs.declared.parts.Parts.{Parts};

use dwarf_constants::{Encoding, Register};
use dwarf_expressions::EvaluationStorage;
use dwarf_frame_parts::Parts;
use dwarf_frame_rows::_UnwindSectionPrivate;
use dwarf_readers::{Reader, ReaderOffset};
use framehop_errors::DwarfUnwinderError;
use framehop_rules::{Arch, UnwindResult};
use std::alloc::Global;

// An architecture, by the steps that it makes by the parts of a row.
pub(crate) trait PartsUnwinding: Arch {
    // The registers whose rules are asked for.
    ghost fp: { Register };

    ghost ra: { Register };

    // The rule that says parts of a row exactly, if one does.
    ghost scaled_rule: { Parts ℕ → Option Self.UnwindRule };

    // The caller that parts of a row give by themselves.
    ghost direct_answer: { DirectAnswer Self.UnwindRegs };

    // The frame pointer.
    fn frame_pointer() -> Register
        ensures { result ≡ fp };

    // The register of the return address, as DWARF numbers it.
    fn return_address() -> Register
        ensures { result ≡ ra };

    // The rule that says parts of a row exactly, if one does. Offsets that are no multiples of a rule's
    // unit are never rounded.
    fn rule_for_parts<T: ReaderOffset>(parts: &Parts<T>) -> Option<Self::UnwindRule>
        ensures rule { result ≡ scaled_rule (parts_as T.value parts.now) }
        ensures valid { IfSome result Self.UnwindRule.is_valid };

    // The return address that parts of a row give by themselves; the registers are the caller's then. An
    // `Err` leaves them as they were.
    fn unwind_by_parts<
        S: EvaluationStorage,
        R: Reader,
        Section: _UnwindSectionPrivate<R>,
        F: FnMut(u64) -> Result<u64, ()>,
    >(
        alloc: Global,
        section: &Section,
        parts: &Parts<R::Offset>,
        encoding: Encoding,
        regs: &mut Self::UnwindRegs,
        is_first_frame: bool,
        read_stack: &mut F,
    ) -> Result<u64, DwarfUnwinderError>
        requires { F.IsAlwaysCallable read_stack.old }
        ensures callable { F.IsAlwaysCallable read_stack.new }
        ensures caller { AnswersCaller F.step read_stack.old read_stack.new regs.old regs.new result
            (λ regs words. direct_answer S.Stack.capacity encoding.address_size is_first_frame regs words
            (R.stretch (Section.reader section.now)) (parts_as R.Offset.value parts.now)) }
        ensures refusals { IfErr result IsOfRow }
        ensures expression { result ≡ Err OutOfMemory
            → HasExpressionPart (parts_as R.Offset.value parts.now) }
        ensures memory { result ≡ Err OutOfMemory
            → TakesMemory S.Stack.is_made_in_place S.Stack.capacity };
}

// The step by the parts of a row of a section: the unwind rule that says them exactly, or else the return address
// by the parts themselves, and then the registers are the caller's. An `Err` leaves the registers as they were.
#[inline(always)]
pub(crate) fn unwind_frame_by_parts<
    A: PartsUnwinding,
    S: EvaluationStorage,
    R: Reader,
    Section: _UnwindSectionPrivate<R>,
    F: FnMut(u64) -> Result<u64, ()>,
>(
    alloc: Global,
    section: &Section,
    parts: &Parts<R::Offset>,
    encoding: Encoding,
    regs: &mut A::UnwindRegs,
    is_first_frame: bool,
    read_stack: &mut F,
) -> Result<UnwindResult<A::UnwindRule>, DwarfUnwinderError>
    requires { F.IsAlwaysCallable read_stack.old }
    ensures callable { F.IsAlwaysCallable read_stack.new }
    ensures answers { AnswersRow F.step read_stack.old read_stack.new regs.old regs.new result
        (attempt_by_parts A.scaled_rule A.direct_answer is_first_frame S.Stack.capacity
        encoding.address_size (R.stretch (Section.reader section.now))
        (parts_as R.Offset.value parts.now)) }
    ensures valid { HasValidRule A.UnwindRule.is_valid result }
    ensures refusals { IfErr result IsOfRow }
    ensures expression { result ≡ Err OutOfMemory
        → MeetsExpressionPart A.scaled_rule (parts_as R.Offset.value parts.now) }
    ensures memory { result ≡ Err OutOfMemory
        → TakesMemory S.Stack.is_made_in_place S.Stack.capacity }
{
    if let Some(rule) = A::rule_for_parts(parts) {
        return Ok(UnwindResult::ExecRule(rule));
    }
    match A::unwind_by_parts::<S, R, Section, F>(
        alloc,
        section,
        parts,
        encoding,
        regs,
        is_first_frame,
        read_stack,
    ) {
        Ok(return_address) => Ok(UnwindResult::Uncacheable(return_address)),
        Err(error) => Err(error),
    }
}
