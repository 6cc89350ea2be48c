//! The step by a row of call frames, on any architecture.

ghost use Rattle.std.specs.Prelude.{◌≡◌, ◌≢◌, ℕ, Err, IfErr};
ghost use Rattle.dwarf_frame_instructions.specs.Execution.{row_in};
ghost use Rattle.dwarf_constants.specs.declared.common.Register.{Register};
ghost use Rattle.dwarf_frame_parts.specs.RowParts.{IsApart};
ghost use Rattle.dwarf_frame_parts.specs.SimpleRows.{HasParts};
ghost use Rattle.dwarf_frame_rows.specs.Row.{Row};
ghost use Rattle.framehop_rules.specs.UnwindResults.{HasValidRule};
ghost use Rattle.framehop_rows.specs.Memory.{TakesMemory};
ghost use Rattle.framehop_rows.specs.RowAttempt.{AnswersRow, AnswersRows};
ghost use Rattle.framehop_rows.specs.RowErrors.{IsOfRow};
ghost use Rattle.framehop_rows.specs.RowMeanings.{RowMeanings};
ghost use Rattle.framehop_rows.specs.RowValues.{by_row};
ghost use Rattle.framehop_errors.specs.declared.dwarf.DwarfUnwinderError.TheVariants.{OutOfMemory};

use dwarf_constants::{Encoding, Register, Vendor};
use dwarf_expressions::EvaluationStorage;
use dwarf_frame_parts::SimpleRow;
use dwarf_frame_rows::{_UnwindSectionPrivate, RegisterRule, RuledRegister, UnwindTableRow};
use dwarf_readers::{Reader, ReaderOffset};
use dwarf_storage::ArrayLike;
use framehop_errors::DwarfUnwinderError;
use framehop_rules::{Arch, UnwindResult};
use std::alloc::Global;

/// An architecture whose call frames are read: the steps by their rows.
pub trait DwarfUnwinding: Arch {
    /// What its call frames mean: the attempt at a step by a row, the rule for code that no row covers, and
    /// whose extensions of instructions are read.
    ghost rows: { RowMeanings Self.UnwindRule Self.UnwindRegs };

    /// The rows that evaluate an expression.
    ghost MeetsExpression: { Row ℕ → Type 0 };

    /// The frame pointer, and the register of the return address, as DWARF numbers it: the registers whose rules a
    /// step asks a row for.
    ghost fp: { Register };

    ghost ra: { Register };

    /// The step by a row of a section: the unwind rule that says the row exactly, or else the return
    /// address by the row itself, and then the registers are the caller's. An `Err` leaves the registers as
    /// they were. `encoding` is that of the row's CIE. Allocates only the values of expressions.
    fn unwind_frame<
        S: EvaluationStorage,
        R: Reader,
        Section: _UnwindSectionPrivate<R>,
        Rules: ArrayLike<Item = RuledRegister<RegisterRule<R::Offset>>>,
        F: FnMut(u64) -> Result<u64, ()>,
    >(
        alloc: Global,
        section: &Section,
        row: &UnwindTableRow<R::Offset, Rules>,
        encoding: Encoding,
        regs: &mut Self::UnwindRegs,
        is_first_frame: bool,
        read_stack: &mut F,
    ) -> Result<UnwindResult<Self::UnwindRule>, DwarfUnwinderError>
        requires { F.IsAlwaysCallable read_stack.old }
        ensures callable { F.IsAlwaysCallable read_stack.new }
        ensures answers { AnswersRow F.step read_stack.old read_stack.new regs.old regs.new result
            (by_row rows is_first_frame S.Stack.capacity encoding
            (R.stretch (Section.reader section.now)) (row_in R.Offset.value row.now)) }
        ensures valid { HasValidRule Self.UnwindRule.is_valid result }
        ensures refusals { IfErr result IsOfRow }
        ensures expression { result ≡ Err OutOfMemory
            → MeetsExpression (row_in R.Offset.value row.now) }
        ensures memory { result ≡ Err OutOfMemory
            → TakesMemory S.Stack.is_made_in_place S.Stack.capacity };

    /// The step by any row of a section that has these parts: as by that row. It takes no memory.
    fn unwind_frame_by_parts<
        S: EvaluationStorage,
        R: Reader,
        Section: _UnwindSectionPrivate<R>,
        F: FnMut(u64) -> Result<u64, ()>,
    >(
        alloc: Global,
        section: &Section,
        parts: &SimpleRow,
        encoding: Encoding,
        regs: &mut Self::UnwindRegs,
        is_first_frame: bool,
        read_stack: &mut F,
    ) -> Result<UnwindResult<Self::UnwindRule>, DwarfUnwinderError>
        requires { F.IsAlwaysCallable read_stack.old }
        ensures callable { F.IsAlwaysCallable read_stack.new }
        ensures answers { AnswersRows F.step read_stack.old read_stack.new regs.old regs.new result
            (by_row rows is_first_frame S.Stack.capacity encoding
            (R.stretch (Section.reader section.now))) (HasParts fp ra parts.now) }
        ensures valid { HasValidRule Self.UnwindRule.is_valid result }
        ensures refusals { IfErr result IsOfRow }
        ensures memory { result ≢ Err OutOfMemory };

    /// The frame pointer.
    fn frame_pointer() -> Register
        ensures { result ≡ fp };

    /// The return address.
    fn return_address() -> Register
        ensures { result ≡ ra };

    /// The rule for code of an FDE that none of its rows covers.
    fn rule_if_uncovered_by_fde() -> Self::UnwindRule
        ensures rule { result ≡ rows.uncovered }
        ensures valid { Self.UnwindRule.is_valid result };

    /// Whose extensions of call frame instructions are read in its sections.
    fn vendor() -> Vendor
        ensures { result ≡ rows.vendor };

    /// Neither register is that of the sign state.
    ghost apart: { IsApart fp × IsApart ra };
}
