//! What the rows of an FDE say of relative addresses, by the parts that rules are made of: the instructions are executed without a
//! context. What may fail in a context is left to one.

ghost use Rattle.std.specs.Prelude.{◌≡◌, ◌≤◌, ℕ, ◌^◌, IfOk, IsTrue};
ghost use Rattle.dwarf_frame_rows.specs.Row.{Row};
ghost use Rattle.dwarf_frame_instructions.specs.ProgramRows.{program_of};
ghost use Rattle.dwarf_frame_parts.specs.PartsStates.{AreApart, HasRoomForParts};
ghost use Rattle.dwarf_frame_parts.specs.RowParts.{parts_of};
ghost use Rattle.dwarf_frame_parts.specs.SimpleRows.{parts_shown};
ghost use Rattle.framehop_ranges.specs.Ranges.{Sound};
ghost use Rattle.dwarf_cie_rows.specs.OwnRows.{AreLeftIn};
ghost use Rattle.framehop_tables.specs.Covered.{SaysValid, by_rule, row_rules};
ghost use Rattle.framehop_tables.specs.Tabulations.{AddsProgram};

use crate::covered::Covered;
use crate::entry::{Entry, extend};
use crate::rows::add_covered;
use crate::same_rule::SameRule;
use crate::spans::Span;
use dwarf_frame_instructions::FrameProgram;
use dwarf_frame_parts::{
    Advance, Columns, FdeProgram, LeftByCie, MAX_ROWS, MAX_RULES, PartsRows, SimpleRow,
};
use dwarf_frame_rows::UnwindContextStorage;
use dwarf_readers::{Reader, ReaderOffset};
use dwarf_storage::ArrayLike;
use framehop_ranges::Ranges;
use framehop_rows::RowRules;
use std::alloc::{AllocError, Global};

// Whether a storage has room for all rows that are executed without a context.
pub(crate) fn has_room<T: ReaderOffset, S: UnwindContextStorage<T>>(
    alloc: Global,
) -> Result<bool, AllocError>
    ensures { IfOk result (λ has. IsTrue has → HasRoomForParts S.limits) }
{
    let rules = S::Rules::new_in(alloc)?;
    let rows = S::Stack::new_in(alloc)?;
    Ok(rules.has_room_for(MAX_RULES) && rows.has_room_for(MAX_ROWS))
}

// The columns of an architecture.
#[inline(always)]
pub(crate) fn columns_of<A: RowRules>() -> Columns
    ensures columns { result ≡ record { fp = A.fp; ra = A.ra } }
    ensures apart { AreApart result }
    ensures parts { (row : Row ℕ) → A.rule_of row ≡ A.rule_of_parts (parts_of result.fp result.ra row) }
{
    Columns {
        fp: A::frame_pointer(),
        ra: A::return_address(),
    }
}

// What a row says, by its parts: the rule that says them exactly, or else the row itself.
#[inline(always)]
fn covered_by_parts<A: RowRules, T: ReaderOffset>(
    row: SimpleRow,
    offset: u32,
) -> Covered<A::UnwindRule>
    ensures covered { result ≡ by_rule offset (A.rule_of_parts (parts_shown row)) }
    ensures valid { SaysValid A.UnwindRule.is_valid result }
{
    match A::rule_for_parts(&row.parts::<T>()) {
        Some(rule) => Covered::Says(rule),
        None => Covered::Evaluates(offset),
    }
}

// Adds the rows of a program, of which it is known what its CIE's own instructions leave. Returns whether all are added; if not, some
// may be.
pub(crate) fn add_rows_by_parts<A: RowRules, R: Reader, S: UnwindContextStorage<R::Offset>>(
    ranges: &mut Ranges<Entry<A::UnwindRule>>,
    program: FrameProgram<'_, R>,
    left: LeftByCie,
    span: Span,
) -> Result<bool, AllocError>
where
    A::UnwindRule: SameRule,
    requires room { HasRoomForParts S.limits }
    requires left { AreLeftIn (record { fp = A.fp; ra = A.ra }) (program_of program) left }
    requires sound { Sound ranges.old }
    requires fits { span.limit ≤ 2 ^ 32 }
    ensures { IfOk result (AddsProgram (row_rules A.rows A.rule_of) span S.limits
        (program_of program.entry) ranges.old ranges.new) }
{
    if span.limit <= ranges.done() {
        return Ok(true);
    }
    let own = FdeProgram {
        factors: program.factors,
        initial_address: program.initial_address,
        end_address: program.end_address,
        instructions: program.instructions,
    };
    let mut rows = PartsRows::new(columns_of::<A>(), left, own);
    'rows: loop {
        match rows.advance() {
            Advance::Row => {
                let covered = covered_by_parts::<A, R::Offset>(rows.row(), span.offset);
                add_covered(&mut *ranges, rows.end_address(), span, covered)?;
                if span.limit <= ranges.done() {
                    return Ok(true);
                }
            }
            Advance::LastRow => {
                let covered = covered_by_parts::<A, R::Offset>(rows.row(), span.offset);
                add_covered(&mut *ranges, rows.end_address(), span, covered)?;
                let uncovered = Covered::Says(A::rule_if_uncovered_by_fde());
                extend(ranges, span.limit, uncovered)?;
                return Ok(true);
            }
            Advance::GivesUp => return Ok(false),
        }
    }
}
