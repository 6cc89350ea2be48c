//! What the rows of an FDE say of relative addresses.

ghost use Rattle.std.specs.Prelude.{◌≡◌, ◌≤◌, ◌-◌, ◌^◌, IfOk, min};
ghost use Rattle.dwarf_frame_instructions.specs.Execution.{row_in};
ghost use Rattle.dwarf_frame_instructions.specs.ProgramRows.{rows_left};
ghost use Rattle.framehop_ranges.specs.Ranges.{Sound};
ghost use Rattle.framehop_tables.specs.Covered.{SaysValid, by_rule, row_rules};
ghost use Rattle.framehop_tables.specs.Tabulations.{AddsOthers, AddsRow, SaysRow};

use crate::covered::Covered;
use crate::entry::{Entry, extend};
use crate::same_rule::SameRule;
use crate::spans::Span;
use dwarf_frame_instructions::ProgramRows;
use dwarf_frame_rows::{RegisterRule, RuledRegister, UnwindContextStorage, UnwindTableRow};
use dwarf_readers::{Reader, ReaderOffset};
use dwarf_storage::ArrayLike;
use framehop_ranges::Ranges;
use framehop_rows::RowRules;
use std::alloc::AllocError;

// What a row says: the rule that says it exactly, or else the row itself.
#[inline(always)]
fn covered_by_row<
    A: RowRules,
    T: ReaderOffset,
    Rules: ArrayLike<Item = RuledRegister<RegisterRule<T>>>,
>(row: &UnwindTableRow<T, Rules>, offset: u32) -> Covered<A::UnwindRule>
    ensures covered { result ≡ by_rule offset (A.rule_of (row_in T.value row.now)) }
    ensures valid { SaysValid A.UnwindRule.is_valid result }
{
    match A::rule_for_row(row) {
        Some(rule) => Covered::Says(rule),
        None => Covered::Evaluates(offset),
    }
}

// Adds what a row says, from where the ranges end up to the row's end.
#[inline(always)]
pub(crate) fn add_covered<Rule: SameRule>(
    ranges: &mut Ranges<Entry<Rule>>,
    end: u64,
    span: Span,
    covered: Covered<Rule>,
) -> Result<(), AllocError>
    requires sound { Sound ranges.old }
    requires fits { span.limit ≤ 2 ^ 32 }
    requires valid { SaysValid Rule.is_valid covered }
    ensures { IfOk result (λ _. AddsRow ranges.old (min (end - span.base_svma) span.limit) covered ranges.new) }
{
    let end = end.saturating_sub(span.base_svma).min(span.limit);
    if end <= ranges.done() {
        return Ok(());
    }
    extend(ranges, end, covered)
}

// Adds a row: what it says, from where the ranges end up to the row's end.
#[inline(always)]
fn add_row<A: RowRules, T: ReaderOffset, Rules: ArrayLike<Item = RuledRegister<RegisterRule<T>>>>(
    ranges: &mut Ranges<Entry<A::UnwindRule>>,
    row: &UnwindTableRow<T, Rules>,
    span: Span,
) -> Result<(), AllocError>
where
    A::UnwindRule: SameRule,
    requires sound { Sound ranges.old }
    requires fits { span.limit ≤ 2 ^ 32 }
    ensures { IfOk result (λ _. SaysRow (row_rules A.rows A.rule_of) span
        (row_in T.value row.now) ranges.old ranges.new) }
{
    let covered = covered_by_row::<A, T, Rules>(row, span.offset);
    add_covered(ranges, row.end_address(), span, covered)
}

// Adds the rows that are left, and up to the limit the rule for code that no row covers. Some of the rows may be there already.
pub(crate) fn add_rows<A: RowRules, R: Reader, S: UnwindContextStorage<R::Offset>>(
    ranges: &mut Ranges<Entry<A::UnwindRule>>,
    rows: &mut ProgramRows<'_, '_, R, S>,
    span: Span,
) -> Result<(), AllocError>
where
    A::UnwindRule: SameRule,
    requires fixed { S.never_allocates }
    requires sound { Sound ranges.old }
    requires fits { span.limit ≤ 2 ^ 32 }
    ensures { let left = rows_left R.stretch R.Offset.limit R.Offset.value S.Stack.items S.limits rows.old in
        IfOk result (λ _. AddsOthers (row_rules A.rows A.rule_of) span left ranges.old ranges.new) }
{
    'rows: loop {
        if span.limit <= ranges.done() {
            return Ok(());
        }
        let _advanced = rows.advance();
        let Some(row) = rows.current_row() else {
            let uncovered = Covered::Says(A::rule_if_uncovered_by_fde());
            return extend(ranges, span.limit, uncovered);
        };
        add_row::<A, R::Offset, S::Rules>(&mut *ranges, row, span)?;
    }
}
