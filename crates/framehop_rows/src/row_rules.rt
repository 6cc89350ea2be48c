//! The unwind rules that say rows, without a frame.

ghost use Rattle.std.specs.Prelude.{◌≡◌, ℕ, Bool, Option, IfSome};
ghost use Rattle.dwarf_readers.specs.Stretch.{Stretch};
ghost use Rattle.dwarf_frame_instructions.specs.Execution.{row_in};
ghost use Rattle.dwarf_frame_rows.specs.Row.{Row};
ghost use Rattle.framehop_rows.specs.RowAttempt.{rule_of_row};
ghost use Rattle.dwarf_frame_parts.specs.RowParts.{parts_as, parts_of};
ghost use Rattle.dwarf_frame_parts.specs.declared.parts.Parts.{Parts};

use crate::dwarf::DwarfUnwinding;
use crate::rows::PartsUnwinding;
use dwarf_frame_parts::{Parts, parts_of_row};
use dwarf_frame_rows::{RegisterRule, RuledRegister, UnwindTableRow};
use dwarf_readers::ReaderOffset;
use dwarf_storage::ArrayLike;
use framehop_rules::aarch64::{ArchAarch64, UnwindRuleAarch64};
use framehop_rules::x86_64::{ArchX86_64, UnwindRuleX86_64};

/// An architecture whose rows are unwind rules, or not, whatever the frame.
pub trait RowRules: DwarfUnwinding {
    /// The rule that says a row exactly, if one does.
    ghost rule_of: { Row ℕ → Option Self.UnwindRule };

    /// The rule that says a row exactly, if one does: that of each step by the row, in a first and in a later
    /// frame.
    fn rule_for_row<T: ReaderOffset, Rules: ArrayLike<Item = RuledRegister<RegisterRule<T>>>>(
        row: &UnwindTableRow<T, Rules>,
    ) -> Option<Self::UnwindRule>
        ensures rule { result ≡ rule_of (row_in T.value row.now) }
        ensures valid { IfSome result Self.UnwindRule.is_valid };

    /// The rule that says the parts of a row exactly, if one does.
    ghost rule_of_parts: { Parts ℕ → Option Self.UnwindRule };

    /// The rule that says the parts of a row exactly, if one does.
    fn rule_for_parts<T: ReaderOffset>(parts: &Parts<T>) -> Option<Self::UnwindRule>
        ensures rule { result ≡ rule_of_parts (parts_as T.value parts.now) }
        ensures valid { IfSome result Self.UnwindRule.is_valid };

    /// The attempt by a row has this rule, whatever the frame, the most values of an expression, the size of an
    /// address and the section.
    ghost says: { (first : Bool) (values : Option ℕ) (address_size : ℕ) (section : Stretch) (row : Row ℕ)
        → rule_of_row (Self.rows.row_attempt first values address_size section row) ≡ rule_of row };

    /// The rule of a row is that of its parts.
    ghost of_parts: { (row : Row ℕ) → rule_of row ≡ rule_of_parts (parts_of Self.fp Self.ra row) };
}

// The rule that says a row exactly, if one does.
fn rule_by_parts<
    A: PartsUnwinding,
    T: ReaderOffset,
    Rules: ArrayLike<Item = RuledRegister<RegisterRule<T>>>,
>(row: &UnwindTableRow<T, Rules>) -> Option<A::UnwindRule>
    ensures rule { result ≡ A.scaled_rule (parts_of A.fp A.ra (row_in T.value row.now)) }
    ensures valid { IfSome result A.UnwindRule.is_valid }
{
    let parts = parts_of_row(row, A::frame_pointer(), A::return_address());
    A::rule_for_parts(&parts)
}

impl RowRules for ArchX86_64 {
    ghost use Rattle.std.specs.Prelude.{refl};
    ghost use Rattle.dwarf_frame_parts.specs.RowParts.{parts_of};
    ghost use Rattle.framehop_rows.specs.RowRules.{rule-said};
    ghost use Rattle.framehop_rows.specs.ScaledRow.{RBP, RA, scaled_rule};

    ghost rule_of = { λ row. scaled_rule (parts_of RBP RA row) };

    ghost says = { λ first values address_size section row.
        rule-said _ (scaled_rule (parts_of RBP RA row)) };

    ghost rule_of_parts = { λ parts. scaled_rule parts };

    ghost of_parts = { λ row. refl };

    #[inline(always)]
    fn rule_for_parts<T: ReaderOffset>(parts: &Parts<T>) -> Option<UnwindRuleX86_64> {
        <ArchX86_64 as PartsUnwinding>::rule_for_parts(parts)
    }

    fn rule_for_row<T: ReaderOffset, Rules: ArrayLike<Item = RuledRegister<RegisterRule<T>>>>(
        row: &UnwindTableRow<T, Rules>,
    ) -> Option<UnwindRuleX86_64> {
        rule_by_parts::<ArchX86_64, T, Rules>(row)
    }
}

impl RowRules for ArchAarch64 {
    ghost use Rattle.std.specs.Prelude.{refl};
    ghost use Rattle.dwarf_frame_parts.specs.RowParts.{parts_of};
    ghost use Rattle.framehop_rows.specs.RowRules.{rule-said};
    ghost use Rattle.framehop_rows.specs.ScaledRowAarch64.{X29, X30, scaled_rule};

    ghost rule_of = { λ row. scaled_rule (parts_of X29 X30 row) };

    ghost says = { λ first values address_size section row.
        rule-said _ (scaled_rule (parts_of X29 X30 row)) };

    ghost rule_of_parts = { λ parts. scaled_rule parts };

    ghost of_parts = { λ row. refl };

    #[inline(always)]
    fn rule_for_parts<T: ReaderOffset>(parts: &Parts<T>) -> Option<UnwindRuleAarch64> {
        <ArchAarch64 as PartsUnwinding>::rule_for_parts(parts)
    }

    fn rule_for_row<T: ReaderOffset, Rules: ArrayLike<Item = RuledRegister<RegisterRule<T>>>>(
        row: &UnwindTableRow<T, Rules>,
    ) -> Option<UnwindRuleAarch64> {
        rule_by_parts::<ArchAarch64, T, Rules>(row)
    }
}
