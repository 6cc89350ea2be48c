//! Unwind rules that tables keep.

ghost use Rattle.std.specs.Prelude.{◌≡◌, ◌↔◌, IsTrue};
ghost use Rattle.framehop_tables.specs.declared.covered.Covered.{Covered};

use crate::covered::Covered;
use framehop_rules::UnwindRule;

/// What a table keeps, in few bytes, of what it says of an address.
pub trait KeptRule: Copy {
    /// The unwind rules that are said.
    type Rule: UnwindRule;

    /// What is said by what is kept.
    ghost covered_by: { Self → Covered Self.Rule };

    /// What is kept of what is said.
    ghost kept_of: { Covered Self.Rule → Self };

    /// What is kept has no more than what is said.
    ghost keeps_no_more: { (kept : Self) → kept_of (covered_by kept) ≡ kept };

    /// Keeps what a table says.
    fn keep(covered: Covered<Self::Rule>) -> Self
        ensures { covered_by result ≡ covered };

    /// What a table says.
    fn covered(self) -> Covered<Self::Rule>
        ensures { result ≡ covered_by self };

    /// Whether it is the same as another.
    fn is_same_kept(self, other: Self) -> bool
        ensures { IsTrue result ↔ self ≡ other };
}

/// An unwind rule with a compact form that a table stores.
pub trait SameRule: UnwindRule {
    /// The compact form.
    type Kept: KeptRule<Rule = Self>;
}
