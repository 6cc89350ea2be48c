//! What a table keeps of a range of addresses.

ghost use Rattle.std.specs.Prelude.{◌≡◌, ◌≤◌, ◌^◌, ℕ, IfOk, length};
ghost use Rattle.framehop_ranges.specs.Ranges.{Sound, Extends, range_at};
ghost use Rattle.framehop_tables.specs.Covered.{SaysValid};
ghost use Rattle.framehop_tables.specs.declared.covered.Covered.TheVariants.{Nothing};

use crate::covered::Covered;
use crate::same_rule::{KeptRule, SameRule};
use framehop_ranges::{Ranges, SameValue};
use std::alloc::{AllocError, Global};
use std::marker::Model;

// What is kept of what is said of a range of addresses, with a rule that can be executed.
#[derive(Copy)]
pub(crate) struct KeptEntry<K: KeptRule> {
    kept: K,
}

// The entry type of a rule type.
pub(crate) type Entry<Rule> = KeptEntry<<Rule as SameRule>::Kept>;

impl<K: KeptRule> Model for KeptEntry<K> {
    ghost use Rattle.std.proofs.Common.{ap};
    ghost use Rattle.framehop_tables.specs.declared.covered.Covered.{Covered};
    ghost use Rattle.framehop_tables.specs.Covered.{SaysValid};

    ghost Value = { Covered K.Rule };

    ghost view = { λ entry. K.covered_by entry.kept };

    ghost inverse = { λ covered. record { kept = K.kept_of covered } };

    ghost inverse_ok = { λ entry valid. ap (λ kept. record { kept = kept }) (K.keeps_no_more entry.kept) };

    ghost invariant = { λ entry. SaysValid K.Rule.is_valid (K.covered_by entry.kept) };
}

impl<K: KeptRule> Clone for KeptEntry<K> {
    fn clone(&self) -> Result<Self, AllocError> {
        Ok(*self)
    }
}

impl<K: KeptRule> KeptEntry<K> {
    // What is said, if its rule can be executed.
    pub(crate) fn new(covered: Covered<K::Rule>) -> Self
        requires { SaysValid K.Rule.is_valid covered }
        ensures { result ≡ covered }
    {
        KeptEntry {
            kept: K::keep(covered),
        }
    }

    // What is said.
    #[inline(always)]
    pub(crate) fn covered(self) -> Covered<K::Rule>
        ensures covered { result ≡ self }
        ensures valid { SaysValid K.Rule.is_valid result }
    {
        self.kept.covered()
    }
}

impl<K: KeptRule> SameValue for KeptEntry<K> {
    #[inline(always)]
    fn is_same(self, other: Self) -> bool {
        self.kept.is_same_kept(other.kept)
    }
}

// The addresses up to an end, of which nothing is said.
pub(crate) fn nothing_up_to<Rule: SameRule>(alloc: Global, end: u64) -> Ranges<Entry<Rule>>
    ensures sound { Sound result }
    ensures none { length result.entries.items ≡ 0 }
    ensures value { (address : ℕ) → range_at result address ≡ Nothing }
    ensures done { result.done ≡ end }
{
    Ranges::new(alloc, end, KeptEntry::new(Covered::Nothing))
}

// Says this of the addresses up to an end, from where the ranges are done.
#[inline(always)]
pub(crate) fn extend<Rule: SameRule>(
    ranges: &mut Ranges<Entry<Rule>>,
    end: u64,
    covered: Covered<Rule>,
) -> Result<(), AllocError>
    requires sound { Sound ranges.old }
    requires fits { end ≤ 2 ^ 32 }
    requires valid { SaysValid Rule.is_valid covered }
    ensures { IfOk result (λ _. Extends ranges.old end covered ranges.new) }
{
    ranges.extend(end, KeptEntry::new(covered))
}
