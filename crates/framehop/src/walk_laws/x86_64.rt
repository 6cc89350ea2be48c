//! Walks on x86_64.

ghost use Rattle.framehop_unwinder.specs.Walk.{Judgment};
ghost use Rattle.framehop.specs.WalksX86_64.{WalksByRulesEnd};

use framehop_rules::x86_64::{UnwindRegsX86_64, rules_raise_sp};

/// A walk has at most 2^64 + 1 frames, as long as each of its steps is that of a rule.
pub fn walks_by_rules_end()
    ensures { (judged : Judgment UnwindRegsX86_64) → WalksByRulesEnd judged }
{
    rules_raise_sp();
}
