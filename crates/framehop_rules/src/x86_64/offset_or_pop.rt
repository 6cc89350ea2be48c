//! The unwind rule for a sequence of stack operations.

ghost use Rattle.std.specs.Prelude.{◌≡◌, ◌++◌, List, None, IsSome};
ghost use Rattle.std.specs.Iterator.{IsFinite, DrainsIf};
ghost use Rattle.framehop_rules.specs.RuleMeaning.{IsValid};
ghost use Rattle.framehop_rules.specs.Sequences.{IsRuleOf, IsRuleOfItems, MeansSequence, HasNoRule};
ghost use Rattle.framehop_rules.specs.declared.x86_64.offset_or_pop.OffsetOrPop.{OffsetOrPop};
ghost use Rattle.framehop_rules.specs.declared.x86_64.unwind_rule.UnwindRuleX86_64.{UnwindRuleX86_64};

use crate::x86_64::sequence::OffsetThenPops;
use crate::x86_64::unwind_rule::UnwindRuleX86_64;
use framehop_registers::x86_64::Reg;

/// An operation of a function's end, or the reverse of one of its start.
#[derive(Clone, Copy, Debug, PartialEq, Eq)]
pub enum OffsetOrPop {
    /// Any other operation, for which there is no rule.
    None,
    /// The stack pointer goes up by n words of 8 bytes.
    OffsetBy8(u16),
    /// A register takes the word at the stack pointer, which goes up by 8.
    Pop(Reg),
}

impl UnwindRuleX86_64 {
    /// The rule for these operations and a return after them, if there is one: an offset, which
    /// may be missing, and then pops of callee-saved registers, each at most once. Where there is
    /// none, the iterator may have been read in part.
    pub fn for_sequence_of_offset_or_pop<I, T>(iter: I) -> Option<Self>
    where
        I: Iterator<Item = T> + Drop,
        T: Into<OffsetOrPop>,
        requires can { I.can_next iter }
        requires ends { IsFinite (I.remaining iter) }
        ensures { IsRuleOfItems (DrainsIf I.next_gives (IsSome result) iter) T.converts result }
    {
        let mut taken = OffsetThenPops::new();
        for item in iter {
            taken.push(item.into())?;
        }
        taken.rule()
    }
}

/// Laws of sequences: a rule means what its sequence does, register by register, and no sequence
/// has a rule that begins with one that has none. It does nothing when the program runs.
pub fn rules_of_sequences()
    ensures valid { (list : List OffsetOrPop) (rule : UnwindRuleX86_64)
        → IsRuleOf list rule → IsValid rule }
    ensures meaning { (list : List OffsetOrPop) (rule : UnwindRuleX86_64)
        → IsRuleOf list rule → MeansSequence rule list }
    ensures one { (list : List OffsetOrPop) (rule other : UnwindRuleX86_64)
        → IsRuleOf list rule → IsRuleOf list other → rule ≡ other }
    ensures none { (list more : List OffsetOrPop) → HasNoRule list → HasNoRule (list ++ more) }
{}
