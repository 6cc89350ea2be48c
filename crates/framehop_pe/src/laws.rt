//! Laws of the rules for what is undone. The functions do nothing when the program runs.

ghost use Rattle.std.specs.Prelude.{List};
ghost use Rattle.framehop_rules.specs.Sequences.{IsRuleFor, IsRuleOf};
ghost use Rattle.framehop_rules.specs.declared.x86_64.offset_or_pop.OffsetOrPop.{OffsetOrPop};
ghost use Rattle.framehop_rules.specs.declared.x86_64.unwind_rule.UnwindRuleX86_64.{UnwindRuleX86_64};
ghost use Rattle.framehop_pe.specs.PartRules.{rule_of_parts};
ghost use Rattle.framehop_pe.specs.PeSteps.{LeadsAsOneByOne};
ghost use Rattle.framehop_pe.specs.Prologs.{LeadsBackFrom};
ghost use Rattle.framehop_pe.specs.ToUndo.{ToUndo, parts_of};

use framehop_rules::x86_64::rules_of_sequences;

/// The rule that is computed of a sequence is the sequence's, and none is computed if it has none.
pub fn rules_of_parts()
    ensures { (operations : List OffsetOrPop) → IsRuleFor operations (rule_of_parts operations) }
{}

/// If the rule of what is undone gives a caller, its return address and its sixteen registers are those to which the
/// machine leads that undoes the codes, or runs the epilog, one by one.
pub fn rules_undo_one_by_one()
    ensures { (undo : ToUndo) (rule : UnwindRuleX86_64)
        → IsRuleOf (parts_of undo) rule → LeadsAsOneByOne rule undo }
{
    rules_of_sequences();
}

/// If the reverse of a rule's sequence led from a state before to the present one, and the rule gives a caller by
/// words that are part of the present memory, its return address and its sixteen registers are those after a return from
/// the state before.
pub fn rules_undo_prologs()
    ensures { (operations : List OffsetOrPop) (rule : UnwindRuleX86_64)
        → IsRuleOf operations rule → LeadsBackFrom operations rule }
{
    rules_of_sequences();
}
