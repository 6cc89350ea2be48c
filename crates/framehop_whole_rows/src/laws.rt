//! Laws of whole rows. The functions do nothing when the program runs.

ghost use Rattle.framehop_whole_rows.specs.Laws.{RulesAnswerAsWholeRows};

use framehop_rows::x86_64::rule_answers_as_its_row;

/// On x86_64, if an unwind rule says a row exactly and gives a caller, the whole row gives one, with the same return address and
/// stack pointer, and with the same RBP if it is known: for all registers and all stacks.
pub fn rules_answer_as_whole_rows()
    ensures { RulesAnswerAsWholeRows }
{
    rule_answers_as_its_row();
}
