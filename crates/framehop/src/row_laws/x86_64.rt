//! Rows of call frames on x86_64.

ghost use Rattle.framehop_registers.specs.Registers.{HasAllRegisters, sp_of};
ghost use Rattle.framehop_rules.specs.RuleMeaning.{rule_meaning};
ghost use Rattle.framehop_rows.specs.RowAnswer.{register_value};
ghost use Rattle.framehop_rows.specs.RowAttemptX86_64.{row_attempt};
ghost use Rattle.framehop.specs.RowCfas.{CfaBecomesSp};

use framehop_rows::x86_64::rule_answers_as_its_row;
use framehop_rules::x86_64::UnwindRegsX86_64;

/// If a row answers a step, by a rule or by itself, RSP of the caller is the row's CFA.
pub fn the_cfa_becomes_sp()
    ensures { (regs : UnwindRegsX86_64) → HasAllRegisters regs
        → CfaBecomesSp rule_meaning row_attempt register_value sp_of regs }
{
    rule_answers_as_its_row();
}
