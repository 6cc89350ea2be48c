//! Rows of call frames on aarch64.

ghost use Rattle.framehop_registers.specs.RegistersAarch64.{sp_of};
ghost use Rattle.framehop_rules.specs.RuleMeaningAarch64.{rule_meaning};
ghost use Rattle.framehop_rows.specs.RowAnswerAarch64.{register_value};
ghost use Rattle.framehop_rows.specs.RowAttemptAarch64.{row_attempt};
ghost use Rattle.framehop.specs.RowCfas.{CfaBecomesSp};

use framehop_rows::aarch64::rule_answers_as_its_row;
use framehop_rules::aarch64::UnwindRegsAarch64;

/// If a row answers a step, by a rule or by itself, SP of the caller is the row's CFA.
pub fn the_cfa_becomes_sp()
    ensures { (regs : UnwindRegsAarch64)
        → CfaBecomesSp rule_meaning row_attempt register_value sp_of regs }
{
    rule_answers_as_its_row();
}
