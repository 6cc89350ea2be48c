//! The rules that steps by whole rows keep.

ghost use Rattle.framehop_whole_steps.specs.Rules.{is_valid_by, meaning_by, reads_by};
ghost use Rattle.framehop_whole_steps.specs.declared.rule.WholeRule.TheVariants.{Plain as plain};

use crate::registers::WholeRegs;
use framehop_registers::Error;
use framehop_rules::UnwindRule;
use std::fmt::Debug;

/// A rule of an architecture, or that the walk ends, which a row may say too (DWARF 5, 6.4.4).
#[derive(Debug, Clone, Copy, PartialEq, Eq)]
pub enum WholeRule<R> {
    /// The walk ends here.
    Ends,
    /// A rule of the architecture. No other register of the caller is known then.
    Plain(R),
}

impl<R: UnwindRule> UnwindRule for WholeRule<R> {
    type UnwindRegs = WholeRegs<R::UnwindRegs>;

    ghost is_valid = { is_valid_by R.is_valid };

    ghost meaning = { meaning_by R.meaning };

    ghost reads = { reads_by R.reads };

    ghost stub_rule = { plain R.stub_rule };

    ghost start_rule = { plain R.start_rule };

    ghost fallback = { plain R.fallback };

    fn is_valid(self) -> bool {
        match self {
            WholeRule::Ends => true,
            WholeRule::Plain(rule) => rule.is_valid(),
        }
    }

    #[inline(always)]
    fn exec<F: FnMut(u64) -> Result<u64, ()>>(
        self,
        is_first_frame: bool,
        regs: &mut WholeRegs<R::UnwindRegs>,
        read_stack: &mut F,
    ) -> Result<Option<u64>, Error> {
        match self {
            WholeRule::Ends => Ok(None),
            WholeRule::Plain(rule) => match rule.exec(is_first_frame, &mut regs.regs, read_stack) {
                Ok(Some(return_address)) => {
                    regs.others = None;
                    Ok(Some(return_address))
                }
                Ok(None) => Ok(None),
                Err(error) => Err(error),
            },
        }
    }

    fn rule_for_stub_functions() -> Self {
        WholeRule::Plain(R::rule_for_stub_functions())
    }

    fn rule_for_function_start() -> Self {
        WholeRule::Plain(R::rule_for_function_start())
    }

    fn fallback_rule() -> Self {
        WholeRule::Plain(R::fallback_rule())
    }
}
