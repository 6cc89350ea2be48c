//! Ways on aarch64.
ghost use Rattle.std.specs.Prelude.{◌≡◌};
ghost use Rattle.framehop_code_ways.specs.FirstRulesAarch64.{ends_by_branch, first_rule, if_known, is_unknown_end, keeps_lr};
ghost use Rattle.framehop_code_ways.specs.WaysAarch64.{IsLedTo};

use crate::way::{BranchesOut, WayUnwinding};
use framehop_rules::aarch64::{ArchAarch64, UnwindRuleAarch64};
use framehop_ways::{Bounds, Executed, Instruction, first_way, way_rule};
use framehop_ways_returns::ways_return;

// Whether the last instruction of a way is a branch to an address that its code says.
fn ends_by_branch(way: &[Executed]) -> bool
    ensures { result ≡ ends_by_branch way.now }
{
    match way.last() {
        Some(last) => match last.instruction {
            Instruction::Branch { .. } => true,
            _ => false,
        },
        None => false,
    }
}

// Whether it isn't known that a way leaves the function.
fn is_unknown_end(branches_out: BranchesOut, way: &[Executed]) -> bool
    ensures { result ≡ is_unknown_end branches_out way.now }
{
    match branches_out {
        BranchesOut::TailCalls => false,
        BranchesOut::Unknown => ends_by_branch(way),
    }
}

// Whether the rule of a way leaves the return address in the link register.
fn keeps_lr(rule: UnwindRuleAarch64) -> bool
    ensures { result ≡ keeps_lr rule }
{
    match rule {
        UnwindRuleAarch64::NoOp | UnwindRuleAarch64::OffsetSp { .. } => true,
        _ => false,
    }
}

// The rule in first frames; and in later ones if it loads the link register.
fn if_known(is_first_frame: bool, rule: UnwindRuleAarch64) -> Option<UnwindRuleAarch64>
    ensures { result ≡ if_known is_first_frame rule }
{
    if !is_first_frame && keeps_lr(rule) {
        None
    } else {
        Some(rule)
    }
}

impl WayUnwinding for ArchAarch64 {
    ghost first_rule = { first_rule };

    ghost leads = { IsLedTo };

    fn first_way_rule(
        branches_out: BranchesOut,
        text: &[u8],
        bounds: Bounds,
        at: usize,
        is_first_frame: bool,
    ) -> Option<UnwindRuleAarch64> {
        ways_return();
        let way = first_way(text, bounds, at)?;
        if is_unknown_end(branches_out, way.as_slice()) {
            return None;
        }
        let rule = way_rule(way.as_slice())?;
        if_known(is_first_frame, rule)
    }
}
