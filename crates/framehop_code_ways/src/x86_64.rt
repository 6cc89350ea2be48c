//! Ways on x86_64.
ghost use Rattle.std.specs.Prelude.{◌≡◌};
ghost use Rattle.framehop_code_ways.specs.FirstRules.{ends_by_branch, first_rule, is_unknown_end};
ghost use Rattle.framehop_code_ways.specs.Ways.{IsLedTo};

use crate::way::{BranchesOut, WayUnwinding};
use framehop_rules::x86_64::{ArchX86_64, UnwindRuleX86_64};
use framehop_x86_instructions::Effect;
use framehop_x86_ways::{Bounds, Executed, first_way, way_rule};
use framehop_x86_ways_returns::ways_return;

// Whether the last instruction of a way is a jump to an address that its code says.
fn ends_by_branch(way: &[Executed]) -> bool
    ensures { result ≡ ends_by_branch way.now }
{
    match way.last() {
        Some(last) => match last.instruction.effect {
            Effect::Jump { .. } => true,
            _ => false,
        },
        None => false,
    }
}

// Whether it isn't known that a way leaves the function.
fn is_unknown_end(branches_out: BranchesOut, way: &[Executed]) -> bool
    ensures { result ≡ is_unknown_end branches_out way.now }
{
    match branches_out {
        BranchesOut::TailCalls => false,
        BranchesOut::Unknown => ends_by_branch(way),
    }
}

impl WayUnwinding for ArchX86_64 {
    ghost first_rule = { first_rule };

    ghost leads = { IsLedTo };

    fn first_way_rule(
        branches_out: BranchesOut,
        text: &[u8],
        bounds: Bounds,
        at: usize,
        is_first_frame: bool,
    ) -> Option<UnwindRuleX86_64> {
        ways_return();
        let way = first_way(text, bounds, at)?;
        if is_unknown_end(branches_out, way.as_slice()) {
            return None;
        }
        way_rule(way.as_slice())
    }
}
