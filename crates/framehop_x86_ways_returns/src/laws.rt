//! Laws of ways. The functions do nothing when the program runs.
ghost use Rattle.std.specs.Prelude.{Bool, List};
ghost use Rattle.framehop_rules.specs.declared.x86_64.unwind_rule.UnwindRuleX86_64.{UnwindRuleX86_64};
ghost use Rattle.framehop_x86_ways.specs.WayRules.{IsRuleOfWay};
ghost use Rattle.framehop_x86_ways.specs.declared.executed.Executed.{Executed};
ghost use Rattle.framehop_x86_ways_returns.specs.WayReturns.{WayReturns};

/// If the rule of a way gives a caller in a frame, a first or a later one, the caller's RSP, RBP and return address are those that the
/// machine has once it has executed the way from where the frame is, and returned. Calls, plain instructions and stores of other
/// registers leave RSP and RBP, and the words from which the way loads RSP, RBP and the return address, and do anything else.
pub fn ways_return()
    ensures { (is_first : Bool) (way : List Executed) (rule : UnwindRuleX86_64)
        → IsRuleOfWay way rule → WayReturns is_first way rule }
{}
