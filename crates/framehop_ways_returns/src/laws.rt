//! Laws of ways. The functions do nothing when the program runs.
ghost use Rattle.std.specs.Prelude.{Bool, List};
ghost use Rattle.framehop_rules.specs.declared.aarch64.unwind_rule.UnwindRuleAarch64.{UnwindRuleAarch64};
ghost use Rattle.framehop_ways_returns.specs.WayReturns.{WayReturns};
ghost use Rattle.framehop_ways.specs.Values.{IsRuleOfWay};
ghost use Rattle.framehop_ways.specs.declared.executed.Executed.{Executed};

/// If the rule of a way gives a caller in a frame, a first or a later one, the caller's stack pointer, frame pointer and
/// return address, under the mask, are those that the machine has once it has executed the way from where the frame is. Of a
/// later frame nothing is known of the link register.
/// Calls, plain instructions and stores of other registers leave the stack pointer, the frame pointer and the words
/// from which the way loads x29 and x30, and do anything else.
pub fn ways_return()
    ensures { (is_first : Bool) (way : List Executed) (rule : UnwindRuleAarch64)
        → IsRuleOfWay way rule → WayReturns is_first way rule }
{}
