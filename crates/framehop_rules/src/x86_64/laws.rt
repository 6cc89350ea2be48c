//! Laws of the rules' meaning. The functions do nothing when the program runs.

ghost use Rattle.std.specs.Prelude.{◌≤◌, ◌<◌, ◌^◌};
ghost use Rattle.framehop_registers.specs.Registers.{HasAllRegisters, sp_of};
ghost use Rattle.framehop_rules.specs.RuleMeaning.{IsAtReturn};
ghost use Rattle.framehop_rules.specs.Callers.{OfEachCaller, OfEachCallerAfterCall, AfterEachCall, LeavesSp, IsRefusedAs};

use framehop_registers::Error;

/// No step by a rule lowers the stack pointer. The registers that it leaves are those after a call,
/// and from such registers each step raises the stack pointer: so a walk of such steps ends.
pub fn rules_raise_sp()
    ensures not_lower { OfEachCaller (λ registers words caller.
        sp_of registers ≤ sp_of caller.registers) }
    ensures fits { OfEachCaller (λ registers words caller. sp_of caller.registers < 2 ^ 64) }
    ensures all_there { OfEachCaller (λ registers words caller. HasAllRegisters caller.registers) }
    ensures at_return { OfEachCaller (λ registers words caller. IsAtReturn caller.registers words) }
    ensures higher { OfEachCallerAfterCall (λ registers words caller.
        sp_of registers < sp_of caller.registers) }
{}

/// After a call a rule that would leave the stack pointer as it is gives no address.
pub fn rules_that_stay_are_refused()
    ensures { AfterEachCall LeavesSp (IsRefusedAs Error.DidNotAdvance) }
{}
