//! A law of the rules' meaning. The function does nothing when the program runs.

ghost use Rattle.std.specs.Prelude.{◌<◌, ◌^◌};
ghost use Rattle.framehop_registers.specs.RegistersAarch64.{sp_of};
ghost use Rattle.framehop_rules.specs.CallersAarch64.{OfEachLaterCaller};

/// Each step by a rule from a later frame raises the stack pointer, which fits 64 bits: so a walk
/// ends.
pub fn later_frames_raise_sp()
    ensures higher { OfEachLaterCaller (λ registers caller.
        sp_of registers < sp_of caller.registers) }
    ensures fits { OfEachLaterCaller (λ registers caller. sp_of caller.registers < 2 ^ 64) }
{}
