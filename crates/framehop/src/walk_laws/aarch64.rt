//! Steps and walks on aarch64, if modules are unwound by their sections.

ghost use Rattle.std.specs.Prelude.{List};
ghost use Rattle.framehop_registers.specs.RegistersAarch64.{sp_of};
ghost use Rattle.framehop_unwinder.specs.Modules.{Loaded};
ghost use Rattle.framehop_loads.specs.StepLimits.{StepLimits};
ghost use Rattle.framehop_loads.specs.UnwindData.{UnwindData};
ghost use Rattle.framehop.specs.WalkLengths.{LaterStepsRaise, WalksEnd};
ghost use Rattle.framehop.specs.StepMeanings.{steps_aarch64};

use framehop_rules::aarch64::later_frames_raise_sp;

/// Each step of a later frame that gives a caller raises the stack pointer, by a rule or by a row itself.
pub fn later_steps_raise_sp()
    ensures { (limits : StepLimits) (modules : List (Loaded UnwindData))
        → LaterStepsRaise (steps_aarch64 limits modules) sp_of }
{
    later_frames_raise_sp();
}

/// A walk has at most 2^64 + 1 frames.
pub fn walks_end()
    ensures { (limits : StepLimits) (modules : List (Loaded UnwindData))
        → WalksEnd (steps_aarch64 limits modules) }
{
    later_steps_raise_sp();
}
