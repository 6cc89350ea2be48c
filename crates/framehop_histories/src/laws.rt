//! Laws of the states that commands are answered from. The functions do nothing when the program runs.

ghost use Rattle.framehop_histories.specs.Alike.{AreAlike, HaveSameReplies, StayAlike};
ghost use Rattle.framehop_histories.specs.Commands.{CommandState};

use framehop_unwinder::ModuleUnwinding;

/// What a command is answered depends on the modules of the unwinders, the number of caches, the
/// counter's next number and the walks alone: on no generation, and on nothing that a cache keeps.
pub fn alike_states_reply_alike<A: ModuleUnwinding>()
    ensures { (one other : CommandState A.UnwindData A.UnwindRegs) → AreAlike one other
        → HaveSameReplies A.meanings one other }
{}

/// Two states that are alike so are alike after the same command with the same reply.
pub fn alike_states_stay_alike<A: ModuleUnwinding>()
    ensures { (one other : CommandState A.UnwindData A.UnwindRegs) → AreAlike one other
        → StayAlike A.meanings one other }
{}
