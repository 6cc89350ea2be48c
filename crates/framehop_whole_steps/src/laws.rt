//! Laws of steps by whole rows. The functions do nothing when the program runs.

ghost use Rattle.framehop_whole_steps.specs.Laws.{KnowsCallersAarch64, KnowsCallersX86_64};

/// After a step by a row exactly those registers of the caller's frame are known that the row gave, with the values that it gave.
pub fn rows_leave_what_they_give()
    ensures x86_64 { KnowsCallersX86_64 }
    ensures aarch64 { KnowsCallersAarch64 }
{}
