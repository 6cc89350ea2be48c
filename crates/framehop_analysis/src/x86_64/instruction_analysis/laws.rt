//! Laws of the analysis. The functions do nothing when the program runs.
ghost use Rattle.std.specs.List.{AllByRecursion};
ghost use Rattle.std.specs.Prelude.{ℕ, List};
ghost use Rattle.framehop_analysis.specs.Epilogue.{IsEpilogueRule};
ghost use Rattle.framehop_analysis.specs.Found.{HasAnswer};
ghost use Rattle.framehop_analysis.specs.Prologue.{IsPrologueRule};
ghost use Rattle.framehop_analysis.specs.Returns.{EpilogueReturns, IsReadAsExecuted, OfEachEpilogue, OfEachPrologue, PrologueReturns};

/// If the rule of an epilogue gives a caller in a first frame, the caller's stack pointer, frame pointer and
/// return address are those that the machine has after it has executed the epilogue from where the frame is.
/// The epilogue has neither `pop rsp` nor `pop rbp` with the prefix 40.
pub fn epilogue_rules_return()
    ensures { OfEachEpilogue (λ list rule. AllByRecursion IsReadAsExecuted list
        → EpilogueReturns list rule) }
{}

/// If the rule of a prologue gives a caller in a first frame, the caller's stack pointer, frame pointer and
/// return address are those that the machine has after a return from the state before the prologue, whose
/// instructions it executed up to where the frame is without moving the stack pointer past 0.
pub fn prologue_rules_return()
    ensures { OfEachPrologue PrologueReturns }
{}

/// Each offset of some bytes has one answer: the rule of the prologue there, or else of the epilogue, or that
/// there is none.
pub fn offsets_have_one_answer()
    ensures { (text : List ℕ) (offset : ℕ)
        → HasAnswer (IsPrologueRule text offset) (IsEpilogueRule text offset) }
{}
