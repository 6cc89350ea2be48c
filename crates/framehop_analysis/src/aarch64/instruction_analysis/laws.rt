//! Laws of the analysis. The functions do nothing when the program runs.
ghost use Rattle.std.specs.Prelude.{ℕ, List, take, drop};
ghost use Rattle.framehop_analysis.specs.Found.{AtMostOne, HasAnswer, HaveOwnWords};
ghost use Rattle.framehop_analysis.specs.EpilogueInstructionsAarch64.{EpilogueFits, epilogue_word};
ghost use Rattle.framehop_analysis.specs.PrologueInstructionsAarch64.{PrologueFits, prologue_word};
ghost use Rattle.framehop_analysis.specs.PrologueAarch64.{IsPrologue, IsPrologueRule};
ghost use Rattle.framehop_analysis.specs.LookBackAarch64.{IsEpilogue, IsEpilogueRule};
ghost use Rattle.framehop_analysis.specs.ReturnsAarch64.{EpilogueReturns, OfEachEpilogue, OfEachPrologue, PrologueReturns};

/// If the rule of an epilogue gives a caller in a first frame, the caller's stack pointer, frame pointer and
/// return address, under the mask, are those that the machine has after it has executed the epilogue from where
/// the frame is, and left the function, after checks of the address or none.
pub fn epilogue_rules_return()
    ensures { OfEachEpilogue EpilogueReturns }
{}

/// If the rule of a prologue gives a caller in a first frame, the caller's stack pointer, frame pointer and
/// return address, under the mask, are those that the machine has after a return from the state before the
/// prologue, whose instructions it executed up to where the frame is.
pub fn prologue_rules_return()
    ensures { OfEachPrologue PrologueReturns }
{}

/// A word spells one instruction of epilogues, and one of prologues, with one value of each field.
pub fn words_spell_one_instruction()
    ensures epilogue { HaveOwnWords EpilogueFits epilogue_word }
    ensures prologue { HaveOwnWords PrologueFits prologue_word }
{}

/// One list of instructions at most is recognised as the epilogue at an offset, and one as the prologue.
pub fn offsets_have_one_list()
    ensures epilogue { (text : List ℕ) (offset : ℕ) → AtMostOne (IsEpilogue text offset) }
    ensures prologue { (before from : List ℕ) → AtMostOne (IsPrologue before from) }
{}

/// Each offset of some bytes has one answer: the rule of the prologue there, or else of the epilogue, or that
/// there is none.
pub fn offsets_have_one_answer()
    ensures { (text : List ℕ) (offset : ℕ)
        → HasAnswer (IsPrologueRule (take offset text) (drop offset text)) (IsEpilogueRule text offset) }
{}
