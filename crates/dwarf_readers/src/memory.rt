//! No read fails because memory ran out. The functions do nothing when the program runs.

ghost use Rattle.dwarf_readers.specs.Memory.{AnswersNeverWantMemory, ReadsNeverWantMemory};

/// Numbers, parts and strings.
pub fn reads_never_want_memory()
    ensures { ReadsNeverWantMemory }
{}

/// One answer after another, either of two, and those that are known.
pub fn answers_never_want_memory<X, Y>()
    ensures { AnswersNeverWantMemory X Y }
{}
