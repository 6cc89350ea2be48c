//! Laws of code. The functions do nothing when the program runs.
ghost use Rattle.std.specs.Prelude.{ℕ};
ghost use Rattle.framehop_code.specs.Places.{CodeBytes, HaveOnePart};
ghost use Rattle.framehop_code.specs.declared.range.CodeRange.{CodeRange};

/// Two pieces of code that have the same bytes within a range have one part within it, if that has any byte. What is
/// outside of the range, and where the code begins and ends, doesn't matter.
pub fn parts_are_same()
    ensures { (range : CodeRange) (one other : CodeBytes) (address : ℕ) → HaveOnePart range one other address }
{}
