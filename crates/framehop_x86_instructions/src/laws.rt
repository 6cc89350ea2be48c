//! Laws of instructions. The functions do nothing when the program runs.
ghost use Rattle.std.specs.Prelude.{ℕ, List};
ghost use Rattle.framehop_x86_instructions.specs.Beginnings.{IsToldByItsBytes};
ghost use Rattle.framehop_x86_instructions.specs.declared.instruction.Instruction.{Instruction};

/// What stands behind an instruction doesn't matter: code that begins with its bytes begins with it.
pub fn told_by_its_bytes()
    ensures { (code more : List ℕ) (instruction : Instruction) → IsToldByItsBytes code more instruction }
{}
