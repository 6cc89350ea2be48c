//! Laws of the expressions that instructions name.

ghost use Rattle.dwarf_readers.specs.Stretch.{Stretch};
ghost use Rattle.dwarf_frame_instructions.specs.ExpressionBytes.{PieceReadsItsBytes};
ghost use Rattle.dwarf_frame_instructions.specs.Instructions.{Conventions};

/// The offset and length of an instruction's expression are those of exactly its bytes, which follow
/// its length (DWARF 5, 7.5.5). The function does nothing when the program runs.
pub fn expressions_have_their_bytes()
    ensures { (conventions : Conventions) (section s : Stretch)
        → PieceReadsItsBytes conventions section s }
{}
