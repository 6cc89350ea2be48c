//! Laws of lines that are written one after the other, and of calls that write. The functions do nothing when the program runs.

ghost use Rattle.std.specs.Prelude.{◌≡◌, ◌↔◌, ℕ, Bool, false, IsTrue, List, [], Option, Result, IsErr, IsErrOf};
ghost use Rattle.std.specs.Io.KnownBytes.{Appends};
ghost use Rattle.json_program.specs.Errors.{written};
ghost use Rattle.json_program.specs.Stream.{AppendsPrefix, FailedWrite, IsWritten, NextLine, WritesText};
ghost use Rattle.json_program.specs.declared.status.RunError.TheVariants.{Write};

/// Lines are written one after the other: nothing, one more, a prefix of one, and all.
pub fn lines_by_parts()
    ensures none { (old : Option (List ℕ)) (all : List ℕ) → IsWritten old old all all }
    ensures more { (next : NextLine) → Appends next.before next.after next.line
        → IsWritten next.first next.after next.left next.all }
    ensures begun { (next : NextLine) → AppendsPrefix next.before next.after next.line
        → AppendsPrefix next.first next.after next.all }
    ensures prefix { (old new : Option (List ℕ)) (left all : List ℕ)
        → IsWritten old new left all → AppendsPrefix old new all }
    ensures all { (old new : Option (List ℕ)) (all : List ℕ)
        → IsWritten old new [] all → Appends old new all }
{}

/// Calls that write: one that fails before it writes has written a prefix of any text, as one that
/// fails after a prefix has. A sink hasn't failed after a write that succeeded.
pub fn writes_by_result<T, E>()
    ensures nothing { (result : Result T E) (old : Option (List ℕ)) (text : List ℕ)
        → IsErr result → WritesText result old old text }
    ensures begun { (w : FailedWrite T E) → WritesText w.result w.before w.after w.text }
    ensures succeeded { (failed : Bool) → (IsErrOf written Write ↔ IsTrue failed)
        → failed ≡ false }
{}
