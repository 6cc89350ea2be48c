//! Laws of lookups. They do nothing when the program runs.

ghost use Rattle.std.specs.Prelude.{◌≤◌, ◌^◌, ℕ, List, Result, length};
ghost use Rattle.dwarf_constants.specs.declared.error.Error.{Error};
ghost use Rattle.dwarf_call_frames.specs.Halving.{FindsRowAtOrBelow, TableRow, halving};
ghost use Rattle.dwarf_frame_rows.specs.declared.pointer.Pointer.{Pointer};

/// If starts increase strictly, halving finds the last row whose start is at or below the address,
/// or else the first row, whether the pointers to FDEs can be read or not.
pub fn increasing_starts_are_found()
    ensures { (address : ℕ) (rows : List (ℕ × Result Pointer Error)) → FindsRowAtOrBelow address rows }
{}

/// Of at most 2^k rows, in any order, halving reads at most k starts.
pub fn halving_reads_few()
    ensures { (address k : ℕ) (rows : List TableRow) → length rows ≤ 2 ^ k
        → (halving address rows).reads ≤ k }
{}
