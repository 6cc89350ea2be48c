//! What a whole recording says.

ghost use Rattle.fold_stacks.specs.Recordings.{SamplesAreCounted};

/// After the records of a recording the counts are those of its samples, and the records alone say what these count for. It does nothing
/// when the program runs.
pub fn samples_are_counted()
    ensures { SamplesAreCounted }
{}
