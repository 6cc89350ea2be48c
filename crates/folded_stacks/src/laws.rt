//! What lines say of the samples that were counted.

ghost use Rattle.folded_stacks.specs.CountLaws.{CountsAreSums, LinesAreInOrder, TextsAreCounted};

/// Each stack counts what its samples do. It does nothing when the program runs.
pub fn counts_are_sums()
    ensures { CountsAreSums }
{}

/// Lines are in the order of their stacks, each of which has one. It does nothing when the program runs.
pub fn lines_are_in_order()
    ensures { LinesAreInOrder }
{}

/// Samples that are counted by the numbers of their names, and then by their texts, are counted as their texts are. It does nothing when
/// the program runs.
pub fn texts_are_counted()
    ensures { TextsAreCounted }
{}
