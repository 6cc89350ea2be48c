//! A law of what tables say. The function does nothing when the program runs.

ghost use Rattle.framehop_tables.specs.IndexAttempts.{AttemptsByIndex};

use framehop_rows::RowRules;

/// The attempt at a step by what a table says of an address is that by the section's index: in a first and in a later frame, within any
/// limits of rows and of an expression's values, for all bytes of the section, all bases and all addresses.
pub fn tables_attempt_as_indexes<A: RowRules>()
    ensures { AttemptsByIndex A.rows A.rule_of }
{}
