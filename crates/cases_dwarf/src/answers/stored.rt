//! Stacks of values.

use arrayvec::ArrayVec;
use dwarf_expressions::{EvaluationStorage, ReservedVec};

/// Room for 64 values, in place.
pub struct Fixed;

impl EvaluationStorage for Fixed {
    type Stack = ArrayVec<u64, 64>;
}

/// Room for 64 values on the heap, taken before.
pub struct Reserved;

impl EvaluationStorage for Reserved {
    type Stack = ReservedVec<u64, 64>;
}
