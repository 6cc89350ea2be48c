//! Expressions (DWARF 5, 2.5): their operations, and their values. A user of expressions needs this
//! crate alone: it re-exports the operations, and the storages that an evaluation may use.
#![tactic(auto)]

mod evaluation;
mod machine;
mod stack;
mod value;

pub use dwarf_operations::{Expression, Operation, OperationIter};
pub use dwarf_storage::{ArrayLike, PushError, ReservedVec, StoreOnHeap};
pub use evaluation::{Evaluation, EvaluationResult, EvaluationStorage};
pub use value::Value;
