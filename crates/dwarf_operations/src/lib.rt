//! Expressions (DWARF 5, 2.5): their operations, in the order of their bytes.
#![tactic(auto)]

mod op;

pub use op::{Expression, Operation, OperationIter};
