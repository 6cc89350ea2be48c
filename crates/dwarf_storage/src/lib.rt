//! Lists with a capacity, and lists that grow, for values, rules and rows.
#![tactic(auto)]

mod array_like;
mod storage;

pub use array_like::{ArrayLike, PushError, ReservedVec};
pub use storage::StoreOnHeap;
