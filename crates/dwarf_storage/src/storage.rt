//! Storages of evaluations and of contexts.

/// A storage on the heap. How much it holds for an evaluation or a context is said by the trait of
/// their storages.
#[derive(Debug, Clone, Copy)]
pub struct StoreOnHeap;
