//! Steps by compact unwind info.

mod encodings;
mod llvm;
mod lookups;
mod places;
mod refusals;
mod steps;
mod tables;
mod turned;
mod worked;
