//! The arguments of the program `fold`: a recording, where its files are, which of its samples are folded, and how.
#![tactic(auto)]

mod error;
mod numbers;
mod option_names;
mod options;
mod request;

pub use error::ArgumentError;
pub use option_names::ValuedOption;
pub use options::{FoldOptions, Selection, Weights};
pub use request::{FoldRequest, Request, USAGE, request_of};
