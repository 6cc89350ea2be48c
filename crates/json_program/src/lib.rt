//! What a program needs that reads one JSON document and writes lines, or the document's first fault: streams, the fields
//! of JSON values, faults, and how a run ends.
#![tactic(auto)]

pub mod address;
pub mod check;
pub mod decoding;
mod fault;
pub mod field;
pub mod float;
pub mod json;
mod program;
mod status;
mod stream;
mod transfer;
pub mod writing;

pub use fault::{DecodeError, Fault, FaultName};
pub use program::Program;
pub use status::{Outcome, RunError};
pub use stream::{Sink, Source, StreamError, Streamed};
pub use transfer::{DOCUMENT_LIMIT, read_document, write_all};
