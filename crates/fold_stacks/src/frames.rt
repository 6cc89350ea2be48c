//! The frames of user code.

use sample_stacks::CodePlace;

/// A frame of user code.
#[derive(Clone, Copy, Debug, PartialEq, Eq)]
pub struct UserFrame {
    /// Its address: of the first frame the instruction pointer, and of the others where they go on.
    pub address: u64,
    /// The address that its function is looked up by, which is inside the call.
    pub lookup: u64,
    /// Where that is in a file, if it is known.
    pub place: Option<CodePlace>,
}
