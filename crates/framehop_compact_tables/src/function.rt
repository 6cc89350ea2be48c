//! A function of the tables.

/// A function: its addresses, which are relative to the module's base, and its encoding, which says how to unwind it.
#[derive(Clone, Copy, Debug, PartialEq, Eq)]
pub struct Function {
    /// Where it starts.
    pub start_address: u32,
    /// Where the next one starts.
    pub end_address: u32,
    /// The encoding (`compact_unwind_encoding_t`).
    pub opcode: u32,
}
