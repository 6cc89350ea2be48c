//! Where the rows of an FDE go in a table.

/// Where the rows of an FDE go in a table.
#[derive(Debug, Clone, Copy, PartialEq, Eq)]
pub(crate) struct Span {
    // What relative addresses are relative to.
    pub(crate) base_svma: u64,
    // The FDE's offset in its section, in bytes.
    pub(crate) offset: u32,
    // The relative address up to which the FDE covers addresses: where the next one starts.
    pub(crate) limit: u64,
}
