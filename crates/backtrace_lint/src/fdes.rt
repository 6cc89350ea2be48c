//! The FDEs of a section's list, as findings see them.

use dwarf_constants::Error;

/// The code of an FDE.
#[derive(Debug, Clone, Copy, PartialEq, Eq)]
pub struct Code {
    /// The first address.
    pub start: u64,
    /// The address after the last, modulo 2^64.
    pub end: u64,
}

/// An FDE of a section's list of entries.
#[derive(Debug, Clone, Copy)]
pub struct ListedFde {
    /// The FDE's offset in the section, in bytes.
    pub offset: u64,
    /// Its code, or why it can't be read.
    pub read: Result<Code, Error>,
}

/// The error that ends a section's list of entries.
#[derive(Debug, Clone, Copy, PartialEq, Eq)]
pub struct Fault {
    /// The offset in the section of what can't be read, in bytes.
    pub offset: u64,
    /// The error.
    pub error: Error,
}
