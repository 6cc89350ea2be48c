//! Where bytes of a recording are.

ghost use Rattle.std.specs.Prelude.{◌≡◌, ◌≤◌, ◌+◌, length};
ghost use Rattle.perf_files.specs.Sections.{section_at};

use crate::bytes::u64_at;

/// Bytes of a recording.
#[derive(Debug, Clone, Copy, PartialEq, Eq)]
pub struct Section {
    /// Where they begin, in bytes.
    pub offset: u64,
    /// How many there are.
    pub size: u64,
}

// Two numbers: where bytes begin, and how many there are.
pub(crate) fn section_at(bytes: &[u8], at: usize) -> Section
    requires { at + 16 ≤ length bytes.now }
    ensures { result ≡ section_at bytes.now at }
{
    Section {
        offset: u64_at(bytes, at),
        size: u64_at(bytes, at + 8),
    }
}
