//! Numbers in bytes, lowest byte first.

ghost use Rattle.std.specs.Prelude.{◌≡◌, ◌≤◌, ◌+◌, length};
ghost use Rattle.perf_files.specs.Bytes.{number_at};

use dwarf_endianity::{Endianity, LittleEndian};

// The number of 16 bits at an offset.
#[tactic(auto, unfolding(crate::specs::Bytes::number_at))]
pub(crate) fn u16_at(bytes: &[u8], at: usize) -> u16
    requires { at + 2 ≤ length bytes.now }
    ensures { result ≡ number_at 2 bytes.now at }
{
    LittleEndian.read_u16(&bytes[at..])
}

// The number of 32 bits at an offset.
#[tactic(auto, unfolding(crate::specs::Bytes::number_at))]
pub(crate) fn u32_at(bytes: &[u8], at: usize) -> u32
    requires { at + 4 ≤ length bytes.now }
    ensures { result ≡ number_at 4 bytes.now at }
{
    LittleEndian.read_u32(&bytes[at..])
}

// The number of 64 bits at an offset.
#[tactic(auto, unfolding(crate::specs::Bytes::number_at))]
pub(crate) fn u64_at(bytes: &[u8], at: usize) -> u64
    requires { at + 8 ≤ length bytes.now }
    ensures { result ≡ number_at 8 bytes.now at }
{
    LittleEndian.read_u64(&bytes[at..])
}
