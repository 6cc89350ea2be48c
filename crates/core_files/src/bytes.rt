//! Numbers in bytes, lowest byte first.

ghost use Rattle.std.specs.Prelude.{◌≡◌, ◌≤◌, ◌+◌, length, take, drop};
ghost use Rattle.core_files.specs.Bytes.{u16_at, u32_at, u64_at};

use dwarf_endianity::{Endianity, LittleEndian};

// The number of 16 bits at an offset.
#[tactic(auto, unfolding(elf_files::specs::Bytes::number_at))]
pub(crate) fn u16_at(bytes: &[u8], at: usize) -> u16
    requires { at + 2 ≤ length bytes.now }
    ensures { result ≡ u16_at bytes.now at }
{
    LittleEndian.read_u16(&bytes[at..])
}

// The number of 32 bits at an offset.
#[tactic(auto, unfolding(elf_files::specs::Bytes::number_at))]
pub(crate) fn u32_at(bytes: &[u8], at: usize) -> u32
    requires { at + 4 ≤ length bytes.now }
    ensures { result ≡ u32_at bytes.now at }
{
    LittleEndian.read_u32(&bytes[at..])
}

// The number of 64 bits at an offset.
#[tactic(auto, unfolding(elf_files::specs::Bytes::number_at))]
pub(crate) fn u64_at(bytes: &[u8], at: usize) -> u64
    requires { at + 8 ≤ length bytes.now }
    ensures { result ≡ u64_at bytes.now at }
{
    LittleEndian.read_u64(&bytes[at..])
}

// The first bytes.
pub(crate) fn first_bytes(bytes: &[u8], size: usize) -> &[u8]
    requires { size ≤ length bytes.now }
    ensures { result.now ≡ take size bytes.now }
{
    &bytes[..size]
}

// The bytes after the first ones.
pub(crate) fn bytes_after(bytes: &[u8], size: usize) -> &[u8]
    requires { size ≤ length bytes.now }
    ensures { result.now ≡ drop size bytes.now }
{
    &bytes[size..]
}
