//! Numbers and bytes at offsets.

ghost use Rattle.std.specs.Prelude.{◌≡◌, ◌≤◌, ◌+◌, length, drop};
ghost use Rattle.std.specs.Option.{option_copied};
ghost use Rattle.elf_files.specs.Bytes.{number_at};
ghost use Rattle.elf_segments.specs.Bytes.{first_bytes};

use dwarf_endianity::{Endianity, LittleEndian};

// The number in two bytes (Elf64_Half).
#[tactic(auto, unfolding(elf_files::specs::Bytes::number_at))]
pub(crate) fn u16_at(bytes: &[u8], offset: usize) -> u16
    requires { offset + 2 ≤ length bytes.now }
    ensures { result ≡ number_at 2 bytes.now offset }
{
    LittleEndian.read_u16(&bytes[offset..])
}

// The number in four bytes (Elf64_Word).
#[tactic(auto, unfolding(elf_files::specs::Bytes::number_at))]
pub(crate) fn u32_at(bytes: &[u8], offset: usize) -> u32
    requires { offset + 4 ≤ length bytes.now }
    ensures { result ≡ number_at 4 bytes.now offset }
{
    LittleEndian.read_u32(&bytes[offset..])
}

// The number in eight bytes (Elf64_Xword, Elf64_Addr).
#[tactic(auto, unfolding(elf_files::specs::Bytes::number_at))]
pub(crate) fn u64_at(bytes: &[u8], offset: usize) -> u64
    requires { offset + 8 ≤ length bytes.now }
    ensures { result ≡ number_at 8 bytes.now offset }
{
    LittleEndian.read_u64(&bytes[offset..])
}

// The bytes after the first ones, none past the end.
pub(crate) fn bytes_after(bytes: &[u8], size: u64) -> &[u8]
    ensures { result.now ≡ drop size bytes.now }
{
    &bytes[size.min(bytes.len() as u64) as usize..]
}

// The first bytes, if there are so many.
pub(crate) fn first_bytes(bytes: &[u8], size: u64) -> Option<&[u8]>
    ensures { option_copied result ≡ first_bytes size bytes.now }
{
    if size <= bytes.len() as u64 {
        Some(&bytes[..size as usize])
    } else {
        None
    }
}
