//! Numbers and bytes at offsets.

ghost use Rattle.std.specs.Prelude.{◌≡◌, ◌≤◌, ◌<◌, ◌+◌, ◌*◌, ◌^◌, length, drop, IfOk, IfErr, Ok, Err};
ghost use Rattle.elf_files.specs.Bytes.{number_at, is_within, bytes_at};

use crate::error::ElfError;
use dwarf_endianity::{Endianity, LittleEndian};

// The number in two bytes (Elf64_Half).
#[tactic(auto, unfolding(crate::specs::Bytes::number_at))]
pub(crate) fn u16_at(bytes: &[u8], offset: usize) -> u16
    requires { offset + 2 ≤ length bytes.now }
    ensures { result ≡ number_at 2 bytes.now offset }
{
    LittleEndian.read_u16(&bytes[offset..])
}

// The number in four bytes (Elf64_Word).
#[tactic(auto, unfolding(crate::specs::Bytes::number_at))]
pub(crate) fn u32_at(bytes: &[u8], offset: usize) -> u32
    requires { offset + 4 ≤ length bytes.now }
    ensures { result ≡ number_at 4 bytes.now offset }
{
    LittleEndian.read_u32(&bytes[offset..])
}

// The number in eight bytes (Elf64_Xword, Elf64_Addr, Elf64_Off).
#[tactic(auto, unfolding(crate::specs::Bytes::number_at))]
pub(crate) fn u64_at(bytes: &[u8], offset: usize) -> u64
    requires { offset + 8 ≤ length bytes.now }
    ensures { result ≡ number_at 8 bytes.now offset }
{
    LittleEndian.read_u64(&bytes[offset..])
}

// Whether so many bytes from an offset on are in the file.
pub(crate) fn is_within(bytes: &[u8], offset: u64, size: u64) -> bool
    ensures { result ≡ is_within bytes.now offset size }
{
    match offset.checked_add(size) {
        Some(end) => end <= bytes.len() as u64,
        None => false,
    }
}

// Whether a table of so many entries is.
pub(crate) fn has_table(bytes: &[u8], offset: u64, count: u64, entry_size: u64) -> bool
    ensures { result ≡ is_within bytes.now offset (entry_size * count) }
{
    match entry_size.checked_mul(count) {
        Some(size) => is_within(bytes, offset, size),
        None => false,
    }
}

// The bytes after the first ones.
pub(crate) fn bytes_after(bytes: &[u8], size: usize) -> &[u8]
    requires { size ≤ length bytes.now }
    ensures { result.now ≡ drop size bytes.now }
{
    &bytes[size..]
}

// So many bytes from an offset on.
pub(crate) fn bytes_at(bytes: &[u8], offset: u64, size: u64) -> Result<&[u8], ElfError>
    ensures ok { IfOk result (λ found. bytes_at bytes.now offset size ≡ Ok found.now) }
    ensures err { IfErr result (λ e. bytes_at bytes.now offset size ≡ Err e) }
    ensures within { IfOk result (λ found. offset + length found.now ≤ length bytes.now) }
{
    if !is_within(bytes, offset, size) {
        return Err(ElfError::Truncated { offset });
    }
    let from = &bytes[offset as usize..];
    Ok(&from[..size as usize])
}
