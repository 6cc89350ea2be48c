//! String tables.

ghost use Rattle.std.specs.Prelude.{◌≡◌, ◌==◌, ◌<◌, ◌+◌, ◌^◌, length, drop, position, Ok, Err, IfOk, IfErr};

use crate::bytes::bytes_after;
use crate::error::ElfError;

/// The bytes of a string table, and the offset of the first in the file.
#[derive(Debug, Clone, Copy)]
pub(crate) struct StringTable<'a> {
    pub(crate) bytes: &'a [u8],
    pub(crate) offset: u64,
    ghost fits: { offset + length bytes.now < 2 ^ 63 },
}

// Where the first 0 of some bytes is.
fn first_zero(bytes: &[u8]) -> Option<usize>
    ensures { result ≡ position (λ byte. byte == 0) bytes.now }
{
    bytes.iter().position(|byte| *byte == 0)
}

impl<'a> StringTable<'a> {
    ghost use Rattle.elf_files.specs.SectionViews.{strings_seen};
    ghost use Rattle.elf_files.specs.Strings.{string_at, is_string_at};

    // The bytes from an index on, none past the end.
    fn bytes_from(&self, index: u32) -> &'a [u8]
        ensures { result.now ≡ drop index self.now.bytes.now }
    {
        let start = (index as usize).min(self.bytes.len());
        bytes_after(self.bytes, start)
    }

    // The string at an index.
    pub(crate) fn string_at(&self, index: u32) -> Result<&'a [u8], ElfError>
        ensures ok { IfOk result (λ found. string_at (strings_seen self.now) index ≡ Ok found.now) }
        ensures err { IfErr result (λ e. string_at (strings_seen self.now) index ≡ Err e) }
    {
        let bytes = self.bytes_from(index);
        match first_zero(bytes) {
            Some(size) => Ok(&bytes[..size]),
            None => Err(ElfError::BadString {
                offset: self.offset + u64::from(index),
            }),
        }
    }

    // Whether the string at an index is this one.
    pub(crate) fn is_string_at(&self, index: u32, string: &[u8]) -> bool
        ensures { result ≡ is_string_at (strings_seen self.now) index string.now }
    {
        let bytes = self.bytes_from(index);
        let size = string.len();
        bytes.len() > size && bytes[size] == 0 && bytes.starts_with(string)
    }
}
