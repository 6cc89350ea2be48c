//! Ranges of addresses, with what is known of their bytes.

ghost use Rattle.std.specs.Prelude.{◌≡◌, ◌≤◌, ◌↔◌, ◌+◌, IsTrue};
ghost use Rattle.std.specs.Option.{option_copied};
ghost use Rattle.core_files.specs.Ranges.{contains, byte_in, file_in, loses, IsBefore};
ghost use Rattle.core_files.specs.RangeViews.{range_seen};

use crate::bytes::bytes_after;

/// A range of addresses, and the bytes at its first addresses, as far as they are known: so many zeros, and then those of a
/// slice. Bytes beyond the range's size are none of its. If the core was cut off, those after them may be lost.
#[derive(Clone, Copy, Debug)]
pub struct MemoryRange<'a> {
    /// The first address.
    pub address: u64,
    /// How many addresses there are.
    pub size: u64,
    /// How many of the bytes at the first ones are zeros that come before `bytes`.
    pub zeros: u64,
    /// The bytes after these zeros.
    pub bytes: &'a [u8],
    /// How many bytes after these the core lost.
    pub lost: u64,
    /// Whether what is there may be executed, by the program header (`PF_X`). Of a mapped file it isn't said.
    pub executable: bool,
}

// What an ELF file begins with (EI_MAG0).
const ELF_MAGIC_0: u8 = 0x7f;

impl<'a> MemoryRange<'a> {
    // Whether an address is in the range.
    pub(crate) fn contains(&self, address: u64) -> bool
        ensures { result ≡ contains address (range_seen self.now) }
    {
        self.address <= address && address - self.address < self.size
    }

    /// The bytes from an address on, if the range has that one, and an ELF file can begin there: its first byte is there.
    pub fn file_at(&self, address: u64) -> Option<&'a [u8]>
        ensures { option_copied result ≡ file_in address (range_seen self.now) }
    {
        if !self.contains(address) {
            return None;
        }
        let Some(at) = (address - self.address).checked_sub(self.zeros) else {
            return None;
        };
        if at >= self.bytes.len() as u64 || self.bytes[at as usize] != ELF_MAGIC_0 {
            return None;
        }
        Some(bytes_after(self.bytes, at as usize))
    }

    // Whether the range ends where another begins, or before it.
    pub(crate) fn is_before(&self, next: &MemoryRange<'_>) -> bool
        ensures { IsTrue result ↔ IsBefore (range_seen self.now) (range_seen next.now) }
    {
        self.address <= next.address && self.size <= next.address - self.address
    }

    // Whether the byte at an address was lost.
    pub(crate) fn loses(&self, address: u64) -> bool
        requires { self.now.address ≤ address }
        ensures { result ≡ loses address (range_seen self.now) }
    {
        let known = self.bytes.len() as u64;
        match (address - self.address).checked_sub(self.zeros) {
            Some(at) => known <= at && at - known < self.lost,
            None => false,
        }
    }

    // The byte at an address, if it is known.
    pub(crate) fn byte(&self, address: u64) -> Option<u8>
        requires { self.now.address ≤ address }
        ensures { result ≡ byte_in address (range_seen self.now) }
    {
        let offset = address - self.address;
        match offset.checked_sub(self.zeros) {
            Some(at) => self.bytes.get(at as usize).copied(),
            None => Some(0),
        }
    }
}
