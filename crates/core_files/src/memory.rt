//! The memory of a process.

ghost use Rattle.std.specs.Prelude.{◌≡◌, ◌≤◌, ◌+◌, ◌^◌, Some, IsTrue, IfSome};
ghost use Rattle.core_files.specs.Memory.{byte_left_out};
ghost use Rattle.core_files.specs.RangeViews.{ranges_seen};
ghost use Rattle.core_files.specs.Ranges.{IsIncreasing};

use crate::bytes::u64_at;
use crate::memory_range::MemoryRange;
use crate::ranges::Ranges;

/// The memory of a process: the loaded segments of a core, and the files that were mapped into it, which have the bytes that
/// the core left out.
#[derive(Clone, Copy, Debug)]
pub struct Memory<'m, 'a> {
    pub(crate) segments: Ranges<'m, 'a>,
    pub(crate) files: Ranges<'m, 'a>,
}

// The size of a word in bytes.
const WORD_SIZE: u64 = 8;

impl<'m, 'a> Memory<'m, 'a> {
    ghost use Rattle.core_files.specs.MemoryViews.{segments_of, files_of, byte_of, executable_of, word_of};

    /// The memory with these segments and mapped files. Each list is searched by halving if each of its ranges ends before the
    /// next begins, and else by a pass over all.
    pub fn new(segments: &'m [MemoryRange<'a>], files: &'m [MemoryRange<'a>]) -> Self
        ensures segments { segments_of result ≡ ranges_seen segments.now }
        ensures files { files_of result ≡ ranges_seen files.now }
    {
        Memory {
            segments: Ranges::new(segments),
            files: Ranges::new(files),
        }
    }

    /// Whether what is at an address may be executed, as the program header of the first segment that contains it says: `None` if
    /// there is no such segment. A core that gdb made has none for code that a file has.
    pub fn executable_at(&self, address: u64) -> Option<bool>
        ensures { result ≡ executable_of self.now address }
    {
        self.segments.executable_at(address)
    }

    // The byte that a mapped file has at an address, if the core didn't lose it.
    fn byte_left_out(&self, address: u64) -> Option<u8>
        ensures { result ≡ byte_left_out (segments_of self.now) (files_of self.now) address }
    {
        if self.segments.loses(address) {
            return None;
        }
        self.files.byte(address)
    }

    /// The byte at an address, if it is known: that of the first segment that contains it, or if the core left it out and didn't
    /// lose it, that of the first mapped file that contains it.
    pub fn byte(&self, address: u64) -> Option<u8>
        ensures { result ≡ byte_of self.now address }
    {
        match self.segments.byte(address) {
            Some(byte) => Some(byte),
            None => self.byte_left_out(address),
        }
    }

    // The word at an address, byte by byte.
    fn word_by_bytes(&self, address: u64) -> Option<u64>
        requires { address + 8 ≤ 2 ^ 64 }
        ensures { result ≡ word_of self.now address }
    {
        let mut bytes = [0; 8];
        for place in 0..8 {
            let Some(byte) = self.byte(address + place as u64) else {
                return None;
            };
            bytes[place] = byte;
        }
        Some(u64_at(&bytes, 0))
    }

    // The word at an address in one of the segments, if all of it is there.
    fn word_in_segment(&self, address: u64) -> Option<u64>
        requires fits { address + 8 ≤ 2 ^ 64 }
        requires increasing { IsIncreasing (segments_of self.now) }
        ensures { IfSome result (λ word. word_of self.now address ≡ Some word) }
    {
        let Some(segment) = self.segments.range_at(address) else {
            return None;
        };
        let offset = address - segment.address;
        if offset + (WORD_SIZE - 1) >= segment.size {
            return None;
        }
        let Some(at) = offset.checked_sub(segment.zeros) else {
            return None;
        };
        if at + (WORD_SIZE - 1) >= segment.bytes.len() as u64 {
            return None;
        }
        Some(u64_at(segment.bytes, at as usize))
    }

    /// The word of 64 bits at an address, if its eight bytes are known, in one segment or more. The lowest byte is first.
    pub fn word(&self, address: u64) -> Option<u64>
        ensures { result ≡ word_of self.now address }
    {
        if address > u64::MAX - 7 {
            return None;
        }
        if self.segments.is_increasing() {
            if let Some(word) = self.word_in_segment(address) {
                return Some(word);
            }
        }
        self.word_by_bytes(address)
    }
}
