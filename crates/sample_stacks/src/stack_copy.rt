//! The part of a stack that was copied into a sample.

ghost use Rattle.std.specs.Prelude.{◌≡◌, ◌≤◌, ◌+◌, length};
ghost use Rattle.sample_stacks.specs.StackCopies.{is_behind, number_at, word_in};

use dwarf_endianity::{Endianity, LittleEndian};

/// The part of a stack that was copied into a sample.
#[derive(Clone, Copy, Debug)]
pub struct StackCopy<'a> {
    /// The address of the first byte: the stack pointer.
    pub start: u64,
    /// The bytes.
    pub bytes: &'a [u8],
}

// The word at an offset, lowest byte first.
#[inline(always)]
#[tactic(auto, unfolding(crate::specs::StackCopies::number_at))]
fn word_at(bytes: &[u8], at: usize) -> u64
    requires { at + 8 ≤ length bytes.now }
    ensures { result ≡ number_at bytes.now at }
{
    LittleEndian.read_u64(&bytes[at..])
}

impl StackCopy<'_> {
    /// The word at an address, if all of its bytes were copied.
    #[inline(always)]
    pub fn word(&self, address: u64) -> Option<u64>
        ensures { result ≡ word_in self.now.start self.now.bytes.now address }
    {
        if address < self.start {
            return None;
        }
        let at = address - self.start;
        let size = self.bytes.len() as u64;
        if at >= size || size - at < 8 {
            return None;
        }
        Some(word_at(self.bytes, at as usize))
    }

    /// Whether a word at an address that can't be read is behind what was copied.
    pub fn is_behind(&self, address: u64) -> bool
        ensures { result ≡ is_behind self.now.start address }
    {
        address >= self.start
    }
}
