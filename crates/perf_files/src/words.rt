//! Numbers of 64 bits in place.

ghost use Rattle.std.specs.Prelude.{◌≡◌, length, slice_get};

use crate::bytes::u64_at;
use std::marker::Model;

/// Numbers of 64 bits, which are read in place.
#[derive(Debug, Drop)]
pub struct Words<'a> {
    bytes: &'a [u8],
}

/// They are a list of numbers.
impl<'a> Model for Words<'a> {
    ghost use Rattle.std.specs.Prelude.{ℕ, List};
    ghost use Rattle.perf_files.specs.Words.{words_in};

    ghost Value = { List ℕ };

    ghost view = { λ words. words_in words.bytes.now };
}

impl<'a> Words<'a> {
    ghost use Rattle.perf_files.specs.Words.{words_in};

    /// The numbers in some bytes; fewer than 8 bytes at the end are none.
    pub fn new(bytes: &'a [u8]) -> Self
        ensures { result ≡ words_in bytes.now }
    {
        Words { bytes }
    }

    /// How many there are.
    #[tactic(auto, using(crate::proofs::WordLists::words_length))]
    pub fn len(&self) -> usize
        ensures { result ≡ length self.now }
    {
        self.bytes.len() / 8
    }

    /// The number at an index.
    #[tactic(auto, using(crate::proofs::WordLists::words_get, crate::proofs::WordLists::words_past))]
    pub fn get(&self, index: usize) -> Option<u64>
        ensures { result ≡ slice_get self.now index }
    {
        if index < self.bytes.len() / 8 {
            Some(u64_at(self.bytes, 8 * index))
        } else {
            None
        }
    }
}
