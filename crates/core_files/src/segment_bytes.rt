//! The bytes of a segment that is read in blocks.

ghost use Rattle.std.specs.Prelude.{◌≡◌, ◌↔◌, ◌++◌, ◌==◌, ◌&&◌, [], length, IsTrue, OnOk, OnErr};
ghost use Rattle.core_files.specs.CoreFiles.{IsPartOf};
ghost use Rattle.core_files.specs.SegmentViews.{all_zero};

use elf_files::Segment;
use std::alloc::{AllocError, Global};

/// The bytes of a segment. Of the zeros that it begins with only the number is kept, since most of a stack is never used.
#[derive(Debug, Drop)]
pub struct SegmentBytes {
    pub(crate) zeros: u64,
    pub(crate) bytes: Vec<u8>,
}

// Whether all bytes are 0. No branch is taken for one of them, so that many are looked at at once.
fn all_zero(block: &[u8]) -> bool
    ensures { result ≡ all_zero block.now }
{
    let mut any = 0;
    for byte in block {
        any |= *byte;
    }
    any == 0
}

impl SegmentBytes {
    ghost use Rattle.core_files.specs.SegmentViews.{bytes_kept, part_seen};

    /// No bytes yet.
    pub fn new(alloc: Global) -> Self
        ensures { bytes_kept result ≡ [] }
    {
        SegmentBytes {
            zeros: 0,
            bytes: Vec::new(alloc),
        }
    }

    /// Adds the bytes of the block that comes next. Fails if memory is refused, and then changes nothing.
    pub fn push(&mut self, block: &[u8]) -> Result<(), AllocError>
        ensures ok { OnOk result (bytes_kept self.new ≡ bytes_kept self.old ++ block.now) }
        ensures err { OnErr result (bytes_kept self.new ≡ bytes_kept self.old) }
    {
        if self.bytes.as_slice().is_empty() && all_zero(block) {
            if let Some(zeros) = self.zeros.checked_add(block.len() as u64) {
                self.zeros = zeros;
                return Ok(());
            }
        }
        self.bytes.extend_from_slice(block)
    }

    // Whether there are as many bytes as a segment has, and none of them are kept as a number of zeros.
    pub(crate) fn has_all_of(&self, segment: &Segment) -> bool
        ensures { result ≡ ((self.now.zeros == 0) && (length self.now.bytes.items == segment.now.file_size)) }
    {
        self.zeros == 0 && self.bytes.len() as u64 == segment.file_size
    }

    // Whether there are no more bytes than a segment has.
    pub(crate) fn is_of(&self, segment: &Segment) -> bool
        ensures { IsTrue result ↔ IsPartOf (part_seen self.now) segment.now }
    {
        segment.offset.checked_add(segment.file_size).is_some()
            && match self.zeros.checked_add(self.bytes.len() as u64) {
                Some(size) => size <= segment.file_size,
                None => false,
            }
    }
}
