//! The table of segments.

ghost use Rattle.std.specs.Prelude.{◌≡◌, ◌<◌, ◌≤◌, ◌+◌, ◌*◌, length};

use crate::segment::{Segment, segment_from};

/// The program headers of a file, all of them there.
#[derive(Debug, Clone, Copy)]
pub(crate) struct SegmentTable<'a> {
    pub(crate) bytes: &'a [u8],
    pub(crate) offset: usize,
    pub(crate) count: usize,
    ghost whole: { offset + 56 * count ≤ length bytes.now },
}

impl SegmentTable<'_> {
    ghost use Rattle.elf_files.specs.SegmentViews.{segment_in};

    // The segment with an index.
    pub(crate) fn get(&self, index: usize) -> Segment
        requires { index < self.now.count }
        ensures { result ≡ segment_in self.now index }
    {
        segment_from(self.bytes, self.offset + 56 * index)
    }
}
