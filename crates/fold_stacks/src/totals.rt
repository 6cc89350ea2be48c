//! What was folded, in numbers.

use sample_stacks::WalkEnd;

/// What was folded, in numbers.
#[derive(Clone, Copy, Debug, PartialEq, Eq)]
pub struct FoldTotals {
    /// Samples that were folded.
    pub samples: u64,
    /// Their frames of user code.
    pub frames: u64,
    /// Walks that end where the copied stack does.
    pub truncated: u64,
    /// Walks that end where no caller is found.
    pub broken: u64,
    /// Records and samples that the kernel says were lost.
    pub lost: u64,
}

impl FoldTotals {
    /// Nothing yet.
    pub fn new() -> Self {
        FoldTotals {
            samples: 0,
            frames: 0,
            truncated: 0,
            broken: 0,
            lost: 0,
        }
    }

    // Counts a sample, by how many frames its walk has and how it ends.
    pub(crate) fn add_walk(&mut self, end: WalkEnd, frames: usize) {
        self.samples = self.samples.saturating_add(1);
        self.frames = self.frames.saturating_add(frames as u64);
        match end {
            WalkEnd::Complete => {}
            WalkEnd::Truncated => self.truncated = self.truncated.saturating_add(1),
            WalkEnd::Broken => self.broken = self.broken.saturating_add(1),
        }
    }
}
