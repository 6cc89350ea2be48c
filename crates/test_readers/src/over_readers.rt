//! The same bytes in readers of every kind.

use crate::Backward;
use dwarf_readers::{EndianSlice, Reader, RunTimeEndian, TwoPieces};
use std::alloc::Global;
use std::test::Fail;

/// How a test ends.
pub type Outcome = Result<(), Fail>;

/// A test of calls that are generic over the reader, by a runtime's handle.
pub trait ReaderTest<H> {
    /// Runs over a reader of the whole of some bytes, the first at offset 0.
    fn run<R: Reader>(&self, rt: &H, alloc: Global, reader: R) -> Outcome;
}

/// Runs the test over the bytes in one piece, stored backward, and in two pieces, cut at each offset.
pub fn over_each_reader<H, T: ReaderTest<H>>(
    rt: &H,
    alloc: Global,
    test: &T,
    bytes: &[u8],
    endian: RunTimeEndian,
) -> Outcome {
    test.run(rt, alloc, EndianSlice::new(bytes, endian))?;
    u32::try_from(bytes.len())?;
    let mut stored = Vec::from_slice(alloc, bytes)?;
    stored.reverse();
    test.run(rt, alloc, Backward::new_at(&stored, endian, 0))?;
    for cut in 0..bytes.len() + 1 {
        let pieces = TwoPieces::new(&bytes[..cut], &bytes[cut..], endian);
        test.run(rt, alloc, pieces)?;
    }
    Ok(())
}
