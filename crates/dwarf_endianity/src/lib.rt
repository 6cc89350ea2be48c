//! The byte order of a section's numbers, and the types of its offsets.
#![tactic(auto)]

mod endianity;
mod reader_offset;

pub use endianity::{BigEndian, Endianity, LittleEndian, NativeEndian, RunTimeEndian};
pub use reader_offset::ReaderOffset;
