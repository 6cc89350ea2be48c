//! Reading of a section's bytes: readers that know their offset, and numbers of variable length. It
//! re-exports the byte orders and offsets of `dwarf_endianity`.
#![tactic(auto)]

mod endian_slice;
pub mod equality;
pub mod leb128;
pub mod memory;
pub mod more;
mod reader;
pub mod remainders;
mod steps;
mod str_offsets_base;
mod two_pieces;

pub use dwarf_endianity::{
    BigEndian, Endianity, LittleEndian, NativeEndian, ReaderOffset, RunTimeEndian,
};
pub use endian_slice::EndianSlice;
pub use reader::{Reader, is_address_size, read_u8_array};
pub use steps::{Counted, Steps, count_steps};
pub use str_offsets_base::DebugStrOffsetsBase;
pub use two_pieces::TwoPieces;
