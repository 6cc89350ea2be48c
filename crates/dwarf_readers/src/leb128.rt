//! Numbers of variable length (DWARF 5, 7.6): seven bits a byte, the least significant first, with
//! bit 7 set in each byte but the last.

pub mod read;
pub mod write;

pub use write::{Leb128, sleb128_size, uleb128_size};
