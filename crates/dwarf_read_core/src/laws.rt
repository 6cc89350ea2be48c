//! Laws of readers: equal slices are alike to every call of a reader, what a read leaves, and that no read fails
//! because memory ran out.

pub use dwarf_readers::equality::equal_slices_are_alike;
pub use dwarf_readers::{memory, remainders};
