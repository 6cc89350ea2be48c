//! `NT_AUXV`: the auxiliary vector.

ghost use Rattle.std.specs.Prelude.{◌≡◌};
ghost use Rattle.core_files.specs.Auxv.{auxiliary_value};

use crate::bytes::u64_at;

// The type of the entry that ends the vector.
const AT_NULL: u64 = 0;

// An entry has a type and a value, 8 bytes each.
const ENTRY_SIZE: usize = 16;

/// The value of the first entry of a type (`AT_*`) in the descriptor of an `NT_AUXV`, before the `AT_NULL` that ends it.
pub fn read_auxiliary(descriptor: &[u8], kind: u64) -> Option<u64>
    ensures { result ≡ auxiliary_value descriptor.now kind }
{
    for entry in 0..descriptor.len() / ENTRY_SIZE {
        let found = u64_at(descriptor, ENTRY_SIZE * entry);
        if found == AT_NULL {
            return None;
        }
        if found == kind {
            return Some(u64_at(descriptor, ENTRY_SIZE * entry + 8));
        }
    }
    None
}
