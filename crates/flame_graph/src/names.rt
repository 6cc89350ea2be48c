//! The names in a stack.

ghost use Rattle.std.specs.Prelude.{◌≡◌, IfOk};
ghost use Rattle.flame_graph.specs.Stacks.{names_of, shared, texts};

use std::alloc::{AllocError, Global};

/// The names in a stack, from the outermost to the innermost.
pub(crate) fn names_in<'a>(alloc: Global, text: &'a [u8]) -> Result<Vec<&'a [u8]>, AllocError>
    ensures { IfOk result (λ names. texts names.items ≡ names_of text.now) }
{
    text.split(|byte| *byte == b';').collect(alloc)
}

/// How many names at the front two stacks share.
pub(crate) fn shared_count(left: &[&[u8]], right: &[&[u8]]) -> usize
    ensures { result ≡ shared (texts left.now) (texts right.now) }
{
    let shorter = left.len().min(right.len());
    for i in 0..shorter {
        if left[i] != right[i] {
            return i;
        }
    }
    shorter
}
