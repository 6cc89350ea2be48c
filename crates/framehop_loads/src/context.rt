//! What steps reuse.

use crate::policies::AllocationPolicy;
use dwarf_frame_entries::UnwindContext;
use std::alloc::{AllocError, Global};

/// What steps reuse: the storage that rows are evaluated in. No result depends on what was evaluated
/// there before.
#[derive(Drop)]
pub struct DwarfUnwindContext<P: AllocationPolicy> {
    /// The storage of rows. It is on the heap, so that it isn't copied when the cache is moved.
    pub rows: Box<UnwindContext<usize, P::GimliUnwindContextStorage>>,
    /// Allocates the values of expressions, if their storage allocates.
    pub alloc: Global,
}

impl<P: AllocationPolicy> DwarfUnwindContext<P> {
    /// Storage for the rows of any number of steps. Fails if it fails to allocate.
    pub fn new(alloc: Global) -> Result<Self, AllocError> {
        let rows = Box::new(alloc, UnwindContext::new_in(alloc)?)?;
        Ok(DwarfUnwindContext { rows, alloc })
    }
}
