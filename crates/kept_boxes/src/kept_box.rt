//! A box as its pointer.

ghost use Rattle.std.specs.Prelude.{◌≡◌};
ghost use Rattle.std_alloc.specs.Box.Ownership.{box_owns};

use std::alloc::Allocator;
use std::marker::Model;

/// A box as its pointer, with the allocator that frees it.
pub struct KeptBox<T, A: Allocator> {
    pub at: *mut T,
    pub alloc: A,
    pub ghost value: { T },
}

impl<T, A: Allocator> Model for KeptBox<T, A> {
    ghost also_owns = { λ kept. box_owns (A.dealloc_token kept.alloc) T.row kept.at kept.value };
}

impl<T: Drop, A: Allocator> KeptBox<T, A> {
    /// A box taken apart. What is in it is not dropped before it is a box again.
    pub fn of(value: Box<T, A>) -> KeptBox<T, A>
        ensures { result.value ≡ value.value }
    {
        let (at, alloc) = Box::into_raw_with_allocator(value);
        KeptBox { at, alloc }
    }

    /// The box again.
    pub fn into_box(self) -> Box<T, A>
        ensures { result.value ≡ self.value }
    {
        let KeptBox { at, alloc } = self;
        unsafe { Box::from_raw(alloc, at) }
    }
}
