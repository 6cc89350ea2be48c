//! A list in place that costs little to make.

ghost use Rattle.std.specs.Prelude.{◌≡◌, ◌<◌, length, refl, slice_set, Some, true};
ghost use Rattle.arrayvec.specs.ArrayVec.{with_item};

use arrayvec::ArrayVec;
use dwarf_storage::{ArrayLike, PushError};
use std::alloc::{AllocError, Global};
use std::marker::Model;

/// A vector of at most `N` items, in place.
///
/// It is made of copies of one blank item. If that is all zero bytes, as `Undefined` for register 0 is, the compiler fills the
/// vector with one memset at its final place; an `ArrayVec` writes its blanks one by one, and is copied.
#[derive(Drop)]
pub struct InPlaceVec<T, const N: usize> {
    // N items, of which the first `len` are the list's
    places: ArrayVec<T, N>,
    len: usize,
}

impl<T, const N: usize> Model for InPlaceVec<T, N> {
    ghost use Rattle.std.specs.Prelude.{◌≡◌, ◌≤◌, length, take};
    ghost use Rattle.arrayvec.specs.ArrayVec.{ArrayVec as Items, array_vec_code};

    ghost Value = { Items T };

    ghost coded = { array_vec_code T.code };

    ghost view = { λ v. record { items = take v.len v.places.items } };

    ghost invariant = { λ v. (v.len ≤ N) × (length v.places.items ≡ N) };
}

// Writes an item over the one at this index.
fn put<T: Copy, const N: usize>(places: &mut ArrayVec<T, N>, index: usize, item: T)
    requires { index < length places.old.items }
    ensures { places.new.items ≡ slice_set places.old.items index item }
{
    if let Some(place) = places.get_mut(index) {
        *place = item;
    }
}

/// A vector without items.
impl<T: Copy + Default, const N: usize> Default for InPlaceVec<T, N> {
    ghost use Rattle.std.specs.Prelude.{◌≡◌, []};

    ghost is_default = { λ list. list.items ≡ [] };

    fn default() -> Self {
        InPlaceVec {
            places: ArrayVec::from_array_in((), [T::default(); N]),
            len: 0,
        }
    }
}

impl<T: Copy + Default, const N: usize> ArrayLike for InPlaceVec<T, N> {
    type Item = T;

    ghost items = { λ list. list.items };

    ghost capacity = { Some N };

    ghost is_made_in_place = { true };

    fn new_in(_alloc: Global) -> Result<Self, AllocError> {
        Ok(InPlaceVec::default())
    }

    fn as_slice(&self) -> &[T] {
        &self.places.as_slice()[..self.len]
    }

    fn has_room_for(&self, more: usize) -> bool {
        more <= N - self.len
    }

    fn try_push(&mut self, item: T) -> Result<(), PushError> {
        if self.len == N {
            return Err(PushError::CapacityFull);
        }
        put(&mut self.places, self.len, item);
        self.len += 1;
        Ok(())
    }

    fn pop(&mut self) -> Option<T> {
        if self.len == 0 {
            return None;
        }
        self.len -= 1;
        Some(self.places.as_slice()[self.len])
    }

    fn swap_remove(&mut self, index: usize) -> T {
        let places = self.places.as_slice();
        let item = places[index];
        let last = places[self.len - 1];
        put(&mut self.places, index, last);
        self.len -= 1;
        item
    }

    fn clear(&mut self) {
        self.len = 0;
    }

    ghost with_item = { λ list index item. with_item list index item };

    ghost items_with = { λ list index item. refl };

    fn item_mut(&mut self, index: usize) -> Option<&mut T> {
        if index < self.len {
            self.places.get_mut(index)
        } else {
            None
        }
    }
}
