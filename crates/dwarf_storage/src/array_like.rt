//! Lists with a capacity, and lists that grow.

ghost use Rattle.std.specs.Prelude.{◌≡◌, ◌↔◌, ℕ, ◌+◌, ◌-◌, ◌<◌, List, [], ◌∷◌, ◌++◌, length, take, IfOk, IsOk, OnErr, OnOk, Option, Some, None, Bool, true, false, IsTrue, refl, slice_get, slice_set};
ghost use Rattle.std.specs.Borrow.{LendsIf, sem};
ghost use Rattle.std.specs.List.{IsItemAtMut, slice_index_or, swap_remove};
ghost use Rattle.std.specs.Vec.{with_item as with_vec_item};
ghost use Rattle.arrayvec.specs.ArrayVec.{with_item as with_array_item};
ghost use Rattle.dwarf_storage.specs.Capacity.{IsWithin, Pushes};

use arrayvec::ArrayVec;
use std::alloc::{AllocError, Global};
use std::marker::Model;

/// Why an item wasn't put at the end of a list.
#[derive(Debug, Clone, Copy, PartialEq, Eq)]
pub enum PushError {
    /// The list has as many items as its capacity.
    CapacityFull,
    /// A list that grows failed to allocate.
    OutOfMemory,
}

/// A list that may have a capacity: a vector of a fixed size, one that allocated its capacity when it
/// was made, or one that grows.
pub trait ArrayLike: Drop {
    type Item: Drop;

    /// The items, in order.
    ghost items: { Self → List Self.Item };

    /// How many items a list can have; nothing for a list that grows.
    ghost capacity: { Option ℕ };

    /// Making a list doesn't allocate.
    ghost is_made_in_place: { Bool };

    /// A list without items.
    fn new_in(alloc: Global) -> Result<Self, AllocError>
        ensures empty { IfOk result (λ list. items list ≡ []) }
        ensures memory { IsTrue is_made_in_place → IsOk result };

    /// The items.
    fn as_slice(&self) -> &[Self::Item]
        ensures value { result.now ≡ items self.now }
        ensures within { IsWithin capacity (length (items self.now)) };

    /// Whether there is room for `more` items. A list that grows always has it.
    fn has_room_for(&self, more: usize) -> bool
        ensures { IsTrue result ↔ IsWithin capacity (length (items self.now) + more) };

    /// Appends an item.
    fn try_push(&mut self, item: Self::Item) -> Result<(), PushError>
        ensures room { Pushes capacity (length (items self.old)) result }
        ensures ok { OnOk result (items self.new ≡ items self.old ++ item ∷ []) }
        ensures err { OnErr result (items self.new ≡ items self.old) };

    /// Removes the last item, if there is one.
    fn pop(&mut self) -> Option<Self::Item>
        ensures value { result ≡ slice_get (items self.old) (length (items self.old) - 1) }
        ensures rest { items self.new ≡ take (length (items self.old) - 1) (items self.old) };

    /// Removes an item, and puts the last one in its stead.
    fn swap_remove(&mut self, index: usize) -> Self::Item
        requires { index < length (items self.old) }
        ensures value { result ≡ slice_index_or (items self.old) index result }
        ensures rest { items self.new ≡ swap_remove (items self.old) index result };

    /// Removes all items.
    fn clear(&mut self)
        ensures { items self.new ≡ [] };

    /// The list with another item at an index.
    ghost with_item: { Self → ℕ → Self.Item → Self };

    /// The item at an index, for writing, if there is one.
    fn item_mut(&mut self, index: usize) -> Option<&mut Self::Item>
        ensures* writes_back { sem 𝓛 (LendsIf Self.row Self.Item.row self.entry result
            (with_item self.old index) self.old) }
        ensures item { IsItemAtMut (items self.old) index result };

    /// A list with another item at an index differs at that index alone.
    ghost items_with: { (list : Self) (index : ℕ) (item : Self.Item)
        → items (with_item list index item) ≡ slice_set (items list) index item };
}

/// A vector of at most `N` items, in place.
impl<T: Default + Drop, const N: usize> ArrayLike for ArrayVec<T, N> {
    type Item = T;

    ghost items = { λ list. list.items };

    ghost capacity = { Some N };

    ghost is_made_in_place = { true };

    fn new_in(_alloc: Global) -> Result<Self, AllocError> {
        Ok(ArrayVec::new())
    }

    fn as_slice(&self) -> &[T] {
        ArrayVec::as_slice(self)
    }

    fn has_room_for(&self, more: usize) -> bool {
        more <= N - ArrayVec::as_slice(self).len()
    }

    fn try_push(&mut self, item: T) -> Result<(), PushError> {
        if self.is_full() {
            return Err(PushError::CapacityFull);
        }
        self.push(item);
        Ok(())
    }

    fn pop(&mut self) -> Option<T> {
        ArrayVec::pop(self)
    }

    fn swap_remove(&mut self, index: usize) -> T {
        ArrayVec::swap_remove(self, index)
    }

    fn clear(&mut self) {
        ArrayVec::clear(self);
    }

    ghost with_item = { λ list index item. with_array_item list index item };

    ghost items_with = { λ list index item. refl };

    fn item_mut(&mut self, index: usize) -> Option<&mut T> {
        ArrayVec::get_mut(self, index)
    }
}

/// A vector of at most `N` items on the heap. It allocates when it is made, and no push does.
#[derive(Drop)]
pub struct ReservedVec<T, const N: usize> {
    list: Vec<T>,
}

impl<T, const N: usize> Model for ReservedVec<T, N> {
    ghost use Rattle.std.specs.Prelude.{◌≤◌, length};
    ghost use Rattle.std.specs.Vec.{vec_capacity};
    ghost use Rattle.arrayvec.specs.ArrayVec.{ArrayVec as Items, array_vec_code};

    ghost Value = { Items T };

    ghost coded = { array_vec_code T.code };

    ghost view = { λ v. record { items = v.list.items } };

    ghost invariant = { λ v. (length v.list.items ≤ N) × (N ≤ vec_capacity v.list) };
}

impl<T: Drop, const N: usize> ArrayLike for ReservedVec<T, N> {
    type Item = T;

    ghost items = { λ list. list.items };

    ghost capacity = { Some N };

    ghost is_made_in_place = { false };

    fn new_in(alloc: Global) -> Result<Self, AllocError> {
        Ok(ReservedVec {
            list: Vec::with_capacity(alloc, N)?,
        })
    }

    fn as_slice(&self) -> &[T] {
        self.list.as_slice()
    }

    fn has_room_for(&self, more: usize) -> bool {
        more <= N - self.list.len()
    }

    fn try_push(&mut self, item: T) -> Result<(), PushError> {
        if self.list.len() < N {
            self.list.push_reserved(item);
            Ok(())
        } else {
            Err(PushError::CapacityFull)
        }
    }

    fn pop(&mut self) -> Option<T> {
        self.list.pop()
    }

    fn swap_remove(&mut self, index: usize) -> T {
        self.list.swap_remove(index)
    }

    fn clear(&mut self) {
        self.list.clear();
    }

    ghost with_item = { λ list index item. with_array_item list index item };

    ghost items_with = { λ list index item. refl };

    fn item_mut(&mut self, index: usize) -> Option<&mut T> {
        self.list.get_mut(index)
    }
}

/// A vector that grows.
impl<T: Drop> ArrayLike for Vec<T> {
    type Item = T;

    ghost items = { λ list. list.items };

    ghost capacity = { None };

    ghost is_made_in_place = { true };

    fn new_in(alloc: Global) -> Result<Self, AllocError> {
        Ok(Vec::new(alloc))
    }

    fn as_slice(&self) -> &[T] {
        Vec::as_slice(self)
    }

    fn has_room_for(&self, _more: usize) -> bool {
        true
    }

    fn try_push(&mut self, item: T) -> Result<(), PushError> {
        match self.push(item) {
            Ok(()) => Ok(()),
            Err(_) => Err(PushError::OutOfMemory),
        }
    }

    fn pop(&mut self) -> Option<T> {
        Vec::pop(self)
    }

    fn swap_remove(&mut self, index: usize) -> T {
        Vec::swap_remove(self, index)
    }

    fn clear(&mut self) {
        Vec::clear(self);
    }

    ghost with_item = { λ list index item. with_vec_item list index item };

    ghost items_with = { λ list index item. refl };

    fn item_mut(&mut self, index: usize) -> Option<&mut T> {
        Vec::get_mut(self, index)
    }
}
