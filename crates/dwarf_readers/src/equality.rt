//! The meaning of equality of slices.

ghost use Rattle.std.specs.Prelude.{IsTrue};
ghost use Rattle.dwarf_readers.specs.declared.endian_slice.EndianSlice.{EndianSlice};
ghost use Rattle.dwarf_readers.specs.EndianSlice.{SameWhereAlike, SlicesAreAlike};

use crate::endian_slice::EndianSlice;
use dwarf_endianity::Endianity;
use std::hash::Hash;

/// Two slices are equal exactly if their bytes and their byte orders are, at any offsets, and then
/// they hash alike.
pub fn equal_slices_are_alike<'a, E: Endianity + Hash>()
    ensures equal { (a b : EndianSlice E) → IsTrue (⟦<EndianSlice<'a, E> as PartialEq>⟧.eq a b)
        → SlicesAreAlike E.is_big a b }
    ensures alike { (a b : EndianSlice E) → SlicesAreAlike E.is_big a b
        → IsTrue (⟦<EndianSlice<'a, E> as PartialEq>⟧.eq a b) }
    ensures hash { SameWhereAlike E.is_big ⟦<EndianSlice<'a, E> as Hash>⟧.hash_input }
{}
