//! Offsets into a section.

ghost use Rattle.std.specs.Prelude.{◌≡◌, ◌≤◌, ◌<◌, ◌+◌, ◌-◌, ◌%◌, ◌^◌, ◌==◌, ℕ, refl, Some, None, option_map, nat_le, if◌then◌else◌};
ghost use Rattle.std.specs.Ordering.{nat_cmp};
ghost use Rattle.dwarf_endianity.specs.Offset.{offset_below, wrapped_offset};
ghost use Rattle.dwarf_endianity.specs.Answers.{Gives};

use dwarf_constants::{Error, Result};
use std::fmt::Debug;
use std::hash::Hash;
use std::ops::{Add, AddAssign, Sub};

/// The type of a section's offsets: a number below a limit. A sum has to be below it too, and a
/// difference has to be 0 or more.
pub trait ReaderOffset: Debug
    + Copy
    + Eq
    + Ord
    + Hash
    + Add<Self, Output = Self>
    + AddAssign<Self>
    + Sub<Self, Output = Self> {
    /// The offset as a number.
    ghost value: { Self → ℕ };

    /// The limit that every offset is below.
    ghost limit: { ℕ };

    /// The offset of this number.
    fn from_u8(offset: u8) -> Self
        ensures { value result ≡ offset };

    /// The offset of this number.
    fn from_u16(offset: u16) -> Self
        ensures { value result ≡ offset };

    /// A negative number counts down from the limit.
    fn from_i16(offset: i16) -> Self
        ensures { value result ≡ wrapped_offset limit offset };

    /// The offset of this number.
    fn from_u32(offset: u32) -> Self
        ensures { value result ≡ offset };

    /// Fails with `UnsupportedOffset` if the number is too large.
    fn from_u64(offset: u64) -> Result<Self>
        ensures { Gives value result (offset_below limit offset) };

    /// The offset as a number of 64 bits, which it always fits.
    fn into_u64(self) -> u64
        ensures value { result ≡ value self }
        ensures fits { value self < limit }
        ensures room { limit ≤ 2 ^ 64 };

    /// The sum modulo the limit.
    fn wrapping_add(self, other: Self) -> Self
        ensures { value result ≡ (value self + value other) % limit };

    /// The difference, or `None` if it is below 0.
    fn checked_sub(self, other: Self) -> Option<Self>
        ensures { option_map value result ≡ (if nat_le (value other) (value self)
            then Some (value self - value other) else None) };

    /// The sum, which has to be below the limit.
    ghost adds: { (a b : Self) → value a + value b < limit → Self.can_add a b };

    ghost sum: { (a b c : Self) → Self.add_gives a b c → value c ≡ value a + value b };

    ghost adds_to: { (a b : Self) → value a + value b < limit → Self.can_add_assign a b };

    ghost sum_to: { (a b c : Self) → Self.add_assign_gives a b c → value c ≡ value a + value b };

    /// The difference, which has to be 0 or more.
    ghost subtracts: { (a b : Self) → value b ≤ value a → Self.can_sub a b };

    ghost difference: { (a b c : Self) → Self.sub_gives a b c → value c ≡ value a - value b };

    /// Equality and order are those of the numbers.
    ghost equal: { (a b : Self) → Self.eq a b ≡ (value a == value b) };

    ghost order: { (a b : Self) → Self.cmp a b ≡ nat_cmp (value a) (value b) };
}

impl ReaderOffset for u64 {
    ghost value = { λ n. n };

    ghost limit = { 2 ^ 64 };

    ghost adds = { λ a b room. room };

    ghost sum = { λ a b c gives. gives };

    ghost adds_to = { λ a b room. room };

    ghost sum_to = { λ a b c gives. gives };

    ghost subtracts = { λ a b room. room };

    ghost difference = { λ a b c gives. gives };

    ghost equal = { λ a b. refl };

    ghost order = { λ a b. refl };

    fn from_u8(offset: u8) -> u64 {
        u64::from(offset)
    }

    fn from_u16(offset: u16) -> u64 {
        u64::from(offset)
    }

    fn from_i16(offset: i16) -> u64 {
        i64::from(offset).cast_unsigned()
    }

    fn from_u32(offset: u32) -> u64 {
        u64::from(offset)
    }

    fn from_u64(offset: u64) -> Result<u64> {
        Ok(offset)
    }

    fn into_u64(self) -> u64 {
        self
    }

    fn wrapping_add(self, other: u64) -> u64 {
        u64::wrapping_add(self, other)
    }

    fn checked_sub(self, other: u64) -> Option<u64> {
        u64::checked_sub(self, other)
    }
}

impl ReaderOffset for u32 {
    ghost value = { λ n. n };

    ghost limit = { 2 ^ 32 };

    ghost adds = { λ a b room. room };

    ghost sum = { λ a b c gives. gives };

    ghost adds_to = { λ a b room. room };

    ghost sum_to = { λ a b c gives. gives };

    ghost subtracts = { λ a b room. room };

    ghost difference = { λ a b c gives. gives };

    ghost equal = { λ a b. refl };

    ghost order = { λ a b. refl };

    fn from_u8(offset: u8) -> u32 {
        u32::from(offset)
    }

    fn from_u16(offset: u16) -> u32 {
        u32::from(offset)
    }

    fn from_i16(offset: i16) -> u32 {
        i32::from(offset).cast_unsigned()
    }

    fn from_u32(offset: u32) -> u32 {
        offset
    }

    fn from_u64(offset: u64) -> Result<u32> {
        u32::try_from(offset).map_err(|_| Error::UnsupportedOffset)
    }

    fn into_u64(self) -> u64 {
        u64::from(self)
    }

    fn wrapping_add(self, other: u32) -> u32 {
        u32::wrapping_add(self, other)
    }

    fn checked_sub(self, other: u32) -> Option<u32> {
        u32::checked_sub(self, other)
    }
}

impl ReaderOffset for usize {
    ghost value = { λ n. n };

    ghost limit = { 2 ^ 64 };

    ghost adds = { λ a b room. room };

    ghost sum = { λ a b c gives. gives };

    ghost adds_to = { λ a b room. room };

    ghost sum_to = { λ a b c gives. gives };

    ghost subtracts = { λ a b room. room };

    ghost difference = { λ a b c gives. gives };

    ghost equal = { λ a b. refl };

    ghost order = { λ a b. refl };

    fn from_u8(offset: u8) -> usize {
        usize::from(offset)
    }

    fn from_u16(offset: u16) -> usize {
        usize::from(offset)
    }

    fn from_i16(offset: i16) -> usize {
        isize::from(offset).cast_unsigned()
    }

    fn from_u32(offset: u32) -> usize {
        offset as usize
    }

    fn from_u64(offset: u64) -> Result<usize> {
        Ok(offset as usize)
    }

    fn into_u64(self) -> u64 {
        self as u64
    }

    fn wrapping_add(self, other: usize) -> usize {
        usize::wrapping_add(self, other)
    }

    fn checked_sub(self, other: usize) -> Option<usize> {
        usize::checked_sub(self, other)
    }
}
