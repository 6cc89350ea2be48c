//! A reader over bytes in one piece.

ghost use Rattle.std.specs.Prelude.{◌≡◌, ◌≤◌, ◌<◌, ◌+◌, ◌^◌, length};

use crate::reader::Reader;
use dwarf_constants::{Error, ReaderOffsetId, Result};
use dwarf_endianity::Endianity;
use std::alloc::{AllocError, Global};
use std::borrow::{CowSlice, CowStr};
use std::ops::{DerefSlice, Range, RangeFrom, RangeTo};

/// Bytes of a section in one piece, their byte order, and the offset of the first of them. Equality
/// and hash are those of the bytes and the byte order alone.
#[derive_where(Debug, PartialEq, Eq, Hash; E)]
pub struct EndianSlice<'a, E> {
    slice: &'a [u8],
    endian: E,
    #[derive_where(skip(EqHashOrd))]
    first: u64,
    ghost fits: { first + length slice.now < 2 ^ 64 },
}

impl<'a, E: Copy> Clone for EndianSlice<'a, E> {
    ghost is_clone = { λ s copy. (copy.slice.now ≡ s.slice.now)
        × (copy.endian ≡ s.endian) × (copy.first ≡ s.first) };

    ghost is_infallible = { λ _. Unit {0} };

    fn clone(&self) -> std::result::Result<Self, AllocError> {
        Ok(EndianSlice {
            slice: self.slice,
            endian: self.endian,
            first: self.first,
        })
    }
}

impl<'a, E: Copy> Copy for EndianSlice<'a, E> {}

impl<'a, E: Endianity> EndianSlice<'a, E> {
    ghost use Rattle.std.specs.Prelude.{IfOk, IfErr, ◌-◌};
    ghost use Rattle.std.specs.Cow.{cow_str_bytes};
    ghost use Rattle.std.specs.Str.{IsUtf8};
    ghost use Rattle.dwarf_constants.specs.declared.error.Error.TheVariants.{BadUtf8, OutOfMemory};
    ghost use Rattle.dwarf_readers.specs.EndianSlice.{slice_bytes, stretch_of};
    ghost use Rattle.dwarf_readers.specs.Stretch.{whole, prefix, behind, end_of, count_before};

    /// A section as a whole: its first byte is at offset 0.
    pub fn new(slice: &'a [u8], endian: E) -> Self
        ensures { stretch_of E.is_big result ≡ whole (E.is_big endian) slice.now }
    {
        EndianSlice {
            slice,
            endian,
            first: 0,
        }
    }

    /// A part of a section, whose first byte is at this offset.
    pub fn new_at(slice: &'a [u8], endian: E, first: u64) -> Self
        requires { first + length slice.now < 2 ^ 64 }
        ensures { stretch_of E.is_big result
            ≡ record { bytes = slice.now; offset = first; big = E.is_big endian } }
    {
        EndianSlice {
            slice,
            endian,
            first,
        }
    }

    /// The bytes.
    pub fn slice(&self) -> &'a [u8]
        ensures { result.now ≡ (stretch_of E.is_big self.now).bytes }
    {
        self.slice
    }

    /// The first `idx` bytes, and the rest.
    pub fn split_at(&self, idx: usize) -> (Self, Self)
        requires { idx ≤ length (stretch_of E.is_big self.now).bytes }
        ensures first { stretch_of E.is_big result.0 ≡ prefix idx (stretch_of E.is_big self.now) }
        ensures rest { stretch_of E.is_big result.1 ≡ behind idx (stretch_of E.is_big self.now) }
    {
        (self.range_to(..idx), self.range_from(idx..))
    }

    /// How many bytes are before the first of this value, if there is one.
    pub fn find(&self, byte: u8) -> Option<usize>
        ensures { result ≡ count_before byte (stretch_of E.is_big self.now).bytes }
    {
        for (i, b) in self.slice.iter().enumerate() {
            if *b == byte {
                return Some(i);
            }
        }
        None
    }

    /// How far this slice begins after the start of `base`, in bytes.
    pub fn offset_from(&self, base: EndianSlice<'a, E>) -> usize
        requires from { (stretch_of E.is_big base).offset ≤ (stretch_of E.is_big self.now).offset }
        requires to { (stretch_of E.is_big self.now).offset ≤ end_of (stretch_of E.is_big base) }
        ensures { result + (stretch_of E.is_big base.entry).offset
            ≡ (stretch_of E.is_big self.now).offset }
    {
        (self.first - base.first) as usize
    }

    /// The bytes as a text. Fails with `BadUtf8` if they aren't UTF-8.
    pub fn to_string(&self) -> Result<&'a str>
        ensures text { IfOk result (λ text. text.now ≡ slice_bytes self.now) }
        ensures valid { IfOk result (λ text. IsUtf8 (slice_bytes self.now)) }
        ensures refused { IfErr result
            (λ e. (e ≡ BadUtf8) × ¬ (IsUtf8 (slice_bytes self.now))) }
    {
        match str::from_utf8(self.slice) {
            Ok(text) => Ok(text),
            Err(_) => Err(Error::BadUtf8),
        }
    }

    /// The bytes as a text with U+FFFD for what is no character. It is copied only if there is such a
    /// part.
    pub fn to_string_lossy(&self, alloc: Global) -> Result<CowStr<'a, Global>>
        ensures text { IfOk result (λ text. IsUtf8 (slice_bytes self.now)
            → cow_str_bytes text ≡ slice_bytes self.now) }
        ensures memory { IfErr result (λ e. e ≡ OutOfMemory) }
    {
        match str::from_utf8(self.slice) {
            Ok(text) => Ok(CowStr::Borrowed(text)),
            Err(_) => match String::from_utf8_lossy(alloc, self.slice) {
                Ok(text) => Ok(CowStr::Owned(text)),
                Err(_) => Err(Error::OutOfMemory),
            },
        }
    }

    /// The bytes from the start of `idx` to before its end.
    pub fn range(&self, idx: Range<usize>) -> Self
        requires order { idx.start ≤ idx.end }
        requires inside { idx.end ≤ length (stretch_of E.is_big self.now).bytes }
        ensures { stretch_of E.is_big result
            ≡ prefix (idx.end - idx.start) (behind idx.start (stretch_of E.is_big self.now)) }
    {
        EndianSlice {
            slice: &self.slice[idx.start..idx.end],
            endian: self.endian,
            first: self.first + idx.start as u64,
        }
    }

    /// The bytes from the start of `idx` on.
    pub fn range_from(&self, idx: RangeFrom<usize>) -> Self
        requires { idx.start ≤ length (stretch_of E.is_big self.now).bytes }
        ensures { stretch_of E.is_big result ≡ behind idx.start (stretch_of E.is_big self.now) }
    {
        EndianSlice {
            slice: &self.slice[idx.start..],
            endian: self.endian,
            first: self.first + idx.start as u64,
        }
    }

    /// The bytes before the end of `idx`.
    pub fn range_to(&self, idx: RangeTo<usize>) -> Self
        requires { idx.end ≤ length (stretch_of E.is_big self.now).bytes }
        ensures { stretch_of E.is_big result ≡ prefix idx.end (stretch_of E.is_big self.now) }
    {
        EndianSlice {
            slice: &self.slice[..idx.end],
            endian: self.endian,
            first: self.first,
        }
    }
}

impl<'a, E: Endianity> DerefSlice for EndianSlice<'a, E> {
    ghost use Rattle.dwarf_readers.specs.EndianSlice.{stretch_of};

    type Elem = u8;

    ghost deref_gives = { λ s bytes. bytes ≡ (stretch_of E.is_big s).bytes };

    fn deref(&self) -> &[u8] {
        self.slice
    }
}

impl<'a, E: Endianity> Reader for EndianSlice<'a, E> {
    ghost use Rattle.std.specs.Prelude.{IfOk, IfErr, IsOk, ◌⊎◌};
    ghost use Rattle.std.specs.Cow.{cow_slice_items, cow_str_bytes};
    ghost use Rattle.std.specs.Str.{IsUtf8};
    ghost use Rattle.dwarf_constants.specs.declared.error.Error.TheVariants.{BadUtf8, OutOfMemory};
    ghost use Rattle.dwarf_readers.specs.EndianSlice.{stretch_of};

    type Endian = E;

    type Offset = usize;

    ghost stretch = { λ s. stretch_of E.is_big s };

    fn endian(&self) -> E {
        self.endian
    }

    fn len(&self) -> usize {
        self.slice.len()
    }

    fn empty(&mut self) {
        *self = self.range_to(..0);
    }

    fn truncate(&mut self, len: usize) -> Result<()> {
        if self.slice.len() < len {
            return Err(Error::UnexpectedEof(self.offset_id()));
        }
        *self = self.range_to(..len);
        Ok(())
    }

    fn offset_from(&self, base: &Self) -> usize {
        (self.first - base.first) as usize
    }

    fn offset_id(&self) -> ReaderOffsetId {
        ReaderOffsetId(self.first)
    }

    fn lookup_offset_id(&self, id: ReaderOffsetId) -> Option<usize> {
        if id.0 < self.first || self.first + (self.slice.len() as u64) < id.0 {
            return None;
        }
        Some((id.0 - self.first) as usize)
    }

    fn find(&self, byte: u8) -> Result<usize> {
        match EndianSlice::find(self, byte) {
            Some(len) => Ok(len),
            None => Err(Error::UnexpectedEof(self.offset_id())),
        }
    }

    fn skip(&mut self, len: usize) -> Result<()> {
        if self.slice.len() < len {
            return Err(Error::UnexpectedEof(self.offset_id()));
        }
        *self = self.range_from(len..);
        Ok(())
    }

    fn split(&mut self, len: usize) -> Result<Self> {
        if self.slice.len() < len {
            return Err(Error::UnexpectedEof(self.offset_id()));
        }
        let (part, rest) = EndianSlice::split_at(self, len);
        *self = rest;
        Ok(part)
    }

    // The bytes that are left. They are never copied, so that this doesn't fail.
    fn to_slice(&self, _alloc: Global) -> Result<CowSlice<'_, u8, Global>>
        ensures bytes { IfOk result (λ bytes. cow_slice_items bytes ≡ (stretch_of E.is_big self.now).bytes) }
        ensures memory { IfErr result (λ e. e ≡ OutOfMemory) }
        ensures lent { IsOk result }
    {
        Ok(CowSlice::Borrowed(self.slice))
    }

    // The bytes that are left, as a text. They are never copied. Fails with `BadUtf8` if they aren't UTF-8.
    fn to_string(&self, _alloc: Global) -> Result<CowStr<'_, Global>>
        ensures text { IfOk result (λ text. cow_str_bytes text ≡ (stretch_of E.is_big self.now).bytes) }
        ensures valid { IfOk result (λ text. IsUtf8 (stretch_of E.is_big self.now).bytes) }
        ensures refused { IfErr result
            (λ e. (e ≡ BadUtf8) × ¬ (IsUtf8 (stretch_of E.is_big self.now).bytes) ⊎ (e ≡ OutOfMemory)) }
        ensures lent { IfErr result (λ e. e ≡ BadUtf8) }
    {
        Ok(CowStr::Borrowed(EndianSlice::to_string(self)?))
    }

    fn to_string_lossy(&self, alloc: Global) -> Result<CowStr<'_, Global>> {
        EndianSlice::to_string_lossy(self, alloc)
    }

    #[inline(always)]
    fn read_u8(&mut self) -> Result<u8> {
        if self.slice.is_empty() {
            return Err(Error::UnexpectedEof(self.offset_id()));
        }
        let byte = self.slice[0];
        *self = self.range_from(1..);
        Ok(byte)
    }

    fn read_slice(&mut self, buf: &mut [u8]) -> Result<()> {
        let part = self.split(buf.len())?;
        buf.copy_from_slice(part.slice);
        Ok(())
    }
}
