//! A reader over bytes in two pieces.

ghost use Rattle.std.specs.Prelude.{◌≡◌, ◌≤◌, ◌<◌, ◌+◌, ◌++◌, ◌^◌, length};

use crate::endian_slice::EndianSlice;
use crate::reader::Reader;
use dwarf_constants::{Error, ReaderOffsetId, Result};
use dwarf_endianity::Endianity;
use std::alloc::{AllocError, Global};
use std::borrow::{CowSlice, CowStr};

/// Bytes of a section in two pieces, those of the first and then those of the second, their byte
/// order, and the offset of the first byte.
#[derive_where(Debug; E)]
pub struct TwoPieces<'a, E> {
    first: &'a [u8],
    second: &'a [u8],
    endian: E,
    offset: u64,
    ghost fits: { offset + (length first.now + length second.now) < 2 ^ 64 },
}

impl<'a, E: Copy> Clone for TwoPieces<'a, E> {
    ghost is_clone = { λ s copy. (copy.first.now ≡ s.first.now) × (copy.second.now ≡ s.second.now)
        × (copy.endian ≡ s.endian) × (copy.offset ≡ s.offset) };

    ghost is_infallible = { λ _. Unit {0} };

    fn clone(&self) -> std::result::Result<Self, AllocError> {
        Ok(TwoPieces {
            first: self.first,
            second: self.second,
            endian: self.endian,
            offset: self.offset,
        })
    }
}

impl<'a, E: Copy> Copy for TwoPieces<'a, E> {}

impl<'a, E: Endianity> TwoPieces<'a, E> {
    ghost use Rattle.std.specs.Prelude.{IfOk, IfErr, IfSome, IfNone};
    ghost use Rattle.dwarf_constants.specs.declared.error.Error.TheVariants.{OutOfMemory};
    ghost use Rattle.dwarf_readers.specs.EndianSlice.{stretch_of as stretch_of_slice};
    ghost use Rattle.dwarf_readers.specs.Stretch.{whole, prefix, behind, count_before};
    ghost use Rattle.dwarf_readers.specs.TwoPieces.{joined_stretch, joined_bytes, joint_of, CrossesJoint, KeepsJoint};

    /// A section as a whole: its first byte is at offset 0.
    pub fn new(first: &'a [u8], second: &'a [u8], endian: E) -> Self
        requires { length first.now + length second.now < 2 ^ 64 }
        ensures stretch { joined_stretch E.is_big result
            ≡ whole (E.is_big endian) (first.now ++ second.now) }
        ensures joint { joint_of result ≡ length first.now }
    {
        TwoPieces {
            first,
            second,
            endian,
            offset: 0,
        }
    }

    // How many bytes are left.
    fn left(&self) -> usize
        ensures { result ≡ length (joined_bytes self.now) }
    {
        self.first.len() + self.second.len()
    }

    // The first `len` bytes.
    #[tactic(auto, using(crate::proofs::Pieces::take_pieces))]
    fn prefix(&self, len: usize) -> Self
        requires { len ≤ length (joined_bytes self.now) }
        ensures stretch { joined_stretch E.is_big result ≡ prefix len (joined_stretch E.is_big self.now) }
        ensures joint { KeepsJoint self.now result }
    {
        let of_first = len.min(self.first.len());
        TwoPieces {
            first: &self.first[..of_first],
            second: &self.second[..len - of_first],
            endian: self.endian,
            offset: self.offset,
        }
    }

    // What is left after the first `len` bytes.
    fn behind(&self, len: usize) -> Self
        requires { len ≤ length (joined_bytes self.now) }
        ensures stretch { joined_stretch E.is_big result ≡ behind len (joined_stretch E.is_big self.now) }
        ensures joint { KeepsJoint self.now result }
    {
        let of_first = len.min(self.first.len());
        TwoPieces {
            first: &self.first[of_first..],
            second: &self.second[len - of_first..],
            endian: self.endian,
            offset: self.offset + len as u64,
        }
    }

    // How many bytes are before the first of this value, if there is one.
    #[tactic(auto, using(crate::proofs::Pieces::count_pieces, crate::proofs::Places::count_before_lt))]
    fn before(&self, byte: u8) -> Option<usize>
        ensures { result ≡ count_before byte (joined_bytes self.now) }
    {
        match EndianSlice::new(self.first, self.endian).find(byte) {
            Some(len) => Some(len),
            None => match EndianSlice::new(self.second, self.endian).find(byte) {
                Some(len) => Some(self.first.len() + len),
                None => None,
            },
        }
    }

    // Writes the bytes into `buf`.
    fn fill(&self, buf: &mut [u8])
        requires { length buf.old ≡ length (joined_bytes self.now) }
        ensures { buf.new ≡ joined_bytes self.now }
    {
        let joint = self.first.len();
        buf[..joint].copy_from_slice(self.first);
        buf[joint..].copy_from_slice(self.second);
    }

    // The same bytes as a slice, if they are in one piece.
    fn one_piece(&self) -> Option<EndianSlice<'a, E>>
        ensures same { IfSome result (λ piece.
            stretch_of_slice E.is_big piece ≡ joined_stretch E.is_big self.now) }
        ensures joint { IfNone result (CrossesJoint self.now) }
    {
        if self.second.is_empty() {
            return Some(EndianSlice::new_at(self.first, self.endian, self.offset));
        }
        if self.first.is_empty() {
            return Some(EndianSlice::new_at(self.second, self.endian, self.offset));
        }
        None
    }

    // A copy of the bytes, in one piece.
    fn joined(&self, alloc: Global) -> Result<Vec<u8>>
        ensures bytes { IfOk result (λ copy. copy.items ≡ joined_bytes self.now) }
        ensures memory { IfErr result (λ e. e ≡ OutOfMemory) }
    {
        let mut bytes = Vec::with_capacity(alloc, self.left())?;
        bytes.extend_from_slice(self.first)?;
        bytes.extend_from_slice(self.second)?;
        Ok(bytes)
    }
}

impl<'a, E: Endianity> Reader for TwoPieces<'a, E> {
    ghost use Rattle.std.specs.Prelude.{IfOk, IfErr, OnErr, ◌⊎◌};
    ghost use Rattle.std.specs.Cow.{cow_slice_items, cow_str_bytes};
    ghost use Rattle.std.specs.Str.{IsUtf8};
    ghost use Rattle.dwarf_constants.specs.declared.error.Error.TheVariants.{BadUtf8, OutOfMemory};
    ghost use Rattle.dwarf_readers.specs.Stretch.{Moves, behind_at, prefix_at};
    ghost use Rattle.dwarf_readers.specs.TwoPieces.{joined_stretch, joined_bytes, CrossesJoint, KeepsJoint, SplitsPieces};

    type Endian = E;

    type Offset = usize;

    ghost stretch = { λ s. joined_stretch E.is_big s };

    fn endian(&self) -> E {
        self.endian
    }

    fn len(&self) -> usize {
        self.left()
    }

    fn empty(&mut self) {
        *self = self.prefix(0);
    }

    fn truncate(&mut self, len: usize) -> Result<()>
        ensures moved { Moves result (prefix_at len (joined_stretch E.is_big self.old))
            (joined_stretch E.is_big self.new) }
        ensures unchanged { OnErr result
            (joined_stretch E.is_big self.new ≡ joined_stretch E.is_big self.old) }
        ensures joint { KeepsJoint self.old self.new }
    {
        if self.left() < len {
            return Err(Error::UnexpectedEof(self.offset_id()));
        }
        *self = self.prefix(len);
        Ok(())
    }

    fn offset_from(&self, base: &Self) -> usize {
        (self.offset - base.offset) as usize
    }

    fn offset_id(&self) -> ReaderOffsetId {
        ReaderOffsetId(self.offset)
    }

    fn lookup_offset_id(&self, id: ReaderOffsetId) -> Option<usize> {
        if id.0 < self.offset || self.offset + (self.left() as u64) < id.0 {
            return None;
        }
        Some((id.0 - self.offset) as usize)
    }

    fn find(&self, byte: u8) -> Result<usize> {
        match self.before(byte) {
            Some(len) => Ok(len),
            None => Err(Error::UnexpectedEof(self.offset_id())),
        }
    }

    fn skip(&mut self, len: usize) -> Result<()>
        ensures moved { Moves result (behind_at len (joined_stretch E.is_big self.old))
            (joined_stretch E.is_big self.new) }
        ensures unchanged { OnErr result
            (joined_stretch E.is_big self.new ≡ joined_stretch E.is_big self.old) }
        ensures joint { KeepsJoint self.old self.new }
    {
        if self.left() < len {
            return Err(Error::UnexpectedEof(self.offset_id()));
        }
        *self = self.behind(len);
        Ok(())
    }

    fn split(&mut self, len: usize) -> Result<Self>
        ensures read { SplitsPieces E.is_big len self.old self.new result }
        ensures unchanged { OnErr result
            (joined_stretch E.is_big self.new ≡ joined_stretch E.is_big self.old) }
        ensures joint { KeepsJoint self.old self.new }
        ensures joint_of_part { IfOk result (KeepsJoint self.old) }
    {
        if self.left() < len {
            return Err(Error::UnexpectedEof(self.offset_id()));
        }
        let part = self.prefix(len);
        *self = self.behind(len);
        Ok(part)
    }

    // The bytes that are left. They are copied only if they are on both sides of the joint.
    fn to_slice(&self, alloc: Global) -> Result<CowSlice<'_, u8, Global>>
        ensures bytes { IfOk result (λ bytes. cow_slice_items bytes ≡ joined_bytes self.now) }
        ensures memory { IfErr result (λ e. e ≡ OutOfMemory) }
        ensures joint { OnErr result (CrossesJoint self.now) }
    {
        match self.one_piece() {
            Some(piece) => Ok(CowSlice::Borrowed(piece.slice())),
            None => Ok(CowSlice::Owned(self.joined(alloc)?)),
        }
    }

    // The bytes that are left, as a text. They are copied only if they are on both sides of the
    // joint. Fails with `BadUtf8` if they aren't UTF-8.
    fn to_string(&self, alloc: Global) -> Result<CowStr<'_, Global>>
        ensures text { IfOk result (λ text. cow_str_bytes text ≡ joined_bytes self.now) }
        ensures valid { IfOk result (λ text. IsUtf8 (joined_bytes self.now)) }
        ensures refused { IfErr result
            (λ e. (e ≡ BadUtf8) × ¬ (IsUtf8 (joined_bytes self.now)) ⊎ (e ≡ OutOfMemory)) }
        ensures joint { IfErr result (λ e. e ≡ OutOfMemory → CrossesJoint self.now) }
    {
        if let Some(piece) = self.one_piece() {
            return Ok(CowStr::Borrowed(EndianSlice::to_string(&piece)?));
        }
        match String::from_utf8(self.joined(alloc)?) {
            Ok(text) => Ok(CowStr::Owned(text)),
            Err(_) => Err(Error::BadUtf8),
        }
    }

    fn to_string_lossy(&self, alloc: Global) -> Result<CowStr<'_, Global>> {
        if let Some(piece) = self.one_piece() {
            return EndianSlice::to_string_lossy(&piece, alloc);
        }
        let bytes = self.joined(alloc)?;
        Ok(CowStr::Owned(String::from_utf8_lossy(alloc, &bytes)?))
    }

    fn read_slice(&mut self, buf: &mut [u8]) -> Result<()> {
        let part = self.split(buf.len())?;
        part.fill(buf);
        Ok(())
    }
}
