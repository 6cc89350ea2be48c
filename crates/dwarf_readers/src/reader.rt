//! Reading of a section's bytes, however they are stored.

ghost use Rattle.std.specs.Prelude.{◌≡◌, ◌≤◌, ◌<◌, ◌+◌, ◌^◌, ◌==◌, ◌⊎◌, [], length, IfOk, IfErr, OnErr, OnOk, option_map};
ghost use Rattle.std.specs.Cow.{cow_slice_items, cow_str_bytes};
ghost use Rattle.std.specs.Int.{w8, w16, w32, w64};
ghost use Rattle.std.specs.Str.{IsUtf8};
ghost use Rattle.dwarf_constants.specs.declared.error.Error.TheVariants.{BadUtf8, OutOfMemory};
ghost use Rattle.dwarf_constants.specs.Format.{word_size};
ghost use Rattle.dwarf_readers.specs.InitialLength.{address_at, address_size_at, initial_length_at, is_size, left_by, left_by_initial_length, length_shown, sized_number_at, sized_offset_at, word_at};
ghost use Rattle.dwarf_readers.specs.Leb128.{behind_string, left_by_leb128, signed_at, string_of, unsigned_16_at, unsigned_32_at, unsigned_at};
ghost use Rattle.dwarf_endianity.specs.Answers.{Gives};
ghost use Rattle.dwarf_readers.specs.Stretch.{Moves, Reads, ReadsAs, Stretch, behind, behind_at, byte_at, bytes_at, count_before, empty_stretch, end_of, found_at, prefix_at, number_at, relative_offset, signed_byte_at, signed_number_at, split_at, string_at};
ghost use Rattle.dwarf_readers.specs.Remainder.{size_of};

use crate::leb128;
use dwarf_constants::{Error, Format, ReaderOffsetId, Result};
use dwarf_endianity::{Endianity, ReaderOffset};
use std::alloc::Global;
use std::borrow::{CowSlice, CowStr};
use std::fmt::Debug;

/// What reads the bytes of a section, in order. It knows the offset of its next byte in the section,
/// which the error carries if bytes are missing.
pub trait Reader: Debug + Copy {
    /// The byte order of numbers.
    type Endian: Endianity;
    /// The type of offsets and lengths.
    type Offset: ReaderOffset;

    /// The bytes left, the offset of the first, and the byte order.
    ghost stretch: { Self → Stretch };

    /// The byte order.
    fn endian(&self) -> Self::Endian
        ensures { Self.Endian.is_big result ≡ (stretch self.now).big };

    /// How many bytes are left.
    fn len(&self) -> Self::Offset
        ensures len { Self.Offset.value result ≡ size_of (stretch self.now) }
        ensures fits { size_of (stretch self.now) < Self.Offset.limit };

    /// Drops all bytes that are left. The offset stays.
    fn empty(&mut self)
        ensures { stretch self.new ≡ empty_stretch (stretch self.old) };

    /// Drops all but the first `len` bytes.
    fn truncate(&mut self, len: Self::Offset) -> Result<()>
        ensures moved { Moves result (prefix_at (Self.Offset.value len) (stretch self.old))
            (stretch self.new) }
        ensures unchanged { OnErr result (stretch self.new ≡ stretch self.old) };

    /// How far this reader is after the start of `base`, in bytes.
    fn offset_from(&self, base: &Self) -> Self::Offset
        requires from { (stretch base.now).offset ≤ (stretch self.now).offset }
        requires to { (stretch self.now).offset ≤ end_of (stretch base.now) }
        ensures { Self.Offset.value result + (stretch base.now).offset ≡ (stretch self.now).offset };

    /// The offset of the next byte in the section.
    fn offset_id(&self) -> ReaderOffsetId
        ensures { result.0 ≡ (stretch self.now).offset };

    /// An offset in the section relative to the next byte, if it is in what is left or at its end.
    fn lookup_offset_id(&self, id: ReaderOffsetId) -> Option<Self::Offset>
        ensures { option_map Self.Offset.value result ≡ relative_offset (stretch self.now) id.0 };

    /// How many bytes are before the first of this value.
    fn find(&self, byte: u8) -> Result<Self::Offset>
        ensures { Gives Self.Offset.value result
            (found_at (stretch self.now) (count_before byte (stretch self.now).bytes)) };

    /// Skips the next `len` bytes.
    fn skip(&mut self, len: Self::Offset) -> Result<()>
        ensures moved { Moves result (behind_at (Self.Offset.value len) (stretch self.old))
            (stretch self.new) }
        ensures unchanged { OnErr result (stretch self.new ≡ stretch self.old) };

    /// A reader of the next `len` bytes, which this one skips.
    fn split(&mut self, len: Self::Offset) -> Result<Self>
        ensures read { ReadsAs stretch result (split_at (Self.Offset.value len) (stretch self.old))
            (stretch self.new) }
        ensures unchanged { OnErr result (stretch self.new ≡ stretch self.old) };

    /// The bytes that are left. They are copied only if they aren't in one piece.
    fn to_slice(&self, alloc: Global) -> Result<CowSlice<'_, u8, Global>>
        ensures bytes { IfOk result (λ bytes. cow_slice_items bytes ≡ (stretch self.now).bytes) }
        ensures memory { IfErr result (λ e. e ≡ OutOfMemory) };

    /// The bytes that are left, as a text. Fails with `BadUtf8` if they aren't UTF-8.
    fn to_string(&self, alloc: Global) -> Result<CowStr<'_, Global>>
        ensures text { IfOk result (λ text. cow_str_bytes text ≡ (stretch self.now).bytes) }
        ensures valid { IfOk result (λ text. IsUtf8 (stretch self.now).bytes) }
        ensures refused { IfErr result
            (λ e. (e ≡ BadUtf8) × ¬ (IsUtf8 (stretch self.now).bytes) ⊎ (e ≡ OutOfMemory)) };

    /// The bytes that are left, as a text with U+FFFD for what is no character.
    fn to_string_lossy(&self, alloc: Global) -> Result<CowStr<'_, Global>>
        ensures text { IfOk result (λ text. IsUtf8 (stretch self.now).bytes
            → cow_str_bytes text ≡ (stretch self.now).bytes) }
        ensures memory { IfErr result (λ e. e ≡ OutOfMemory) };

    /// Reads bytes until `buf` is full.
    fn read_slice(&mut self, buf: &mut [u8]) -> Result<()>
        ensures read { ReadsAs (λ _. buf.new) result
            (bytes_at (length buf.old) (stretch self.old)) (stretch self.new) }
        ensures unchanged { OnErr result (stretch self.new ≡ stretch self.old) };

    /// Whether no bytes are left.
    fn is_empty(&self) -> bool
        ensures { result ≡ (size_of (stretch self.now) == 0) }
    {
        self.len().into_u64() == 0
    }

    /// Reads an unsigned byte.
    fn read_u8(&mut self) -> Result<u8>
        ensures read { Reads result (byte_at (stretch self.old)) (stretch self.new) }
        ensures unchanged { OnErr result (stretch self.new ≡ stretch self.old) }
    {
        let mut bytes = [0];
        self.read_slice(&mut bytes)?;
        Ok(bytes[0])
    }

    /// Reads a byte as a signed number in two's complement.
    fn read_i8(&mut self) -> Result<i8>
        ensures read { Reads result (signed_byte_at (stretch self.old)) (stretch self.new) }
        ensures unchanged { OnErr result (stretch self.new ≡ stretch self.old) }
    {
        Ok(self.read_u8()?.cast_signed())
    }

    /// Reads an unsigned number of 2 bytes in the reader's byte order.
    fn read_u16(&mut self) -> Result<u16>
        ensures read { Reads result (number_at 2 (stretch self.old)) (stretch self.new) }
        ensures unchanged { OnErr result (stretch self.new ≡ stretch self.old) }
    {
        let mut bytes = [0; 2];
        self.read_slice(&mut bytes)?;
        Ok(self.endian().read_u16(&bytes))
    }

    /// Reads a signed number of 2 bytes in the reader's byte order.
    fn read_i16(&mut self) -> Result<i16>
        ensures read { Reads result (signed_number_at w16 (stretch self.old)) (stretch self.new) }
        ensures unchanged { OnErr result (stretch self.new ≡ stretch self.old) }
    {
        Ok(self.read_u16()?.cast_signed())
    }

    /// Reads an unsigned number of 4 bytes in the reader's byte order.
    fn read_u32(&mut self) -> Result<u32>
        ensures read { Reads result (number_at 4 (stretch self.old)) (stretch self.new) }
        ensures unchanged { OnErr result (stretch self.new ≡ stretch self.old) }
    {
        let mut bytes = [0; 4];
        self.read_slice(&mut bytes)?;
        Ok(self.endian().read_u32(&bytes))
    }

    /// Reads a signed number of 4 bytes in the reader's byte order.
    fn read_i32(&mut self) -> Result<i32>
        ensures read { Reads result (signed_number_at w32 (stretch self.old)) (stretch self.new) }
        ensures unchanged { OnErr result (stretch self.new ≡ stretch self.old) }
    {
        Ok(self.read_u32()?.cast_signed())
    }

    /// Reads an unsigned number of 8 bytes in the reader's byte order.
    fn read_u64(&mut self) -> Result<u64>
        ensures read { Reads result (number_at 8 (stretch self.old)) (stretch self.new) }
        ensures unchanged { OnErr result (stretch self.new ≡ stretch self.old) }
    {
        let mut bytes = [0; 8];
        self.read_slice(&mut bytes)?;
        Ok(self.endian().read_u64(&bytes))
    }

    /// Reads a signed number of 8 bytes in the reader's byte order.
    fn read_i64(&mut self) -> Result<i64>
        ensures read { Reads result (signed_number_at w64 (stretch self.old)) (stretch self.new) }
        ensures unchanged { OnErr result (stretch self.new ≡ stretch self.old) }
    {
        Ok(self.read_u64()?.cast_signed())
    }

    /// Reads an unsigned number of 16 bytes in the reader's byte order.
    fn read_u128(&mut self) -> Result<u128>
        ensures read { Reads result (number_at 16 (stretch self.old)) (stretch self.new) }
        ensures unchanged { OnErr result (stretch self.new ≡ stretch self.old) }
    {
        let mut bytes = [0; 16];
        self.read_slice(&mut bytes)?;
        Ok(self.endian().read_u128(&bytes))
    }

    /// Reads a number of 1 to 8 bytes.
    fn read_uint(&mut self, n: usize) -> Result<u64>
        requires some { 1 ≤ n }
        requires fits { n ≤ 8 }
        ensures read { Reads result (number_at n (stretch self.old)) (stretch self.new) }
        ensures unchanged { OnErr result (stretch self.new ≡ stretch self.old) }
    {
        let mut bytes = [0; 8];
        self.read_slice(&mut bytes[..n])?;
        Ok(self.endian().read_uint(&bytes[..n]))
    }

    /// Reads the bytes before the next zero byte, and the zero.
    fn read_null_terminated_slice(&mut self) -> Result<Self>
        ensures read { ReadsAs stretch result (string_at (stretch self.old)) (stretch self.new) }
        ensures unchanged { OnErr result (stretch self.new ≡ stretch self.old) }
    {
        let len = self.find(0)?;
        let string = self.split(len)?;
        self.skip(Self::Offset::from_u8(1))?;
        Ok(string)
    }

    /// Reads an initial length (DWARF 5, 7.2.2 and 7.4). Fails with `UnknownReservedLength` if the first
    /// four bytes are a reserved value, and with `UnsupportedOffset` if the offset type is too small.
    fn read_initial_length(&mut self) -> Result<(Self::Offset, Format)>
        ensures read { ReadsAs (length_shown Self.Offset.value) result
            (initial_length_at Self.Offset.limit (stretch self.old)) (stretch self.new) }
        ensures refused { OnErr result (stretch self.new
            ≡ left_by_initial_length (number_at 4 (stretch self.old)) (stretch self.old)) }
    {
        let length = self.read_u32()?;
        if length < 0xffff_fff0 {
            return Ok((Self::Offset::from_u64(u64::from(length))?, Format::Dwarf32));
        }
        if length != 0xffff_ffff {
            return Err(Error::UnknownReservedLength);
        }
        Ok((Self::Offset::from_u64(self.read_u64()?)?, Format::Dwarf64))
    }

    /// Reads the size of addresses in bytes: 1, 2, 4 or 8, else `UnsupportedAddressSize`.
    fn read_address_size(&mut self) -> Result<u8>
        ensures read { Reads result (address_size_at (stretch self.old)) (stretch self.new) }
        ensures refused { OnErr result
            (stretch self.new ≡ left_by (byte_at (stretch self.old)) (stretch self.old)) }
    {
        let size = self.read_u8()?;
        if !is_address_size(size) {
            return Err(Error::UnsupportedAddressSize(size));
        }
        Ok(size)
    }

    /// Reads an address of this size in bytes: 1, 2, 4 or 8, else `UnsupportedAddressSize`.
    fn read_address(&mut self, address_size: u8) -> Result<u64>
        ensures read { Reads result (address_at address_size (stretch self.old))
            (stretch self.new) }
        ensures unchanged { OnErr result (stretch self.new ≡ stretch self.old) }
    {
        if !is_address_size(address_size) {
            return Err(Error::UnsupportedAddressSize(address_size));
        }
        self.read_uint(address_size as usize)
    }

    /// Reads an offset of the format's size.
    fn read_word(&mut self, format: Format) -> Result<Self::Offset>
        ensures read { ReadsAs Self.Offset.value result
            (word_at Self.Offset.limit format (stretch self.old)) (stretch self.new) }
        ensures refused { OnErr result (stretch self.new
            ≡ left_by (number_at (word_size format) (stretch self.old)) (stretch self.old)) }
    {
        let word = match format {
            Format::Dwarf64 => self.read_u64()?,
            Format::Dwarf32 => u64::from(self.read_u32()?),
        };
        Self::Offset::from_u64(word)
    }

    /// Reads a length of the format's size.
    fn read_length(&mut self, format: Format) -> Result<Self::Offset>
        ensures read { ReadsAs Self.Offset.value result
            (word_at Self.Offset.limit format (stretch self.old)) (stretch self.new) }
        ensures refused { OnErr result (stretch self.new
            ≡ left_by (number_at (word_size format) (stretch self.old)) (stretch self.old)) }
    {
        self.read_word(format)
    }

    /// Reads an offset of the format's size.
    fn read_offset(&mut self, format: Format) -> Result<Self::Offset>
        ensures read { ReadsAs Self.Offset.value result
            (word_at Self.Offset.limit format (stretch self.old)) (stretch self.new) }
        ensures refused { OnErr result (stretch self.new
            ≡ left_by (number_at (word_size format) (stretch self.old)) (stretch self.old)) }
    {
        self.read_word(format)
    }

    /// Reads an offset of this size in bytes: 1, 2, 4 or 8, else `UnsupportedOffsetSize`.
    fn read_sized_offset(&mut self, size: u8) -> Result<Self::Offset>
        ensures read { ReadsAs Self.Offset.value result
            (sized_offset_at Self.Offset.limit size (stretch self.old)) (stretch self.new) }
        ensures refused { OnErr result (stretch self.new
            ≡ left_by (sized_number_at size (stretch self.old)) (stretch self.old)) }
    {
        if !is_address_size(size) {
            return Err(Error::UnsupportedOffsetSize(size));
        }
        Self::Offset::from_u64(self.read_uint(size as usize)?)
    }

    /// Skips a number of variable length.
    final fn skip_leb128(&mut self) -> Result<()>
    where
        Self: Sized,
        ensures moved { Moves result
            (behind_string (stretch self.old) (string_of (stretch self.old).bytes))
            (stretch self.new) }
        ensures refused { OnErr result
            (stretch self.new ≡ behind (size_of (stretch self.old)) (stretch self.old)) }
    {
        leb128::read::skip(self)
    }

    /// Reads an unsigned number of at most ten bytes.
    #[inline(always)]
    final fn read_uleb128(&mut self) -> Result<u64>
    where
        Self: Sized,
        ensures read { Reads result (unsigned_at (stretch self.old)) (stretch self.new) }
        ensures shorter { OnOk result (size_of (stretch self.new) < size_of (stretch self.old)) }
        ensures refused { OnErr result (stretch self.new ≡ left_by_leb128 10 (stretch self.old)) }
    {
        leb128::read::unsigned(self)
    }

    /// Reads an unsigned number of at most ten bytes that fits 32 bits, else `BadUnsignedLeb128`.
    final fn read_uleb128_u32(&mut self) -> Result<u32>
    where
        Self: Sized,
        ensures read { Reads result (unsigned_32_at (stretch self.old)) (stretch self.new) }
        ensures shorter { OnOk result (size_of (stretch self.new) < size_of (stretch self.old)) }
        ensures refused { OnErr result (stretch self.new
            ≡ left_by (unsigned_at (stretch self.old)) (left_by_leb128 10 (stretch self.old))) }
    {
        let value = leb128::read::unsigned(self)?;
        if value > 0xffff_ffff {
            return Err(Error::BadUnsignedLeb128);
        }
        Ok(value as u32)
    }

    /// Reads an unsigned number of at most three bytes that fits 16 bits.
    #[inline(always)]
    final fn read_uleb128_u16(&mut self) -> Result<u16>
    where
        Self: Sized,
        ensures read { Reads result (unsigned_16_at (stretch self.old)) (stretch self.new) }
        ensures shorter { OnOk result (size_of (stretch self.new) < size_of (stretch self.old)) }
        ensures refused { OnErr result (stretch self.new ≡ left_by_leb128 3 (stretch self.old)) }
    {
        leb128::read::u16(self)
    }

    /// Reads a signed number of at most ten bytes.
    #[inline(always)]
    final fn read_sleb128(&mut self) -> Result<i64>
    where
        Self: Sized,
        ensures read { Reads result (signed_at (stretch self.old)) (stretch self.new) }
        ensures shorter { OnOk result (size_of (stretch self.new) < size_of (stretch self.old)) }
        ensures refused { OnErr result (stretch self.new ≡ left_by_leb128 10 (stretch self.old)) }
    {
        leb128::read::signed(self)
    }
}

/// Whether addresses and offsets may have this size in bytes: 1, 2, 4 or 8.
#[inline(always)]
pub fn is_address_size(size: u8) -> bool
    ensures { result ≡ is_size size }
{
    matches!(size, 1 | 2 | 4 | 8)
}

/// Reads the next `N` bytes.
pub fn read_u8_array<const N: usize, R: Reader>(r: &mut R) -> Result<[u8; N]>
    ensures read { Reads result (bytes_at N (R.stretch r.old)) (R.stretch r.new) }
    ensures unchanged { OnErr result (R.stretch r.new ≡ R.stretch r.old) }
{
    let mut bytes = [0; N];
    r.read_slice(&mut bytes)?;
    Ok(bytes)
}
