//! `.debug_str`, `.debug_line_str` and `.debug_str_offsets`.

ghost use Rattle.std.specs.Prelude.{◌≡◌, ◌<◌, ◌+◌, ◌*◌};
ghost use Rattle.dwarf_constants.specs.declared.common.SectionId.TheVariants as id;
ghost use Rattle.dwarf_endianity.specs.Offset.{offset_below};
ghost use Rattle.dwarf_endianity.specs.Answers.{Gives};
ghost use Rattle.dwarf_readers.specs.Stretch.{whole};

use crate::section::Section;
use dwarf_constants::{Error, Format, Result, SectionId};
use dwarf_offsets::{DebugLineStrOffset, DebugStrOffset, DebugStrOffsetsIndex};
use dwarf_readers::{DebugStrOffsetsBase, EndianSlice, Endianity, Reader, ReaderOffset};
use std::marker::Model;

/// The strings of `.debug_str` (DWARF 5, 7.5.5, class string).
#[derive(Debug, Clone, Copy)]
pub struct DebugStr<R> {
    section: R,
}

impl<R> Model for DebugStr<R> {
    ghost Value = { R };

    ghost view = { λ s. s.section };

    ghost inverse = { λ r. record { section = r } };
}

impl<'a, E: Endianity> DebugStr<EndianSlice<'a, E>> {
    ghost use Rattle.dwarf_readers.specs.EndianSlice.{stretch_of};

    /// The section of these bytes.
    pub fn new(debug_str_section: &'a [u8], endian: E) -> Self
        ensures { stretch_of E.is_big result ≡ whole (E.is_big endian) debug_str_section.now }
    {
        Self::from(EndianSlice::new(debug_str_section, endian))
    }
}

impl<R: Reader> DebugStr<R> {
    ghost use Rattle.dwarf_read_core.specs.Sections.{string_in};

    /// The string at an offset, without its zero byte.
    pub fn get_str(&self, offset: DebugStrOffset<R::Offset>) -> Result<R>
        ensures { Gives R.stretch result
            (string_in (R.Offset.value offset.0) (R.stretch self.now)) }
    {
        let mut reader = self.section;
        reader.skip(offset.0)?;
        reader.read_null_terminated_slice()
    }
}

impl<T> DebugStr<T> {
    ghost use Rattle.std.specs.Fn.{FnOnceReturnsAt, FnOnceTakesAt};

    /// The section over what `borrow` gives for this one's.
    pub fn borrow<'a, R, F: FnOnce(&'a T) -> R>(&'a self, borrow: F) -> DebugStr<R>
        requires { FnOnceTakesAt F.FnOnce borrow self.now }
        ensures { FnOnceReturnsAt F.FnOnce borrow self.now result }
    {
        DebugStr {
            section: borrow(&self.section),
        }
    }
}

impl<R> From<R> for DebugStr<R> {
    ghost from_gives = { λ r s. s ≡ r };

    fn from(section: R) -> DebugStr<R> {
        DebugStr { section }
    }
}

impl<R: Reader> Section<R> for DebugStr<R> {
    ghost which = { id.DebugStr };

    ghost section = { λ s. s };

    ghost of = { λ r s gives. gives };

    fn id() -> SectionId {
        SectionId::DebugStr
    }

    fn reader(&self) -> &R {
        &self.section
    }
}

/// The strings of `.debug_line_str` (DWARF 5, 7.5.5, class string).
#[derive(Debug, Clone, Copy)]
pub struct DebugLineStr<R> {
    section: R,
}

impl<R> Model for DebugLineStr<R> {
    ghost Value = { R };

    ghost view = { λ s. s.section };

    ghost inverse = { λ r. record { section = r } };
}

impl<'a, E: Endianity> DebugLineStr<EndianSlice<'a, E>> {
    ghost use Rattle.dwarf_readers.specs.EndianSlice.{stretch_of};

    /// The section of these bytes.
    pub fn new(debug_line_str_section: &'a [u8], endian: E) -> Self
        ensures { stretch_of E.is_big result ≡ whole (E.is_big endian) debug_line_str_section.now }
    {
        Self::from(EndianSlice::new(debug_line_str_section, endian))
    }
}

impl<R: Reader> DebugLineStr<R> {
    ghost use Rattle.dwarf_read_core.specs.Sections.{string_in};

    /// The string at an offset, without its zero byte.
    pub fn get_str(&self, offset: DebugLineStrOffset<R::Offset>) -> Result<R>
        ensures { Gives R.stretch result
            (string_in (R.Offset.value offset.0) (R.stretch (self.now))) }
    {
        let mut reader = self.section;
        reader.skip(offset.0)?;
        reader.read_null_terminated_slice()
    }
}

impl<T> DebugLineStr<T> {
    ghost use Rattle.std.specs.Fn.{FnOnceReturnsAt, FnOnceTakesAt};

    /// The section over what `borrow` gives for this one's.
    pub fn borrow<'a, R, F: FnOnce(&'a T) -> R>(&'a self, borrow: F) -> DebugLineStr<R>
        requires { FnOnceTakesAt F.FnOnce borrow (self.now) }
        ensures { FnOnceReturnsAt F.FnOnce borrow (self.now) result }
    {
        DebugLineStr {
            section: borrow(&self.section),
        }
    }
}

impl<R> From<R> for DebugLineStr<R> {
    ghost from_gives = { λ r s. s ≡ r };

    fn from(section: R) -> DebugLineStr<R> {
        DebugLineStr { section }
    }
}

impl<R: Reader> Section<R> for DebugLineStr<R> {
    ghost which = { id.DebugLineStr };

    ghost section = { λ s. s };

    ghost of = { λ r s gives. gives };

    fn id() -> SectionId {
        SectionId::DebugLineStr
    }

    fn reader(&self) -> &R {
        &self.section
    }
}

// The offset of an entry of this size, from a base on.
pub(crate) fn entry_offset<O: ReaderOffset>(base: O, index: O, size: u8) -> Result<O>
    ensures { Gives O.value result (offset_below O.limit (O.value base + O.value index * size)) }
{
    let Some(behind) = index.into_u64().checked_mul(u64::from(size)) else {
        return Err(Error::UnsupportedOffset);
    };
    match base.into_u64().checked_add(behind) {
        Some(offset) => O::from_u64(offset),
        None => Err(Error::UnsupportedOffset),
    }
}

/// The string offsets of `.debug_str_offsets` (DWARF 5, 7.26).
#[derive(Debug, Clone, Copy)]
pub struct DebugStrOffsets<R> {
    section: R,
}

impl<R> Model for DebugStrOffsets<R> {
    ghost Value = { R };

    ghost view = { λ s. s.section };

    ghost inverse = { λ r. record { section = r } };
}

impl<R: Reader> DebugStrOffsets<R> {
    ghost use Rattle.dwarf_read_core.specs.Sections.{string_offset_in};

    /// The offset in `.debug_str` of the string of this index.
    pub fn get_str_offset(
        &self,
        format: Format,
        base: DebugStrOffsetsBase<R::Offset>,
        index: DebugStrOffsetsIndex<R::Offset>,
    ) -> Result<DebugStrOffset<R::Offset>>
        ensures { Gives (λ offset. R.Offset.value offset.0) result (string_offset_in R.Offset.limit
            format (R.Offset.value base.0) (R.Offset.value index.0) (R.stretch self.now)) }
    {
        let mut reader = self.section;
        reader.skip(entry_offset(base.0, index.0, format.word_size())?)?;
        Ok(DebugStrOffset(reader.read_offset(format)?))
    }
}

impl<T> DebugStrOffsets<T> {
    ghost use Rattle.std.specs.Fn.{FnOnceReturnsAt, FnOnceTakesAt};

    /// The section over what `borrow` gives for this one's.
    pub fn borrow<'a, R, F: FnOnce(&'a T) -> R>(&'a self, borrow: F) -> DebugStrOffsets<R>
        requires { FnOnceTakesAt F.FnOnce borrow self.now }
        ensures { FnOnceReturnsAt F.FnOnce borrow self.now result }
    {
        DebugStrOffsets {
            section: borrow(&self.section),
        }
    }
}

impl<R> From<R> for DebugStrOffsets<R> {
    ghost from_gives = { λ r s. s ≡ r };

    fn from(section: R) -> DebugStrOffsets<R> {
        DebugStrOffsets { section }
    }
}

impl<R: Reader> Section<R> for DebugStrOffsets<R> {
    ghost which = { id.DebugStrOffsets };

    ghost section = { λ s. s };

    ghost of = { λ r s gives. gives };

    fn id() -> SectionId {
        SectionId::DebugStrOffsets
    }

    fn reader(&self) -> &R {
        &self.section
    }
}
