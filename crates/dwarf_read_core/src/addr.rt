//! `.debug_addr` (DWARF 5, 7.27).

ghost use Rattle.std.specs.Prelude.{◌≡◌, ◌<◌, ◌+◌, ◌≤◌, length, Some, None, Ok, Err, OnOk};
ghost use Rattle.dwarf_constants.specs.declared.common.SectionId.TheVariants as id;
ghost use Rattle.dwarf_endianity.specs.Answers.{Gives};
ghost use Rattle.dwarf_read_core.specs.AddressSets.{set_encoding_at};
ghost use Rattle.dwarf_readers.specs.Stretch.{Reads};

use crate::section::Section;
use crate::str::entry_offset;
use dwarf_constants::{Encoding, Error, Format, Result, SectionId};
use dwarf_offsets::{DebugAddrBase, DebugAddrIndex, DebugAddrOffset};
use dwarf_readers::{Reader, ReaderOffset};
use std::marker::Model;

/// The sets of addresses of `.debug_addr` (DWARF 5, 7.27).
#[derive(Debug, Clone, Copy)]
pub struct DebugAddr<R> {
    section: R,
}

impl<R> Model for DebugAddr<R> {
    ghost Value = { R };

    ghost view = { λ s. s.section };

    ghost inverse = { λ r. record { section = r } };
}

impl<R: Reader> DebugAddr<R> {
    ghost use Rattle.dwarf_read_core.specs.AddressSets.{sets_in};
    ghost use Rattle.dwarf_read_core.specs.Sections.{address_in};

    /// The address of this index from a base on.
    pub fn get_address(
        &self,
        address_size: u8,
        base: DebugAddrBase<R::Offset>,
        index: DebugAddrIndex<R::Offset>,
    ) -> Result<u64>
        ensures { Gives (λ address. address) result (address_in R.Offset.limit address_size
            (R.Offset.value base.0) (R.Offset.value index.0) (R.stretch self.now)) }
    {
        let mut reader = self.section;
        reader.skip(entry_offset(base.0, index.0, address_size)?)?;
        reader.read_address(address_size)
    }

    /// The headers of the sets, in order.
    pub fn headers(&self) -> AddrHeaderIter<R>
        ensures { result ≡ sets_in R.Offset.limit (R.stretch self.now) }
    {
        // Every offset in the section fits the type of offsets, as its length does.
        let _len = self.section.len();
        AddrHeaderIter {
            input: self.section,
            offset: DebugAddrOffset(R::Offset::from_u8(0)),
        }
    }
}

impl<T> DebugAddr<T> {
    ghost use Rattle.std.specs.Fn.{FnOnceReturnsAt, FnOnceTakesAt};

    /// The section over what `borrow` gives for this one's.
    pub fn borrow<'a, R, F: FnOnce(&'a T) -> R>(&'a self, borrow: F) -> DebugAddr<R>
        requires { FnOnceTakesAt F.FnOnce borrow self.now }
        ensures { FnOnceReturnsAt F.FnOnce borrow self.now result }
    {
        DebugAddr {
            section: borrow(&self.section),
        }
    }
}

impl<R> From<R> for DebugAddr<R> {
    ghost from_gives = { λ r s. s ≡ r };

    fn from(section: R) -> DebugAddr<R> {
        DebugAddr { section }
    }
}

impl<R: Reader> Section<R> for DebugAddr<R> {
    ghost which = { id.DebugAddr };

    ghost section = { λ s. s };

    ghost of = { λ r s gives. gives };

    fn id() -> SectionId {
        SectionId::DebugAddr
    }

    fn reader(&self) -> &R {
        &self.section
    }
}

/// The headers of the sets that a section has left. After an error there is none.
#[derive(Debug, Drop)]
pub struct AddrHeaderIter<R: Reader> {
    // The bytes of the sets that are left.
    input: R,
    // The offset of the next set in the section.
    offset: DebugAddrOffset<R::Offset>,
}

impl<R: Reader> Model for AddrHeaderIter<R> {
    ghost use Rattle.std.specs.Prelude.{◌+◌, ◌<◌, List, Result, length};
    ghost use Rattle.dwarf_constants.specs.declared.error.Error.{Error};
    ghost use Rattle.dwarf_read_core.specs.AddressSets.{AddressSet, sets_left};

    ghost Value = { List (Result AddressSet Error) };

    ghost view = { λ i. sets_left R.Offset.limit
        (R.Offset.value i.offset.0 + length (R.stretch i.input).bytes) (R.stretch i.input) };

    ghost invariant = { λ i. R.Offset.value i.offset.0 + length (R.stretch i.input).bytes
        < R.Offset.limit };
}

impl<R: Reader> AddrHeaderIter<R> {
    ghost use Rattle.list_laws.specs.Items.{GivesNext};

    /// The next header, or `None` at the end of the section.
    pub fn next(&mut self) -> Result<Option<AddrHeader<R>>>
        ensures { GivesNext (λ set. set) result self.old self.new }
    {
        if self.input.is_empty() {
            return Ok(None);
        }
        let before = self.input.len();
        match AddrHeader::parse(&mut self.input, self.offset) {
            Ok(header) => {
                let offset = offset_behind(self.offset.0, before, self.input.len());
                self.offset = DebugAddrOffset(offset);
                Ok(Some(header))
            }
            Err(e) => {
                self.input.empty();
                Err(e)
            }
        }
    }
}

impl<R: Reader> Iterator for AddrHeaderIter<R> {
    ghost use Rattle.std.specs.Iterator.{YieldsFirst, item_count};

    type Item = Result<AddrHeader<R>>;

    ghost next_gives = { YieldsFirst (λ sets. sets) };

    ghost remaining = { item_count (λ sets. sets) };

    fn next(&mut self) -> Option<Result<AddrHeader<R>>> {
        AddrHeaderIter::next(self).transpose()
    }
}

// The offset after a read, by how many bytes were left before it and after it.
fn offset_behind<O: ReaderOffset>(offset: O, before: O, after: O) -> O
    requires less { O.value after ≤ O.value before }
    requires fits { O.value offset + O.value before < O.limit }
    ensures { O.value result + O.value after ≡ O.value offset + O.value before }
{
    match before.checked_sub(after) {
        Some(read) => offset.wrapping_add(read),
        None => offset,
    }
}

// Reads the encoding of the addresses in a set of this format.
#[inline(always)]
fn read_encoding<R: Reader>(input: &mut R, format: Format) -> Result<Encoding>
    ensures { Reads result (set_encoding_at format (R.stretch input.old)) (R.stretch input.new) }
{
    let version = input.read_u16()?;
    if version != 5 {
        return Err(Error::UnknownVersion(u64::from(version)));
    }
    let address_size = input.read_address_size()?;
    let segment_size = input.read_u8()?;
    if segment_size != 0 {
        return Err(Error::UnsupportedSegmentSize);
    }
    Ok(Encoding {
        address_size,
        format,
        version,
    })
}

/// A set of addresses.
#[derive(Debug, Drop)]
pub struct AddrHeader<R: Reader> {
    offset: DebugAddrOffset<R::Offset>,
    encoding: Encoding,
    length: R::Offset,
    // The bytes of the addresses.
    entries: R,
}

impl<R: Reader> Model for AddrHeader<R> {
    ghost use Rattle.dwarf_read_core.specs.AddressSets.{AddressSet};

    ghost Value = { AddressSet };

    ghost view = { λ h. record {
      offset = R.Offset.value h.offset.0;
      length = R.Offset.value h.length;
      encoding = h.encoding;
      addresses = R.stretch h.entries;
    } };
}

impl<R: Reader> AddrHeader<R> {
    ghost use Rattle.dwarf_read_core.specs.AddressSets.{addresses_of, set_at};
    ghost use Rattle.dwarf_read_core.specs.AddressViews.{addresses_left};

    // Reads the set at this offset.
    fn parse(input: &mut R, offset: DebugAddrOffset<R::Offset>) -> Result<AddrHeader<R>>
        ensures read { Reads result (set_at R.Offset.limit (R.Offset.value offset.0)
            (R.stretch input.old)) (R.stretch input.new) }
        ensures less { OnOk result
            (length (R.stretch input.new).bytes < length (R.stretch input.old).bytes) }
    {
        let (length, format) = input.read_initial_length()?;
        let mut entries = input.split(length)?;
        let encoding = read_encoding(&mut entries, format)?;
        Ok(AddrHeader {
            offset,
            encoding,
            length,
            entries,
        })
    }

    /// The offset of the set in the section.
    pub fn offset(&self) -> DebugAddrOffset<R::Offset>
        ensures { R.Offset.value result.0 ≡ self.now.offset }
    {
        self.offset
    }

    /// The length of the set as its header gives it, in bytes.
    pub fn length(&self) -> R::Offset
        ensures { R.Offset.value result ≡ self.now.length }
    {
        self.length
    }

    /// The size of the set's addresses, its format and its version.
    pub fn encoding(&self) -> Encoding
        ensures { result ≡ self.now.encoding }
    {
        self.encoding
    }

    /// The addresses of the set, in order.
    pub fn entries(&self) -> AddrEntryIter<R>
        ensures { addresses_left R.stretch result ≡ addresses_of self.now }
    {
        AddrEntryIter {
            input: self.entries,
            encoding: self.encoding,
        }
    }
}

/// The addresses that a set has left. After an error there is none.
#[derive(Debug, Clone, Copy)]
pub struct AddrEntryIter<R> {
    // The bytes of the addresses that are left.
    input: R,
    encoding: Encoding,
}

impl<R: Reader> AddrEntryIter<R> {
    ghost use Rattle.list_laws.specs.Items.{GivesNext};
    ghost use Rattle.dwarf_read_core.specs.AddressViews.{addresses_left};

    /// The next address, or `None` at the end of the set.
    pub fn next(&mut self) -> Result<Option<u64>>
        ensures { GivesNext (λ address. address) result
            (addresses_left R.stretch self.old) (addresses_left R.stretch self.new) }
    {
        if self.input.is_empty() {
            return Ok(None);
        }
        match self.input.read_address(self.encoding.address_size) {
            Ok(address) => Ok(Some(address)),
            Err(e) => {
                self.input.empty();
                Err(e)
            }
        }
    }
}

impl<R: Reader> Iterator for AddrEntryIter<R> {
    ghost use Rattle.std.specs.Iterator.{YieldsFirst, item_count};
    ghost use Rattle.dwarf_read_core.specs.AddressViews.{addresses_left};

    type Item = Result<u64>;

    ghost next_gives = { YieldsFirst (addresses_left R.stretch) };

    ghost remaining = { item_count (addresses_left R.stretch) };

    fn next(&mut self) -> Option<Result<u64>> {
        AddrEntryIter::next(self).transpose()
    }
}
