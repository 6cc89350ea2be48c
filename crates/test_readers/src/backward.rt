//! A reader whose bytes lie otherwise than an `EndianSlice`'s.

ghost use Rattle.std.specs.Prelude.{◌≡◌, ◌<◌, ◌+◌, ◌^◌, ◌==◌, IfErr, IfOk, length, position, reverse};
ghost use Rattle.dwarf_constants.specs.declared.error.Error.TheVariants.{OutOfMemory};
ghost use Rattle.dwarf_readers.specs.Stretch.{ends_at};

use dwarf_constants::{Error, ReaderOffsetId, Result};
use dwarf_readers::{Endianity, Reader, RunTimeEndian};
use std::alloc::Global;
use std::borrow::{CowSlice, CowStr};

/// Bytes that are stored backward: the next byte is the last that is stored. No piece of a section is
/// in memory as it is read, so nothing can be borrowed.
#[derive(Debug, Clone, Copy)]
pub struct Backward<'a> {
    stored: &'a [u8],
    endian: RunTimeEndian,
    first: u64,
    ghost small: { length stored.now < 2 ^ 32 },
    ghost fits: { first + length stored.now < 2 ^ 64 },
}

impl<'a> Backward<'a> {
    /// A part of a section, whose first byte is at this offset and stored last.
    pub fn new_at(stored: &'a [u8], endian: RunTimeEndian, first: u64) -> Backward<'a>
        requires small { length stored.now < 2 ^ 32 }
        requires fits { first + length stored.now < 2 ^ 64 }
        ensures { ⟦<Backward<'a> as Reader>⟧.stretch result ≡ record {
          bytes = reverse stored.now;
          offset = first;
          big = ⟦<RunTimeEndian as Endianity>⟧.is_big endian;
        } }
    {
        Backward {
            stored,
            endian,
            first,
        }
    }

    // The bytes in the order of the section.
    fn forward(&self, alloc: Global) -> Result<Vec<u8>>
        ensures bytes { IfOk result (λ v. v.items ≡ reverse self.now.stored.now) }
        ensures memory { IfErr result (λ e. e ≡ OutOfMemory) }
    {
        match self.stored.iter().rev().copied().collect(alloc) {
            Ok(bytes) => Ok(bytes),
            Err(_) => Err(Error::OutOfMemory),
        }
    }

    // How many bytes are left after the next `len`, if there are as many.
    fn rest(&self, len: usize) -> Result<usize>
        ensures rest { IfOk result (λ rest. rest + len ≡ length self.now.stored.now) }
        ensures refused { IfErr result (λ e.
            (length self.now.stored.now < len) × (e ≡ ends_at self.now.first)) }
    {
        if self.stored.len() < len {
            return Err(Error::UnexpectedEof(ReaderOffsetId(self.first)));
        }
        Ok(self.stored.len() - len)
    }

    // How many bytes are before the first of this value.
    fn before(&self, byte: u8) -> Option<usize>
        ensures { result ≡ position (λ b. b == byte) (reverse self.now.stored.now) }
    {
        self.stored.iter().rev().position(|b| *b == byte)
    }
}

impl Reader for Backward<'_> {
    type Endian = RunTimeEndian;

    type Offset = u32;

    ghost stretch = { λ s. record {
      bytes = reverse s.stored.now;
      offset = s.first;
      big = ⟦<RunTimeEndian as Endianity>⟧.is_big s.endian;
    } };

    fn endian(&self) -> RunTimeEndian {
        self.endian
    }

    fn len(&self) -> u32 {
        self.stored.len() as u32
    }

    fn empty(&mut self) {
        self.stored = &[];
    }

    #[tactic(auto, using(crate::proofs::Reversed::truncated))]
    fn truncate(&mut self, len: u32) -> Result<()> {
        let rest = self.rest(len as usize)?;
        self.stored = &self.stored[rest..];
        Ok(())
    }

    fn offset_from(&self, base: &Self) -> u32 {
        (self.first - base.first) as u32
    }

    fn offset_id(&self) -> ReaderOffsetId {
        ReaderOffsetId(self.first)
    }

    fn lookup_offset_id(&self, id: ReaderOffsetId) -> Option<u32> {
        if id.0 < self.first || self.first + (self.stored.len() as u64) < id.0 {
            return None;
        }
        Some((id.0 - self.first) as u32)
    }

    fn find(&self, byte: u8) -> Result<u32> {
        match self.before(byte) {
            Some(len) => Ok(len as u32),
            None => Err(Error::UnexpectedEof(ReaderOffsetId(self.first))),
        }
    }

    #[tactic(auto, using(crate::proofs::Reversed::skipped))]
    fn skip(&mut self, len: u32) -> Result<()> {
        let rest = self.rest(len as usize)?;
        *self = Backward {
            stored: &self.stored[..rest],
            endian: self.endian,
            first: self.first + u64::from(len),
        };
        Ok(())
    }

    fn split(&mut self, len: u32) -> Result<Self> {
        let mut part = *self;
        part.truncate(len)?;
        self.skip(len)?;
        Ok(part)
    }

    fn to_slice(&self, alloc: Global) -> Result<CowSlice<'_, u8, Global>> {
        Ok(CowSlice::Owned(self.forward(alloc)?))
    }

    fn to_string(&self, alloc: Global) -> Result<CowStr<'_, Global>> {
        let bytes = self.forward(alloc)?;
        let Ok(text) = str::from_utf8(bytes.as_slice()) else {
            return Err(Error::BadUtf8);
        };
        match String::from_str(alloc, text) {
            Ok(text) => Ok(CowStr::Owned(text)),
            Err(_) => Err(Error::OutOfMemory),
        }
    }

    fn to_string_lossy(&self, alloc: Global) -> Result<CowStr<'_, Global>> {
        let bytes = self.forward(alloc)?;
        match String::from_utf8_lossy(alloc, bytes.as_slice()) {
            Ok(text) => Ok(CowStr::Owned(text)),
            Err(_) => Err(Error::OutOfMemory),
        }
    }

    fn read_slice(&mut self, buf: &mut [u8]) -> Result<()> {
        let Ok(len) = u32::try_from(buf.len()) else {
            return Err(Error::UnexpectedEof(self.offset_id()));
        };
        let part = self.split(len)?;
        buf.copy_from_slice(part.stored);
        buf.reverse();
        Ok(())
    }
}
