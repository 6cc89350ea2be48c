//! The bytes of a recording, which are read in parts.

use anyhow::Result;
use dwarf_endianity::{Endianity, LittleEndian};
use std::alloc::{AllocError, Global};
use std::fs::File;
use std::io::Read;
use std::os::unix::fs::FileExt;
use std::{fs, io};

// How many parts are kept: records of several processors are in turns.
const PARTS: usize = 8;

// How much more is read where a part ends than elsewhere.
const GROWTH: u64 = 8;

// The greatest size of a record, and the size of its header.
const MOST_BYTES: u64 = 1 << 16;

const HEADER_SIZE: u64 = 8;

// A part of the bytes.
#[derive(Drop)]
struct Part {
    // Where it begins.
    start: u64,
    // Its bytes, and what is left of the largest part before, so that no byte is made twice.
    room: Vec<u8>,
    // How many bytes it has.
    known: usize,
}

/// The bytes of a recording, of which some parts are in memory: all, if it isn't a regular file.
#[derive(Drop)]
pub(crate) struct Source {
    file: Option<File>,
    size: u64,
    parts: Vec<Part>,
    // The part that was used last, and the one that another is read in place of.
    last: usize,
    oldest: usize,
}

impl Part {
    // No bytes.
    fn empty(alloc: Global) -> Self {
        Part {
            start: 0,
            room: Vec::new(alloc),
            known: 0,
        }
    }

    // How many bytes it has from an offset on, if it has that or ends there.
    fn left_from(&self, offset: u64) -> Option<u64> {
        let at = offset.checked_sub(self.start)?;
        (self.known as u64).checked_sub(at)
    }

    // Whether it has so many bytes from an offset on.
    fn has(&self, offset: u64, size: u64) -> bool {
        match self.left_from(offset) {
            Some(left) => size <= left,
            None => false,
        }
    }

    // Whether an offset is in it or where it ends.
    fn touches(&self, offset: u64) -> bool {
        self.known > 0 && self.left_from(offset).is_some()
    }

    // Reads so many bytes from an offset on in place of those that it has.
    fn read(&mut self, file: &File, offset: u64, size: u64) -> io::Result<()> {
        let size = size as usize;
        self.known = 0;
        if self.room.len() < size {
            self.room.resize(size, 0)?;
        }
        file.read_exact_at(&mut self.room[..size], offset)?;
        self.start = offset;
        self.known = size;
        Ok(())
    }

    // Its bytes from an offset on, as far as it has so many.
    fn bytes(&self, offset: u64, size: u64) -> &[u8] {
        let part = &self.room[..self.known.min(self.room.len())];
        let start = offset.saturating_sub(self.start).min(part.len() as u64) as usize;
        let rest = &part[start..];
        &rest[..size.min(rest.len() as u64) as usize]
    }
}

// Parts without bytes.
fn empty_parts(alloc: Global) -> Result<Vec<Part>, AllocError> {
    let mut parts = Vec::with_capacity(alloc, PARTS)?;
    for _ in 0..PARTS {
        parts.push(Part::empty(alloc))?;
    }
    Ok(parts)
}

// The first part that has so many bytes from an offset on.
fn part_with(parts: &[Part], offset: u64, size: u64) -> Option<usize> {
    parts.iter().position(|part| part.has(offset, size))
}

// The first part that an offset is in, or that ends there.
fn part_before(parts: &[Part], offset: u64) -> Option<usize> {
    parts.iter().position(|part| part.touches(offset))
}

impl Source {
    /// The bytes of the file at a path.
    pub(crate) fn open(rt: &HostRuntime, path: &str) -> Result<Self> {
        let metadata = fs::metadata(rt, path)?;
        let mut file = File::open(rt, path)?;
        let mut source = Source {
            file: None,
            size: metadata.len(),
            parts: empty_parts(rt.alloc())?,
            last: 0,
            oldest: 0,
        };
        if metadata.is_file() {
            source.file = Some(file);
            return Ok(source);
        }
        let mut room = Vec::new(rt.alloc());
        let known = file.read_to_end(&mut room)?;
        source.size = known as u64;
        source.parts.push(Part {
            start: 0,
            room,
            known,
        })?;
        source.last = PARTS;
        Ok(source)
    }

    /// How many bytes there are.
    pub(crate) fn size(&self) -> u64 {
        self.size
    }

    // Whether the part that was used last has so many bytes from an offset on.
    fn is_in_last(&self, offset: u64, size: u64) -> bool {
        match self.parts.get(self.last) {
            Some(part) => part.has(offset, size),
            None => false,
        }
    }

    // Reads so many bytes from an offset on into a part.
    fn read_into(&mut self, index: usize, offset: u64, size: u64) -> io::Result<()> {
        if let (Some(file), Some(part)) = (&self.file, self.parts.get_mut(index)) {
            part.read(file, offset, size)?;
        }
        self.last = index;
        Ok(())
    }

    // Reads so many bytes from an offset on, and if it can `ahead` of them, or more where a part ends.
    fn read(&mut self, offset: u64, size: u64, ahead: u64) -> io::Result<()> {
        let left = self.size.saturating_sub(offset);
        if let Some(index) = part_before(self.parts.as_slice(), offset) {
            let ahead = ahead.saturating_mul(GROWTH);
            return self.read_into(index, offset, ahead.max(size).min(left));
        }
        let index = self.oldest % PARTS;
        self.oldest = index + 1;
        self.read_into(index, offset, ahead.max(size).min(left))
    }

    // Takes care that so many bytes from an offset on are in the part that was used last.
    fn seek(&mut self, offset: u64, size: u64, ahead: u64) -> io::Result<()> {
        if self.is_in_last(offset, size) {
            return Ok(());
        }
        if let Some(index) = part_with(self.parts.as_slice(), offset, size) {
            self.last = index;
            return Ok(());
        }
        self.read(offset, size, ahead)
    }

    /// The bytes from an offset on: so many, or all that there are. If they aren't in memory, `ahead` of them are read, and more if those
    /// before them are.
    pub(crate) fn bytes(&mut self, offset: u64, size: u64, ahead: u64) -> io::Result<&[u8]> {
        let size = size.min(self.size.saturating_sub(offset));
        self.seek(offset, size, ahead)?;
        match self.parts.get(self.last) {
            Some(part) => Ok(part.bytes(offset, size)),
            None => Ok(&[]),
        }
    }

    /// The bytes of the record at an offset, or if there are fewer all that there are. What is read is as `bytes` says.
    pub(crate) fn record_bytes(&mut self, offset: u64, ahead: u64) -> io::Result<&[u8]> {
        let header = self.bytes(offset, HEADER_SIZE, ahead)?;
        let size = if header.len() < HEADER_SIZE as usize {
            MOST_BYTES
        } else {
            u64::from(LittleEndian.read_u16(&header[6..]))
        };
        self.bytes(offset, size, ahead)
    }
}
