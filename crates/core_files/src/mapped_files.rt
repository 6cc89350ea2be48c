//! `NT_FILE`: the files that are mapped into a process.

ghost use Rattle.std.specs.Prelude.{◌≡◌, ◌≤◌, ◌<◌, ◌+◌, length, position, take, drop, IfOk, IfErr, OnErr, OnSome, Ok, Err};
ghost use Rattle.core_files.specs.MappedFiles.{file_count, page_size, row_at, file_named, name_length, mapped_files};
ghost use Rattle.core_files.specs.Refusals.{result_and_then};

use crate::bytes::{bytes_after, first_bytes, u64_at};
use crate::error::DescriptorError;
use crate::memory_range::MemoryRange;

/// A file, or a part of one, that is mapped into a process.
#[derive(Debug, Clone, Copy, PartialEq, Eq)]
pub struct MappedFile<'a> {
    /// The first address.
    pub start: u64,
    /// The address after the last.
    pub end: u64,
    /// Where in the file the byte at the first address is, in bytes.
    pub offset: u64,
    /// The file's name.
    pub name: &'a [u8],
}

impl MappedFile<'_> {
    ghost use Rattle.core_files.specs.FileViews.{mapping_of, mapped_range};
    ghost use Rattle.core_files.specs.RangeViews.{range_seen};

    /// The addresses of the mapping, with the bytes of the whole file that are mapped there.
    pub fn range<'b>(&self, file: &'b [u8]) -> MemoryRange<'b>
        ensures { range_seen result ≡ mapped_range (mapping_of self.now) file.now }
    {
        let offset = self.offset.min(file.len() as u64) as usize;
        MemoryRange {
            address: self.start,
            size: self.end.saturating_sub(self.start),
            zeros: 0,
            bytes: bytes_after(file, offset),
            lost: 0,
            executable: false,
        }
    }
}

// Where the rows begin, and the size of each.
const ROWS_OFFSET: usize = 16;

const ROW_SIZE: usize = 24;

/// The files of an `NT_FILE` that are left, one after the other.
#[derive(Clone, Copy, Debug)]
pub struct MappedFiles<'a> {
    pub(crate) descriptor: &'a [u8],
    pub(crate) number: u64,
    pub(crate) count: u64,
    pub(crate) names: &'a [u8],
    ghost header: { 16 ≤ length descriptor.now },
    ghost rows: { row_at count ≤ length descriptor.now },
    ghost passed: { number ≤ count },
}

// The length of the first of some names, without the 0 that ends it.
pub(crate) fn name_length(names: &[u8]) -> Option<usize>
    ensures { result ≡ name_length names.now }
{
    names.iter().position(|byte| *byte == 0)
}

impl<'a> MappedFiles<'a> {
    ghost use Rattle.core_files.specs.FileViews.{mapping_of, count_left, files_left, next_and_left};

    /// The files of the descriptor of an `NT_FILE`. Fails with `FileTableTruncated`.
    pub fn new(descriptor: &'a [u8]) -> Result<Self, DescriptorError>
        ensures ok { IfOk result (λ files. files_left files ≡ mapped_files descriptor.now) }
        ensures err { IfErr result (λ e. mapped_files descriptor.now ≡ Err e) }
    {
        if descriptor.len() < ROWS_OFFSET {
            return Err(DescriptorError::FileTableTruncated);
        }
        let count = u64_at(descriptor, 0);
        if count > ((descriptor.len() - ROWS_OFFSET) / ROW_SIZE) as u64 {
            return Err(DescriptorError::FileTableTruncated);
        }
        Ok(MappedFiles {
            descriptor,
            number: 0,
            count,
            names: bytes_after(descriptor, ROWS_OFFSET + ROW_SIZE * count as usize),
        })
    }

    // The next file, of this name.
    fn file_named(&self, name: &'a [u8]) -> Result<MappedFile<'a>, DescriptorError>
        requires { self.now.number < self.now.count }
        ensures ok { IfOk result (λ file. file_named self.now.descriptor.now self.now.number name.now ≡ Ok (mapping_of file)) }
        ensures err { IfErr result (λ e. file_named self.now.descriptor.now self.now.number name.now ≡ Err e) }
    {
        let row = ROWS_OFFSET + ROW_SIZE * self.number as usize;
        let pages = u64_at(self.descriptor, row + 16);
        let Some(offset) = pages.checked_mul(u64_at(self.descriptor, 8)) else {
            return Err(DescriptorError::FileOffsetTooLarge(self.number));
        };
        Ok(MappedFile {
            start: u64_at(self.descriptor, row),
            end: u64_at(self.descriptor, row + 8),
            offset,
            name,
        })
    }

    /// The next file, or `None` after the last one. Fails with `FileNameUnterminated` or `FileOffsetTooLarge` and the file's
    /// number, and then changes nothing, so that the next call fails likewise.
    pub fn next(&mut self) -> Result<Option<MappedFile<'a>>, DescriptorError>
        ensures ok { IfOk result (λ next. files_left self.old ≡ next_and_left next (files_left self.new)) }
        ensures err { IfErr result (λ e. files_left self.old ≡ Err e) }
        ensures stays { OnErr result (self.new ≡ self.old) }
        ensures less { IfOk result (λ next. OnSome next (count_left self.new < count_left self.old)) }
    {
        if self.number == self.count {
            return Ok(None);
        }
        let Some(length) = name_length(self.names) else {
            return Err(DescriptorError::FileNameUnterminated(self.number));
        };
        let file = self.file_named(first_bytes(self.names, length))?;
        self.names = bytes_after(self.names, length + 1);
        self.number += 1;
        Ok(Some(file))
    }
}
