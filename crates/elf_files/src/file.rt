//! A file.

ghost use Rattle.std.specs.Prelude.{◌≡◌, ◌<◌, ◌≤◌, ◌+◌, ◌^◌, length, Ok, Err, IfOk, IfErr, SomeIff};
ghost use Rattle.elf_files.specs.Notes.{segment_notes};
ghost use Rattle.elf_files.specs.Header.{header_of};
ghost use Rattle.elf_files.specs.Segments.{segment_at, segment_bytes, segment_table_end};
ghost use Rattle.elf_files.specs.SegmentViews.{IsSegmentTableCut, IsSegmentTableOf};

use crate::bytes::{bytes_at, has_table};
use crate::error::ElfError;
use crate::header::{FileKind, Header, Machine, read_header};
use crate::note::Notes;
use crate::segment::Segment;
use crate::segment_table::SegmentTable;

/// An ELF file: its bytes, and what its header says.
#[derive(Debug, Clone, Copy)]
pub struct ElfFile<'a> {
    /// All bytes of the file.
    pub bytes: &'a [u8],
    /// What its header says.
    pub header: Header,
}

impl<'a> ElfFile<'a> {
    /// The file with these bytes. Its tables may be cut off: that is refused by what reads them.
    pub fn parse(bytes: &'a [u8]) -> Result<Self, ElfError>
        ensures ok { IfOk result (λ file. header_of bytes.now ≡ Ok file.header) }
        ensures same_bytes { IfOk result (λ file. file.bytes.now ≡ bytes.now) }
        ensures err { IfErr result (λ e. header_of bytes.now ≡ Err e) }
    {
        let header = read_header(bytes)?;
        Ok(ElfFile { bytes, header })
    }

    /// The machine.
    pub fn machine(&self) -> Machine
        ensures { result ≡ self.now.header.machine }
    {
        self.header.machine
    }

    /// What the file is.
    pub fn kind(&self) -> FileKind
        ensures { result ≡ self.now.header.kind }
    {
        self.header.kind
    }

    /// The address where the program starts, 0 if there is none.
    pub fn entry(&self) -> u64
        ensures { result ≡ self.now.header.entry }
    {
        self.header.entry
    }

    /// How many segments there are.
    pub fn segment_count(&self) -> u32
        ensures { result ≡ self.now.header.segment_count }
    {
        self.header.segment_count
    }

    /// Where the program headers end, an offset in the file. None if that is no number of 64 bits.
    pub fn segment_table_end(&self) -> Option<u64>
        ensures { SomeIff result (segment_table_end self.now.header < 2 ^ 64) (segment_table_end self.now.header) }
    {
        let size = 56 * u64::from(self.header.segment_count);
        self.header.segment_table.checked_add(size)
    }

    // The table of segments.
    pub(crate) fn segment_table(&self) -> Result<SegmentTable<'a>, ElfError>
        ensures ok { IfOk result (IsSegmentTableOf self.now.bytes.now self.now.header) }
        ensures err { IfErr result (IsSegmentTableCut self.now.bytes.now self.now.header) }
    {
        let offset = self.header.segment_table;
        let count = self.header.segment_count;
        if !has_table(self.bytes, offset, u64::from(count), 56) {
            return Err(ElfError::Truncated { offset });
        }
        Ok(SegmentTable {
            bytes: self.bytes,
            offset: offset as usize,
            count: count as usize,
        })
    }

    /// The segment with an index. Fails with `Truncated` if the table of all segments isn't whole.
    pub fn segment(&self, index: u32) -> Result<Segment, ElfError>
        requires { index < self.now.header.segment_count }
        ensures { result ≡ segment_at self.now.bytes.now self.now.header index }
    {
        let table = self.segment_table()?;
        Ok(table.get(index as usize))
    }

    /// The bytes that a segment has in the file. Fails with `Truncated` if they aren't all there.
    pub fn segment_bytes(&self, segment: &Segment) -> Result<&'a [u8], ElfError>
        ensures ok { IfOk result (λ found. segment_bytes self.now.bytes.now segment.now ≡ Ok found.now) }
        ensures err { IfErr result (λ e. segment_bytes self.now.bytes.now segment.now ≡ Err e) }
        ensures within { IfOk result
            (λ found. segment.now.offset + length found.now ≤ length self.now.bytes.now) }
    {
        bytes_at(self.bytes, segment.offset, segment.file_size)
    }

    /// The notes of a segment. Fails with `Truncated` if its bytes aren't all there.
    pub fn segment_notes(&self, segment: &Segment) -> Result<Notes<'a>, ElfError>
        ensures ok { IfOk result (λ notes. segment_notes self.now.bytes.now segment.now ≡ Ok notes) }
        ensures err { IfErr result (λ e. segment_notes self.now.bytes.now segment.now ≡ Err e) }
    {
        let bytes = self.segment_bytes(segment)?;
        Ok(Notes::new_at(bytes, segment.alignment, segment.offset))
    }
}
