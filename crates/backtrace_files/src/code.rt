//! Where the code of a file is loaded.

ghost use Rattle.std.specs.Prelude.{◌≡◌, option_map};
ghost use Rattle.core_files.specs.FileViews.{mapping_of};
ghost use Rattle.backtrace_files.specs.Files.{base_by, begins_with, code_in, code_segment, has_code_of, is_code, loaded_code};
ghost use Rattle.backtrace_files.specs.FileViews.{code_seen, file_seen};

use crate::loaded_file::LoadedFile;
use core_files::MappedFile;
use elf_files::{ElfFile, Segment, SegmentKind};
use elf_segments::first_segment;

/// A file whose code is mapped into a process.
#[derive(Clone, Copy, Debug)]
pub struct LoadedCode<'a> {
    /// The file.
    pub file: ElfFile<'a>,
    /// Where the segment with the code begins, as the file states it.
    pub base_svma: u64,
    /// Where it begins in memory.
    pub base_avma: u64,
}

// How many bytes a page has, or a part of it if pages are larger.
const PAGE_SIZE: u64 = 1 << 12;

// Whether a segment has code that is loaded.
fn is_code(segment: &Segment) -> bool
    ensures { result ≡ is_code segment.now }
{
    matches!(segment.kind, SegmentKind::Load) && segment.flags % 2 == 1
}

// Whether a mapping has bytes of a segment with code.
fn has_code_of(mapping: &MappedFile<'_>, segment: &Segment) -> bool
    ensures { result ≡ has_code_of (mapping_of mapping.now) segment.now }
{
    let size = mapping.end.saturating_sub(mapping.start);
    is_code(segment)
        && segment.offset.saturating_sub(mapping.offset) < size
        && mapping.offset.saturating_sub(segment.offset) < segment.file_size
}

// Whether a mapping begins where the page of the file begins in which a segment with code does.
fn begins_with(mapping: &MappedFile<'_>, segment: &Segment) -> bool
    ensures { result ≡ begins_with (mapping_of mapping.now) segment.now }
{
    has_code_of(mapping, segment) && segment.offset - segment.offset % PAGE_SIZE == mapping.offset
}

// The segment with code that a mapping begins with, or else the first of which it has bytes.
fn code_segment(file: &ElfFile<'_>, mapping: &MappedFile<'_>) -> Option<Segment>
    ensures { result ≡ code_segment file.now.bytes.now file.now.header (mapping_of mapping.now) }
{
    match first_segment(file, |segment| begins_with(mapping, segment)) {
        Some(segment) => Some(segment),
        None => first_segment(file, |segment| has_code_of(mapping, segment)),
    }
}

// Where a segment begins in memory, if a mapping has bytes of it.
fn base_by(mapping: &MappedFile<'_>, segment: &Segment) -> Option<u64>
    ensures { result ≡ base_by (mapping_of mapping.now) segment.now }
{
    let memory = mapping.start.checked_add(segment.offset)?;
    memory.checked_sub(mapping.offset)
}

// The code of a mapping of a file, in this segment.
fn code_in<'a>(
    file: ElfFile<'a>,
    mapping: &MappedFile<'_>,
    segment: &Segment,
) -> Option<LoadedCode<'a>>
    ensures { option_map code_seen result
        ≡ code_in (mapping_of mapping.now) file.entry.bytes.now file.entry.header segment.now }
{
    match base_by(mapping, segment) {
        Some(base_avma) => Some(LoadedCode {
            file,
            base_svma: segment.address,
            base_avma,
        }),
        None => None,
    }
}

/// The code that a mapping has, by the executable segment in whose first page the mapping begins, or else by the first of which it has
/// bytes: none if it has none, if the bytes of the file aren't there or no ELF file's, or if the segment would begin outside of 64 bits.
pub fn loaded_code<'a>(file: &LoadedFile<'a>) -> Option<LoadedCode<'a>>
    ensures { option_map code_seen result ≡ loaded_code (file_seen file.now) }
{
    let Some(bytes) = file.bytes else {
        return None;
    };
    let Ok(elf) = ElfFile::parse(bytes) else {
        return None;
    };
    match code_segment(&elf, &file.mapping) {
        Some(segment) => code_in(elf, &file.mapping, &segment),
        None => None,
    }
}
