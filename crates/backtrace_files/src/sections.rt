//! The sections of a file by their names.

ghost use Rattle.std.specs.Prelude.{◌≡◌};
ghost use Rattle.std.specs.Option.{option_copied};
ghost use Rattle.backtrace_files.specs.Sections.{data_named, data_of, is_call_frames, range_named, range_of};

use crate::segments::{data_by_segments, range_by_segments};
use elf_files::ElfFile;
use elf_segments::has_named_sections;
use framehop_modules::ModuleSectionInfo;
use std::ops::Range;

/// The sections of an ELF file, as an unwinder takes them. Stated addresses are the file's.
#[derive(Clone, Copy, Debug)]
pub struct FileSections<'a> {
    file: ElfFile<'a>,
    base_svma: u64,
}

impl<'a> FileSections<'a> {
    ghost use Rattle.backtrace_files.specs.SectionViews.{sections_seen};
    ghost use Rattle.backtrace_files.specs.Sections.{sections_of};

    /// The sections of this file, with the stated address that relative ones count from.
    pub fn new(file: ElfFile<'a>, base_svma: u64) -> Self
        ensures { sections_seen result ≡ sections_of file.entry.bytes.now file.entry.header base_svma }
    {
        FileSections { file, base_svma }
    }
}

// Whether a section of this name has call frames, or the table of their entries.
fn is_call_frames(name: &[u8]) -> bool
    ensures { result ≡ is_call_frames name.now }
{
    name == b".eh_frame".as_slice()
        || name == b".eh_frame_hdr".as_slice()
        || name == b".debug_frame".as_slice()
}

// The addresses of the first section of this name, if it can be read.
fn range_named(file: &ElfFile<'_>, name: &[u8]) -> Option<Range<u64>>
    ensures { result ≡ range_named file.now.bytes.now file.now.header name.now }
{
    match file.section_named(name) {
        Ok(Some(section)) => Some(section.address..section.address.saturating_add(section.size)),
        _ => None,
    }
}

// The bytes of the first section of this name, if they can be read.
fn data_named<'a>(file: &ElfFile<'a>, name: &[u8]) -> Option<&'a [u8]>
    ensures { option_copied result ≡ data_named file.now.bytes.now file.now.header name.now }
{
    if !is_call_frames(name) {
        return None;
    }
    let Ok(Some(section)) = file.section_named(name) else {
        return None;
    };
    match file.section_bytes(&section) {
        Ok(bytes) => Some(bytes),
        Err(_) => None,
    }
}

// The addresses of a section, by its name, or if names of sections can't be read, by the segments.
fn range_of(file: &ElfFile<'_>, name: &[u8]) -> Option<Range<u64>>
    ensures { result ≡ range_of file.now.bytes.now file.now.header name.now }
{
    if has_named_sections(file) {
        range_named(file, name)
    } else {
        range_by_segments(file, name)
    }
}

// The bytes of a section with call frames, likewise.
fn data_of<'a>(file: &ElfFile<'a>, name: &[u8]) -> Option<&'a [u8]>
    ensures { option_copied result ≡ data_of file.now.bytes.now file.now.header name.now }
{
    if has_named_sections(file) {
        data_named(file, name)
    } else {
        data_by_segments(file, name)
    }
}

impl<'a> ModuleSectionInfo<&'a [u8]> for FileSections<'a> {
    ghost use Rattle.backtrace_files.specs.SectionViews.{sections_seen};

    ghost sections = { sections_seen };

    fn base_svma(&self) -> u64 {
        self.base_svma
    }

    fn section_svma_range(&mut self, name: &[u8]) -> Option<Range<u64>> {
        range_of(&self.file, name)
    }

    fn section_data(&mut self, name: &[u8]) -> Option<&'a [u8]> {
        data_of(&self.file, name)
    }

    fn segment_svma_range(&mut self, _name: &[u8]) -> Option<Range<u64>> {
        None
    }

    fn segment_data(&mut self, _name: &[u8]) -> Option<&'a [u8]> {
        None
    }
}
