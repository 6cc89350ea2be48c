//! The build id of a file.

ghost use Rattle.std.specs.Prelude.{◌≡◌, Ok, Err, Some, None, IfOk, IfErr, if◌then◌else◌};
ghost use Rattle.std.specs.Option.{option_copied};
ghost use Rattle.elf_files.specs.BuildIds.{build_id, build_id_in, by_sections, by_segments, is_build_id, section_build_id, segment_build_id};
ghost use Rattle.elf_files.specs.NoteViews.{note_seen};

use crate::error::ElfError;
use crate::file::ElfFile;
use crate::note::{Note, Notes};
use crate::section::Section;
use crate::segment::Segment;

// NT_GNU_BUILD_ID, of notes whose name is "GNU".
const BUILD_ID: u32 = 3;

const GNU: [u8; 3] = *b"GNU";

// The build id of a note, if it has one.
fn note_build_id<'a>(note: &Note<'a>) -> Option<&'a [u8]>
    ensures { option_copied result
        ≡ (if is_build_id (note_seen note.now) then Some note.now.descriptor.now else None) }
{
    if note.kind == BUILD_ID && note.name == GNU.as_slice() {
        Some(note.descriptor)
    } else {
        None
    }
}

// The first build id of some notes.
fn build_id_in<'a>(notes: Notes<'a>) -> Result<Option<&'a [u8]>, ElfError>
    ensures ok { IfOk result (λ found. build_id_in notes.entry ≡ Ok (option_copied found)) }
    ensures err { IfErr result (λ e. build_id_in notes.entry ≡ Err e) }
{
    let mut left = notes;
    'notes: loop {
        let Some(note) = left.next()? else {
            return Ok(None);
        };
        if let Some(id) = note_build_id(&note) {
            return Ok(Some(id));
        }
    }
}

impl<'a> ElfFile<'a> {
    // The first build id of a section.
    fn section_build_id(&self, section: &Section) -> Result<Option<&'a [u8]>, ElfError>
        ensures ok { IfOk result (λ found. section_build_id self.now.bytes.now section.now
            ≡ Ok (option_copied found)) }
        ensures err { IfErr result (λ e. section_build_id self.now.bytes.now section.now ≡ Err e) }
    {
        if !section.is_note() {
            return Ok(None);
        }
        build_id_in(self.section_notes(section)?)
    }

    // The first build id of a segment.
    fn segment_build_id(&self, segment: &Segment) -> Result<Option<&'a [u8]>, ElfError>
        ensures ok { IfOk result (λ found. segment_build_id self.now.bytes.now segment.now
            ≡ Ok (option_copied found)) }
        ensures err { IfErr result (λ e. segment_build_id self.now.bytes.now segment.now ≡ Err e) }
    {
        if !segment.is_note() {
            return Ok(None);
        }
        build_id_in(self.segment_notes(segment)?)
    }

    // The first build id of the sections.
    fn build_id_by_sections(&self) -> Result<Option<&'a [u8]>, ElfError>
        ensures ok { IfOk result (λ found. by_sections self.now.bytes.now self.now.header
            ≡ Ok (option_copied found)) }
        ensures err { IfErr result (λ e. by_sections self.now.bytes.now self.now.header ≡ Err e) }
    {
        let table = self.section_table()?;
        for index in 0..table.count {
            match self.section_build_id(&table.get(index))? {
                Some(id) => return Ok(Some(id)),
                None => {}
            }
        }
        Ok(None)
    }

    // The first build id of the segments.
    fn build_id_by_segments(&self) -> Result<Option<&'a [u8]>, ElfError>
        ensures ok { IfOk result (λ found. by_segments self.now.bytes.now self.now.header
            ≡ Ok (option_copied found)) }
        ensures err { IfErr result (λ e. by_segments self.now.bytes.now self.now.header ≡ Err e) }
    {
        let table = self.segment_table()?;
        for index in 0..table.count {
            match self.segment_build_id(&table.get(index))? {
                Some(id) => return Ok(Some(id)),
                None => {}
            }
        }
        Ok(None)
    }

    /// The build id: the first in a section of notes, or else in a segment of notes if the file has no sections. Fails with
    /// the first error of what is read for it: `Truncated` and `CompressedSection`.
    pub fn build_id(&self) -> Result<Option<&'a [u8]>, ElfError>
        ensures ok { IfOk result (λ found. build_id self.now.bytes.now self.now.header
            ≡ Ok (option_copied found)) }
        ensures err { IfErr result (λ e. build_id self.now.bytes.now self.now.header ≡ Err e) }
    {
        if self.header.section_count == 0 {
            self.build_id_by_segments()
        } else {
            self.build_id_by_sections()
        }
    }
}
