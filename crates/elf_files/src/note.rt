//! Notes.

ghost use Rattle.std.specs.Prelude.{◌≡◌, ◌≤◌, ◌<◌, ◌+◌, ◌^◌, length};
ghost use Rattle.elf_files.specs.Notes.{note_alignment, without_end};
ghost use Rattle.elf_files.specs.NoteViews.{note_seen, ReadsNote};

use crate::bytes::{bytes_after, u32_at};
use crate::error::ElfError;
use std::marker::Model;

/// A note: who made it, what it is, and what it says.
#[derive(Debug, Clone, Copy, PartialEq, Eq)]
pub struct Note<'a> {
    /// Its name, without the 0 that ends it.
    pub name: &'a [u8],
    /// What it is, a number that each name gives its own meaning (`n_type`).
    pub kind: u32,
    /// What it says.
    pub descriptor: &'a [u8],
}

/// The notes of a segment or a section, one after the other. After an error there is none.
#[derive(Debug, Drop)]
pub struct Notes<'a> {
    // The bytes that are left, and the offset of the first in the file.
    bytes: &'a [u8],
    offset: u64,
    alignment: u64,
}

/// Notes are the list of those that are left.
impl<'a> Model for Notes<'a> {
    ghost use Rattle.std.specs.Prelude.{◌+◌, ◌^◌, ◌<◌, ◌≤◌, List, Result, length};
    ghost use Rattle.elf_files.specs.declared.error.ElfError.{ElfError};
    ghost use Rattle.elf_files.specs.Notes.{NoteParts, notes_of};

    ghost Value = { List (Result NoteParts ElfError) };

    ghost view = { λ notes. notes_of notes.alignment
        (record { bytes = notes.bytes.now; offset = notes.offset }) };

    ghost invariant = { λ notes. (0 < notes.alignment) × (notes.alignment ≤ 8)
        × (notes.offset + length notes.bytes.now < 2 ^ 64) };
}

const NOTE_HEADER_SIZE: usize = 12;

// How parts of notes are aligned.
fn note_alignment(alignment: u64) -> u64
    ensures value { result ≡ note_alignment alignment }
    ensures some { 0 < result }
    ensures few { result ≤ 8 }
{
    if alignment == 8 { 8 } else { 4 }
}

// Bytes without a 0 that ends them.
fn without_end(name: &[u8]) -> &[u8]
    ensures { result.now ≡ without_end name.now }
{
    match name {
        [front @ .., 0] => front,
        _ => name,
    }
}

// The note that some bytes begin with, and how many of them it takes.
#[tactic(auto, unfolding(crate::specs::Notes::note_from))]
fn read_note(bytes: &[u8], alignment: u64) -> Option<(Note<'_>, usize)>
    requires some { 0 < alignment }
    requires few { alignment ≤ 8 }
    ensures { ReadsNote alignment bytes.now result }
{
    if bytes.len() < NOTE_HEADER_SIZE {
        return None;
    }
    let name_size = u64::from(u32_at(bytes, 0));
    let descriptor_size = u64::from(u32_at(bytes, 4));
    let start = (NOTE_HEADER_SIZE as u64 + name_size).next_multiple_of(alignment);
    let end = start + descriptor_size;
    if end > bytes.len() as u64 {
        return None;
    }
    let name = &bytes[NOTE_HEADER_SIZE..];
    let descriptor = &bytes[start as usize..];
    let note = Note {
        name: without_end(&name[..name_size as usize]),
        kind: u32_at(bytes, 8),
        descriptor: &descriptor[..descriptor_size as usize],
    };
    let size = end.next_multiple_of(alignment).min(bytes.len() as u64);
    Some((note, size as usize))
}

impl<'a> Notes<'a> {
    ghost use Rattle.list_laws.specs.Items.{GivesNext};
    ghost use Rattle.elf_files.specs.Notes.{notes_of};

    /// The notes of some bytes, by the alignment of their segment or section: 8, or else 4 bytes. The places of errors are
    /// from the first of the bytes on.
    pub fn new(bytes: &'a [u8], alignment: u64) -> Self
        ensures { result ≡ notes_of (note_alignment alignment) (record { bytes = bytes.now; offset = 0 }) }
    {
        Notes::new_at(bytes, alignment, 0)
    }

    /// The same of bytes that are at this offset of a file.
    pub fn new_at(bytes: &'a [u8], alignment: u64, offset: u64) -> Self
        requires { offset + length bytes.now < 2 ^ 64 }
        ensures { result
            ≡ notes_of (note_alignment alignment) (record { bytes = bytes.now; offset = offset }) }
    {
        Notes {
            bytes,
            offset,
            alignment: note_alignment(alignment),
        }
    }

    /// The next note, or `None` after the last. Fails with `Truncated` if it isn't whole; then no note is left.
    pub fn next(&mut self) -> Result<Option<Note<'a>>, ElfError>
        ensures { GivesNext note_seen result self.old self.new }
    {
        if self.bytes.is_empty() {
            return Ok(None);
        }
        match read_note(self.bytes, self.alignment) {
            Some((note, size)) => {
                let rest = bytes_after(self.bytes, size);
                self.bytes = rest;
                self.offset += size as u64;
                Ok(Some(note))
            }
            None => {
                self.bytes = &self.bytes[..0];
                Err(ElfError::Truncated {
                    offset: self.offset,
                })
            }
        }
    }
}
