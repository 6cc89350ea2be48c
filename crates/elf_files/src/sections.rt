//! The sections of a file.

ghost use Rattle.std.specs.Prelude.{◌≡◌, ◌<◌, ◌≤◌, ◌+◌, ◌^◌, length, Ok, Err, IfOk, IfErr};
ghost use Rattle.elf_files.specs.Notes.{section_notes};
ghost use Rattle.elf_files.specs.Sections.{section_at, section_bytes, section_name, section_named, section_names, linked_strings, strings_of};
ghost use Rattle.elf_files.specs.SectionViews.{IsTableCut, IsTableOf, strings_seen};

use crate::bytes::{bytes_at, has_table};
use crate::error::ElfError;
use crate::file::ElfFile;
use crate::note::Notes;
use crate::section::Section;
use crate::section_table::{Named, SectionTable};
use crate::strings::StringTable;

impl<'a> ElfFile<'a> {
    /// How many sections there are.
    pub fn section_count(&self) -> u64
        ensures { result ≡ self.now.header.section_count }
    {
        self.header.section_count
    }

    // The table of sections.
    pub(crate) fn section_table(&self) -> Result<SectionTable<'a>, ElfError>
        ensures ok { IfOk result (IsTableOf self.now.bytes.now self.now.header) }
        ensures err { IfErr result (IsTableCut self.now.bytes.now self.now.header) }
    {
        let offset = self.header.section_table;
        let count = self.header.section_count;
        if !has_table(self.bytes, offset, count, 64) {
            return Err(ElfError::Truncated { offset });
        }
        Ok(SectionTable {
            bytes: self.bytes,
            offset: offset as usize,
            count: count as usize,
        })
    }

    /// The section with an index. Fails with `Truncated` if the table of all sections isn't whole.
    pub fn section(&self, index: u64) -> Result<Section, ElfError>
        requires { index < self.now.header.section_count }
        ensures { result ≡ section_at self.now.bytes.now self.now.header index }
    {
        let table = self.section_table()?;
        Ok(table.get(index as usize))
    }

    /// The bytes that a section has in the file. Fails with `CompressedSection` if they are compressed, and with `Truncated`
    /// if they aren't all there.
    pub fn section_bytes(&self, section: &Section) -> Result<&'a [u8], ElfError>
        ensures ok { IfOk result (λ found. section_bytes self.now.bytes.now section.now ≡ Ok found.now) }
        ensures err { IfErr result (λ e. section_bytes self.now.bytes.now section.now ≡ Err e) }
        ensures fits { IfOk result (λ found. section.now.offset + length found.now < 2 ^ 64) }
    {
        let offset = section.offset;
        if section.has_no_bits() {
            return Ok(&self.bytes[..0]);
        }
        if section.is_compressed() {
            return Err(ElfError::CompressedSection { offset });
        }
        bytes_at(self.bytes, offset, section.size)
    }

    /// The notes of a section. Fails as `section_bytes` does.
    pub fn section_notes(&self, section: &Section) -> Result<Notes<'a>, ElfError>
        ensures ok { IfOk result (λ notes. section_notes self.now.bytes.now section.now ≡ Ok notes) }
        ensures err { IfErr result (λ e. section_notes self.now.bytes.now section.now ≡ Err e) }
    {
        let bytes = self.section_bytes(section)?;
        Ok(Notes::new_at(bytes, section.alignment, section.offset))
    }

    // The string table that is a section. Its index is at a place.
    fn strings_of(&self, section: &Section, place: u64) -> Result<StringTable<'a>, ElfError>
        ensures ok { IfOk result (λ strings. strings_of self.now.bytes.now section.now place
            ≡ Ok (strings_seen strings)) }
        ensures err { IfErr result (λ e. strings_of self.now.bytes.now section.now place ≡ Err e) }
    {
        if !section.is_string_table() {
            return Err(ElfError::NotStringTable { offset: place });
        }
        if section.is_compressed() {
            return Err(ElfError::CompressedSection {
                offset: section.offset,
            });
        }
        let bytes = bytes_at(self.bytes, section.offset, section.size)?;
        Ok(StringTable {
            bytes,
            offset: section.offset,
        })
    }

    // The string table with an index, which is at a place.
    pub(crate) fn linked_strings(&self, place: u64, index: u32) -> Result<StringTable<'a>, ElfError>
        ensures ok { IfOk result (λ strings. linked_strings self.now.bytes.now self.now.header place index
            ≡ Ok (strings_seen strings)) }
        ensures err { IfErr result
            (λ e. linked_strings self.now.bytes.now self.now.header place index ≡ Err e) }
    {
        let index = u64::from(index);
        if index >= self.header.section_count {
            return Err(ElfError::NoSuchSection { offset: place });
        }
        let section = self.section(index)?;
        self.strings_of(&section, place)
    }

    // The names of sections.
    fn section_names(&self) -> Result<StringTable<'a>, ElfError>
        ensures ok { IfOk result (λ names. section_names self.now.bytes.now self.now.header
            ≡ Ok (strings_seen names)) }
        ensures err { IfErr result (λ e. section_names self.now.bytes.now self.now.header ≡ Err e) }
    {
        self.linked_strings(62, self.header.names_index)
    }

    /// The name of a section. Fails with `NoSuchSection` and `NotStringTable` if the file has no names of sections, with what
    /// `section` and `section_bytes` fail with, and with `BadString` if the name isn't there or has no end.
    pub fn section_name(&self, section: &Section) -> Result<&'a [u8], ElfError>
        ensures ok { IfOk result (λ name. section_name self.now.bytes.now self.now.header section.now
            ≡ Ok name.now) }
        ensures err { IfErr result
            (λ e. section_name self.now.bytes.now self.now.header section.now ≡ Err e) }
    {
        let names = self.section_names()?;
        names.string_at(section.name_offset)
    }

    /// The first section with a name, if there is one. Fails as `section_name` does if there are sections and the names can't
    /// be read; a section whose own name isn't there or has no end isn't the one.
    pub fn section_named(&self, name: &[u8]) -> Result<Option<Section>, ElfError>
        ensures { result ≡ section_named self.now.bytes.now self.now.header name.now }
    {
        if self.header.section_count == 0 {
            return Ok(None);
        }
        let names = self.section_names()?;
        let table = self.section_table()?;
        Ok(table.find(&Named { names, name }))
    }
}
