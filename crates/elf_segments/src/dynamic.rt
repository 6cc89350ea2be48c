//! The dynamic section of a file, found by its segment.

ghost use Rattle.std.specs.Prelude.{◌≡◌, ◌≤◌, ◌+◌, length};
ghost use Rattle.std.specs.Option.{option_copied};
ghost use Rattle.elf_segments.specs.Dynamic.{all_entries, dynamic_bytes, entry_from, is_dynamic, tag_number, value_among};

use crate::bytes::u64_at;
use crate::segments::{first_segment, placed_at};
use elf_files::{ElfFile, Segment, SegmentKind};

/// What an entry says (`d_tag`).
#[derive(Clone, Copy, Debug, PartialEq, Eq)]
pub(crate) enum Tag {
    /// `DT_HASH`: where the hash table is.
    Hash,
    /// `DT_STRTAB`: where the strings are.
    Strings,
    /// `DT_SYMTAB`: where the symbols are.
    Symbols,
    /// `DT_STRSZ`: how many bytes the strings have.
    StringsSize,
    /// `DT_SYMENT`: how many bytes a symbol has.
    SymbolSize,
    /// `DT_GNU_HASH`: where GNU's hash table is.
    GnuHash,
}

// An entry (`Elf64_Dyn`).
#[derive(Clone, Copy, Debug)]
pub(crate) struct DynamicEntry {
    pub(crate) tag: u64,
    pub(crate) value: u64,
}

/// A dynamic section.
#[derive(Clone, Copy, Debug)]
pub(crate) struct DynamicSection<'a> {
    /// Its file.
    pub(crate) file: ElfFile<'a>,
    /// Its bytes.
    pub(crate) bytes: &'a [u8],
    /// By how much the addresses in it are above those that the file states.
    pub(crate) moved: u64,
}

// The size of an entry.
const ENTRY_SIZE: usize = 16;

// The tag of the entry that ends the list (`DT_NULL`).
const END: u64 = 0;

// The number of a tag.
fn tag_number(tag: Tag) -> u64
    ensures { result ≡ tag_number tag }
{
    match tag {
        Tag::Hash => 4,
        Tag::Strings => 5,
        Tag::Symbols => 6,
        Tag::StringsSize => 10,
        Tag::SymbolSize => 11,
        Tag::GnuHash => 0x6fff_fef5,
    }
}

// The entry at an offset.
fn entry_from(bytes: &[u8], at: usize) -> DynamicEntry
    requires { at + 16 ≤ length bytes.now }
    ensures { result ≡ entry_from bytes.now at }
{
    DynamicEntry {
        tag: u64_at(bytes, at),
        value: u64_at(bytes, at + 8),
    }
}

// The value of the first entry with a tag, before the end of the list.
#[tactic(auto, using(crate::proofs::Entries::entries_more))]
fn value_among(bytes: &[u8], tag: u64) -> Option<u64>
    ensures { result ≡ value_among tag (all_entries bytes.now) }
{
    for index in 0..bytes.len() / ENTRY_SIZE {
        let entry = entry_from(bytes, ENTRY_SIZE * index);
        if entry.tag == END {
            return None;
        }
        if entry.tag == tag {
            return Some(entry.value);
        }
    }
    None
}

// Whether a segment is that of the dynamic section.
fn is_dynamic(segment: &Segment) -> bool
    ensures { result ≡ is_dynamic segment.now.kind }
{
    matches!(segment.kind, SegmentKind::Dynamic)
}

/// The bytes of the dynamic section of a file.
pub(crate) fn dynamic_bytes<'a>(file: &ElfFile<'a>) -> Option<&'a [u8]>
    ensures { option_copied result ≡ dynamic_bytes file.now.bytes.now file.now.header }
{
    let Some(segment) = first_segment(file, |segment| is_dynamic(segment)) else {
        return None;
    };
    match file.segment_bytes(&segment) {
        Ok(bytes) => Some(bytes),
        Err(_) => None,
    }
}

impl<'a> DynamicSection<'a> {
    ghost use Rattle.elf_segments.specs.Dynamic.{bytes_of, loaded_at, value_of};
    ghost use Rattle.elf_segments.specs.DynamicViews.{dynamic_seen};

    /// The value for a tag.
    pub(crate) fn value_of(&self, tag: Tag) -> Option<u64>
        ensures { result ≡ value_of (dynamic_seen self.now) tag }
    {
        value_among(self.bytes, tag_number(tag))
    }

    // The bytes at an address that it has, up to the end of their segment in the file.
    fn loaded_at(&self, address: u64) -> Option<&'a [u8]>
        ensures { option_copied result ≡ loaded_at (dynamic_seen self.now) address }
    {
        let Some(stated) = address.checked_sub(self.moved) else {
            return None;
        };
        match placed_at(&self.file, stated) {
            Some(placed) => Some(placed.bytes),
            None => None,
        }
    }

    /// The bytes at the address for a tag.
    pub(crate) fn bytes_of(&self, tag: Tag) -> Option<&'a [u8]>
        ensures { option_copied result ≡ bytes_of (dynamic_seen self.now) tag }
    {
        match self.value_of(tag) {
            Some(address) => self.loaded_at(address),
            None => None,
        }
    }
}
