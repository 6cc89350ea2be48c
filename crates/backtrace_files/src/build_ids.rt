//! Whether a file is the one that was mapped, by build ids, or its debug file, by its link too.

ghost use Rattle.std.specs.Prelude.{◌≡◌, List, option_map, true, false};
ghost use Rattle.std.specs.Option.{option_copied};
ghost use Rattle.core_files.specs.CoreViews.{contents_of};
ghost use Rattle.core_files.specs.FileViews.{mapping_of};
ghost use Rattle.core_files.specs.NoteViews.{mappings_of};
ghost use Rattle.core_files.specs.RangeViews.{ranges_seen};
ghost use Rattle.backtrace_files.specs.BuildIds.{agree, build_id_at, build_id_of, begins_file, differ, file_at, first_mapping, id_by_segments, id_with_header, id_without_sections, has_other_build_id, is_debug_file_of, is_link_to, readable_id};
ghost use Rattle.debug_links.specs.LinkViews.{link_seen};

use core_files::{CoreFile, MappedFile, MemoryRange};
use debug_links::{DebugLink, checksum_of, debug_link_of};
use elf_files::{ElfFile, Header};
use elf_segments::has_named_sections;

/// The bytes of the file that begins at an address, in the first segment in which one can.
pub(crate) fn file_at<'a>(segments: &[MemoryRange<'a>], address: u64) -> Option<&'a [u8]>
    ensures { option_copied result ≡ file_at (ranges_seen segments.now) address }
{
    for segment in segments {
        if let Some(bytes) = segment.file_at(address) {
            return Some(bytes);
        }
    }
    None
}

// Whether a mapping is of the first bytes of a file with this name.
fn begins_file(mapping: &MappedFile<'_>, name: &[u8]) -> bool
    ensures { result ≡ begins_file name.now (mapping_of mapping.now) }
{
    mapping.offset == 0 && mapping.name == name
}

// The first mapping of the first bytes of a file with this name.
fn first_mapping<'a>(mappings: &[MappedFile<'a>], name: &[u8]) -> Option<MappedFile<'a>>
    ensures { option_map mapping_of result ≡ first_mapping (mappings_of mappings.now) name.now }
{
    for mapping in mappings {
        if begins_file(mapping, name) {
            return Some(*mapping);
        }
    }
    None
}

// The build id of a file, if it can be read.
fn readable_id<'a>(elf: &ElfFile<'a>) -> Option<&'a [u8]>
    ensures { option_copied result ≡ readable_id elf.now.bytes.now elf.now.header }
{
    match elf.build_id() {
        Ok(id) => id,
        Err(_) => None,
    }
}

// The same by its segments.
fn id_by_segments<'a>(elf: &ElfFile<'a>) -> Option<&'a [u8]>
    ensures { option_copied result ≡ id_by_segments elf.now.bytes.now elf.now.header }
{
    let header = Header {
        section_count: 0,
        ..elf.header
    };
    readable_id(&ElfFile {
        bytes: elf.bytes,
        header,
    })
}

// The build id in memory, of a file whose first bytes are there: by its segments.
fn id_without_sections<'a>(bytes: &'a [u8]) -> Option<&'a [u8]>
    ensures { option_copied result ≡ id_without_sections bytes.now }
{
    match ElfFile::parse(bytes) {
        Ok(elf) => id_by_segments(&elf),
        Err(_) => None,
    }
}

// The build id of a file, or if it has none that can be read, nor sections with names, that by its segments.
fn id_with_header<'a>(elf: &ElfFile<'a>) -> Option<&'a [u8]>
    ensures { option_copied result ≡ id_with_header elf.now.bytes.now elf.now.header }
{
    match readable_id(elf) {
        Some(id) => Some(id),
        None => {
            if has_named_sections(elf) {
                None
            } else {
                id_by_segments(elf)
            }
        }
    }
}

/// The build id of a file with these bytes, if it has one that can be read.
pub fn build_id_of<'a>(bytes: &'a [u8]) -> Option<&'a [u8]>
    ensures { option_copied result ≡ build_id_of bytes.now }
{
    match ElfFile::parse(bytes) {
        Ok(elf) => id_with_header(&elf),
        Err(_) => None,
    }
}

// The build id of a file of this name, by what the core has of its first bytes.
fn build_id_at<'a>(core: &CoreFile<'a>, name: &[u8]) -> Option<&'a [u8]>
    ensures { option_copied result ≡ build_id_at (contents_of core.now) name.now }
{
    let Some(mapping) = first_mapping(core.mapped_files(), name) else {
        return None;
    };
    let Some(bytes) = file_at(core.segments(), mapping.start) else {
        return None;
    };
    id_without_sections(bytes)
}

// Whether the first build id is known and isn't the second.
fn differ(one: Option<&[u8]>, other: Option<&[u8]>) -> bool
    ensures { result ≡ differ (option_copied one.entry) (option_copied other.entry) }
{
    match one {
        Some(one) => match other {
            Some(other) => one != other,
            None => true,
        },
        None => false,
    }
}

// Whether both build ids are known, and the same.
fn agree(one: Option<&[u8]>, other: Option<&[u8]>) -> bool
    ensures { result ≡ agree (option_copied one.entry) (option_copied other.entry) }
{
    match (one, other) {
        (Some(one), Some(other)) => one == other,
        _ => false,
    }
}

// Whether a link is to a file with these bytes.
fn is_link_to(link: Option<DebugLink<'_>>, debug: &[u8]) -> bool
    ensures { result ≡ is_link_to (option_map link_seen link.entry) debug.now }
{
    match link {
        Some(link) => link.checksum == checksum_of(debug),
        None => false,
    }
}

/// Whether a file has what debuggers read of one with these bytes: both have the same build id, or this one has none, and its link has the
/// checksum of the other.
pub fn is_debug_file_of(bytes: &[u8], debug: &[u8]) -> bool
    ensures { result ≡ is_debug_file_of bytes.now debug.now }
{
    match build_id_of(bytes) {
        Some(id) => agree(Some(id), build_id_of(debug)),
        None => is_link_to(debug_link_of(bytes), debug),
    }
}

/// Whether a file with these bytes isn't the one of this name that was mapped: the core has a build id of that, and the file has
/// another one or none.
pub fn has_other_build_id(core: &CoreFile<'_>, name: &[u8], bytes: &[u8]) -> bool
    ensures { result ≡ has_other_build_id (contents_of core.now) name.now bytes.now }
{
    differ(build_id_at(core, name), build_id_of(bytes))
}
