//! The link of a file.

ghost use Rattle.std.specs.Prelude.{◌≡◌, ◌==◌, ◌+◌, ◌≤◌, length, position};
ghost use Rattle.std.specs.Option.{option_copied, option_map};
ghost use Rattle.elf_files.specs.Bytes.{number_at};
ghost use Rattle.debug_links.specs.LinkViews.{link_seen};
ghost use Rattle.debug_links.specs.Links.{bytes_named, debug_link_of, link_at, link_in, section_of};

use dwarf_endianity::{Endianity, LittleEndian};
use elf_files::ElfFile;

/// What a file says of its debug file, in the section `.gnu_debuglink`.
#[derive(Clone, Copy, Debug, PartialEq, Eq)]
pub struct DebugLink<'a> {
    /// The name of the debug file, without the zero byte that ends it.
    pub name: &'a [u8],
    /// The checksum of its bytes, as `checksum_of` computes it.
    pub checksum: u32,
}

// The name of the section.
const SECTION: [u8; 14] = *b".gnu_debuglink";

// The bytes of the first section with a name, if they can be read.
#[tactic(auto, unfolding(crate::specs::Links::bytes_named))]
fn bytes_named<'a>(file: &ElfFile<'a>, name: &[u8]) -> Option<&'a [u8]>
    ensures { option_copied result ≡ bytes_named file.now.bytes.now file.now.header name.now }
{
    let Ok(Some(section)) = file.section_named(name) else {
        return None;
    };
    match file.section_bytes(&section) {
        Ok(found) => Some(found),
        Err(_) => None,
    }
}

// The bytes of the section of links of a file with these bytes.
fn section_of<'a>(bytes: &'a [u8]) -> Option<&'a [u8]>
    ensures { option_copied result ≡ section_of bytes.now }
{
    match ElfFile::parse(bytes) {
        Ok(file) => bytes_named(&file, SECTION.as_slice()),
        Err(_) => None,
    }
}

// Where the first zero byte is.
fn first_zero(section: &[u8]) -> Option<usize>
    ensures { result ≡ position (λ byte. byte == 0) section.now }
{
    section.iter().position(|byte| *byte == 0)
}

// The number in four bytes.
#[tactic(auto, unfolding(elf_files::specs::Bytes::number_at))]
fn number_at(section: &[u8], place: usize) -> u32
    requires { place + 4 ≤ length section.now }
    ensures { result ≡ number_at 4 section.now place }
{
    LittleEndian.read_u32(&section[place..])
}

// The link whose name has so many bytes.
fn link_at<'a>(section: &'a [u8], size: usize) -> Option<DebugLink<'a>>
    requires { size ≤ length section.now }
    ensures { option_map link_seen result ≡ link_at section.now size }
{
    let place = (size + 1).next_multiple_of(4);
    if place + 4 > section.len() {
        return None;
    }
    Some(DebugLink {
        name: &section[..size],
        checksum: number_at(section, place),
    })
}

// The link in the bytes of the section.
fn link_in<'a>(section: &'a [u8]) -> Option<DebugLink<'a>>
    ensures { option_map link_seen result ≡ link_in section.now }
{
    match first_zero(section) {
        Some(size) => link_at(section, size),
        None => None,
    }
}

/// The link of a file with these bytes, if it has one that can be read.
pub fn debug_link_of<'a>(bytes: &'a [u8]) -> Option<DebugLink<'a>>
    ensures { option_map link_seen result ≡ debug_link_of bytes.now }
{
    match section_of(bytes) {
        Some(section) => link_in(section),
        None => None,
    }
}
