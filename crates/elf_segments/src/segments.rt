//! Segments, and the bytes of those that are loaded, by the addresses that the file states.

ghost use Rattle.std.specs.Prelude.{◌≡◌, Bool, option_map};
ghost use Rattle.elf_files.specs.declared.segment.Segment.{Segment};
ghost use Rattle.elf_segments.specs.Segments.{Computes, first_segment, has_byte_at, has_named_sections, placed_at, placed_from};
ghost use Rattle.elf_segments.specs.SegmentViews.{placed_seen};

use crate::bytes::bytes_after;
use elf_files::{ElfFile, Segment, SegmentKind};

/// Bytes that are loaded.
#[derive(Clone, Copy, Debug)]
pub struct PlacedBytes<'a> {
    /// The address of the first, as the file states it.
    pub address: u64,
    /// The bytes.
    pub bytes: &'a [u8],
}

/// Whether a file has sections that can be looked up by their names.
pub fn has_named_sections(file: &ElfFile<'_>) -> bool
    ensures { result ≡ has_named_sections file.now.bytes.now file.now.header }
{
    file.section_count() != 0 && file.section_named(b"").is_ok()
}

/// The first segment of a file for which a test holds, if their table is there.
#[tactic(auto, using(crate::proofs::Entries::entries_more))]
pub fn first_segment<F: Fn(&Segment) -> bool>(file: &ElfFile<'_>, test: F) -> Option<Segment>
    requires { F.IsAlwaysCallable test }
    ensures { (says : Segment → Bool) → Computes (F.post test) says
        → result ≡ first_segment says file.now.bytes.now file.now.header }
{
    for index in 0..file.segment_count() {
        let Ok(segment) = file.segment(index) else {
            return None;
        };
        if test(&segment) {
            return Some(segment);
        }
    }
    None
}

// Whether a loaded segment has the byte at an address in the file.
fn has_byte_at(segment: &Segment, address: u64) -> bool
    ensures { result ≡ has_byte_at address segment.now }
{
    matches!(segment.kind, SegmentKind::Load)
        && segment.address <= address
        && address - segment.address < segment.file_size
}

/// The bytes that a segment has in the file from an address on; none if its bytes aren't all there.
pub fn placed_from<'a>(
    file: &ElfFile<'a>,
    segment: &Segment,
    address: u64,
) -> Option<PlacedBytes<'a>>
    ensures { option_map placed_seen result ≡ placed_from address file.now.bytes.now segment.now }
{
    match file.segment_bytes(segment) {
        Ok(bytes) => Some(PlacedBytes {
            address,
            bytes: bytes_after(bytes, address.saturating_sub(segment.address)),
        }),
        Err(_) => None,
    }
}

/// The bytes at an address, up to the end of the first segment that has it in the file.
pub fn placed_at<'a>(file: &ElfFile<'a>, address: u64) -> Option<PlacedBytes<'a>>
    ensures { option_map placed_seen result ≡ placed_at file.now.bytes.now file.now.header address }
{
    match first_segment(file, |segment| has_byte_at(segment, address)) {
        Some(segment) => placed_from(file, &segment, address),
        None => None,
    }
}
