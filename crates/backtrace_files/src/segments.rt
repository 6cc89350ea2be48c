//! The call frames of a file whose sections have no names that can be read, by its segments.

ghost use Rattle.std.specs.Prelude.{◌≡◌, option_map};
ghost use Rattle.std.specs.Option.{option_copied};
ghost use Rattle.std.specs.Result.{result_ok};
ghost use Rattle.dwarf_frame_rows.specs.EncodedPointer.{direct_address};
ghost use Rattle.elf_segments.specs.SegmentViews.{placed_seen};
ghost use Rattle.backtrace_files.specs.SegmentSections.{bases_at, data_by_segments, frame_header, frames, frames_start, is_frame_header, parsed_header, placed_named, range_by_segments};

use dwarf_call_frames::{EhFrameHdr, ParsedEhFrameHdr};
use dwarf_frame_rows::{BaseAddresses, Pointer, SectionBaseAddresses};
use dwarf_readers::{EndianSlice, LittleEndian};
use elf_files::{ElfFile, Segment, SegmentKind};
use elf_segments::{PlacedBytes, first_segment, placed_at, placed_from};
use std::ops::Range;

// The size of an address in bytes.
const ADDRESS_SIZE: u8 = 8;

// Whether a segment is that of `.eh_frame_hdr`.
fn is_frame_header(segment: &Segment) -> bool
    ensures { result ≡ is_frame_header segment.now.kind }
{
    matches!(segment.kind, SegmentKind::EhFrameHeader)
}

// `.eh_frame_hdr`.
fn frame_header<'a>(file: &ElfFile<'a>) -> Option<PlacedBytes<'a>>
    ensures { option_map placed_seen result ≡ frame_header file.now.bytes.now file.now.header }
{
    match first_segment(file, |segment| is_frame_header(segment)) {
        Some(segment) => placed_from(file, &segment, segment.address),
        None => None,
    }
}

// What the pointers of an `.eh_frame_hdr` at this address may be relative to.
fn bases_at(address: u64) -> BaseAddresses
    ensures { result.eh_frame_hdr ≡ bases_at address }
{
    BaseAddresses {
        eh_frame_hdr: SectionBaseAddresses {
            section: Some(address),
            text: None,
            data_base: Some(address),
        },
        eh_frame: SectionBaseAddresses {
            section: None,
            text: None,
            data_base: None,
        },
    }
}

// What an `.eh_frame_hdr` with these bytes says.
fn parsed_header<'a>(
    bytes: &'a [u8],
    bases: &BaseAddresses,
) -> Option<ParsedEhFrameHdr<EndianSlice<'a, LittleEndian>>>
    ensures { result ≡ parsed_header bases.now.eh_frame_hdr bytes.now }
{
    EhFrameHdr::new(bytes, LittleEndian)
        .parse(bases, ADDRESS_SIZE)
        .ok()
}

// The address of a direct pointer.
fn direct_start(pointer: Pointer) -> Option<u64>
    ensures { result ≡ result_ok (direct_address pointer) }
{
    pointer.direct().ok()
}

// Where `.eh_frame` begins, as an `.eh_frame_hdr` says.
fn frames_start(header: &PlacedBytes<'_>) -> Option<u64>
    ensures { result ≡ frames_start (placed_seen header.now) }
{
    let bases = bases_at(header.address);
    match parsed_header(header.bytes, &bases) {
        Some(parsed) => direct_start(parsed.eh_frame_ptr()),
        None => None,
    }
}

// `.eh_frame`, and what follows it in its segment.
fn frames<'a>(file: &ElfFile<'a>) -> Option<PlacedBytes<'a>>
    ensures { option_map placed_seen result ≡ frames file.now.bytes.now file.now.header }
{
    let Some(header) = frame_header(file) else {
        return None;
    };
    let Some(start) = frames_start(&header) else {
        return None;
    };
    placed_at(file, start)
}

// Either of both, by its name.
fn placed_named<'a>(file: &ElfFile<'a>, name: &[u8]) -> Option<PlacedBytes<'a>>
    ensures { option_map placed_seen result ≡ placed_named file.now.bytes.now file.now.header name.now }
{
    if name == b".eh_frame".as_slice() {
        frames(file)
    } else if name == b".eh_frame_hdr".as_slice() {
        frame_header(file)
    } else {
        None
    }
}

/// The addresses of `.eh_frame` or of `.eh_frame_hdr`, by its name.
pub(crate) fn range_by_segments(file: &ElfFile<'_>, name: &[u8]) -> Option<Range<u64>>
    ensures { result ≡ range_by_segments file.now.bytes.now file.now.header name.now }
{
    match placed_named(file, name) {
        Some(placed) => {
            let end = placed.address.saturating_add(placed.bytes.len() as u64);
            Some(placed.address..end)
        }
        None => None,
    }
}

/// The bytes of `.eh_frame` or of `.eh_frame_hdr`, by its name.
pub(crate) fn data_by_segments<'a>(file: &ElfFile<'a>, name: &[u8]) -> Option<&'a [u8]>
    ensures { option_copied result ≡ data_by_segments file.now.bytes.now file.now.header name.now }
{
    match placed_named(file, name) {
        Some(placed) => Some(placed.bytes),
        None => None,
    }
}
