//! Segments.

use anyhow::Result;
use elf_files::{ElfFile, Segment, SegmentKind};
use shown_text::Shown;

fn kind_number(kind: SegmentKind) -> u32 {
    match kind {
        SegmentKind::Null => 0,
        SegmentKind::Load => 1,
        SegmentKind::Dynamic => 2,
        SegmentKind::Interpreter => 3,
        SegmentKind::Note => 4,
        SegmentKind::EhFrameHeader => 0x6474_e550,
        SegmentKind::Other(number) => number,
    }
}

fn show_segment(segment: &Segment, shown: &mut Shown) {
    shown.hex("segment 0x", u64::from(kind_number(segment.kind)));
    shown.number(" flags ", u64::from(segment.flags));
    shown.hex(" at 0x", segment.offset);
    shown.hex(" address 0x", segment.address);
    shown.hex(" sizes 0x", segment.file_size);
    shown.hex(" 0x", segment.memory_size);
    shown.hex(" aligned 0x", segment.alignment);
    shown.end();
}

/// Shows the segments of a file.
pub(crate) fn show_segments(file: &ElfFile<'_>, shown: &mut Shown) -> Result<()> {
    for index in 0..file.segment_count() {
        show_segment(&file.segment(index)?, shown);
    }
    Ok(())
}
