//! Segments.

ghost use Rattle.std.specs.Prelude.{◌≡◌, ◌≤◌, ◌+◌, length};
ghost use Rattle.elf_files.specs.Segments.{segment_kind, segment_from, is_note_segment};

use crate::bytes::{u32_at, u64_at};

/// What a segment is (`p_type`).
#[derive(Debug, Clone, Copy, PartialEq, Eq)]
pub enum SegmentKind {
    /// `PT_NULL`.
    Null,
    /// `PT_LOAD`.
    Load,
    /// `PT_DYNAMIC`.
    Dynamic,
    /// `PT_INTERP`.
    Interpreter,
    /// `PT_NOTE`.
    Note,
    /// `PT_GNU_EH_FRAME`, the segment of `.eh_frame_hdr`.
    EhFrameHeader,
    /// Any other number.
    Other(u32),
}

/// A segment, by its program header (`Elf64_Phdr`).
#[derive(Debug, Clone, Copy, PartialEq, Eq)]
pub struct Segment {
    /// What it is.
    pub kind: SegmentKind,
    /// Its permissions (`p_flags`): 1 to execute, 2 to write, 4 to read.
    pub flags: u32,
    /// The offset of its bytes in the file.
    pub offset: u64,
    /// The address of its bytes in memory (`p_vaddr`).
    pub address: u64,
    /// How many bytes it has in the file.
    pub file_size: u64,
    /// How many bytes it has in memory.
    pub memory_size: u64,
    /// How its bytes are aligned.
    pub alignment: u64,
}

// What a segment is, by a number.
fn segment_kind(number: u32) -> SegmentKind
    ensures { result ≡ segment_kind number }
{
    match number {
        0 => SegmentKind::Null,
        1 => SegmentKind::Load,
        2 => SegmentKind::Dynamic,
        3 => SegmentKind::Interpreter,
        4 => SegmentKind::Note,
        0x6474_e550 => SegmentKind::EhFrameHeader,
        number => SegmentKind::Other(number),
    }
}

// The segment of the program header at an offset.
pub(crate) fn segment_from(bytes: &[u8], at: usize) -> Segment
    requires { at + 56 ≤ length bytes.now }
    ensures { result ≡ segment_from bytes.now at }
{
    Segment {
        kind: segment_kind(u32_at(bytes, at)),
        flags: u32_at(bytes, at + 4),
        offset: u64_at(bytes, at + 8),
        address: u64_at(bytes, at + 16),
        file_size: u64_at(bytes, at + 32),
        memory_size: u64_at(bytes, at + 40),
        alignment: u64_at(bytes, at + 48),
    }
}

impl Segment {
    // Whether it has notes.
    pub(crate) fn is_note(&self) -> bool
        ensures { result ≡ is_note_segment self.now.kind }
    {
        matches!(self.kind, SegmentKind::Note)
    }
}
