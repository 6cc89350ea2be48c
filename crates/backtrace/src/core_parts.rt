//! A core, as the system gives it: in parts, so that the pages of stacks that were never used take no memory. They are most of a
//! core of many threads.

use crate::progress::Progress;
use anyhow::Result;
use core_files::SegmentBytes;
use elf_files::{ElfError, ElfFile, FileKind, Segment, SegmentKind};
use regular_files::first_bytes;
use std::alloc::AllocError;
use std::fs;
use std::fs::File;
use std::os::unix::fs::FileExt;

/// A core that was read in parts.
#[derive(Debug, Drop)]
pub(crate) struct CoreParts {
    /// The first bytes, in which the program headers are.
    pub(crate) head: Vec<u8>,
    /// For each program header the bytes of its segment, if that is loaded or has notes, and else none.
    pub(crate) segments: Vec<SegmentBytes>,
}

// How many bytes are read at once.
const BLOCK_SIZE: u64 = 1 << 16;

// How many bytes of a block are kept, or counted as zeros, at once: those of a page.
const PAGE_SIZE: usize = 1 << 12;

// The size of an ELF header.
const ELF_HEADER_SIZE: u64 = 64;

// Where the program headers of a core end; none if it isn't one, or if its header needs more than is there.
fn headers_end(start: &[u8]) -> Option<u64> {
    let Ok(elf) = ElfFile::parse(start) else {
        return None;
    };
    let FileKind::Core = elf.kind() else {
        return None;
    };
    elf.segment_table_end()
}

// Whether the bytes of a segment are read.
fn is_read(segment: &Segment) -> bool {
    matches!(segment.kind, SegmentKind::Load | SegmentKind::Note)
}

// How many bytes of a segment are in the file of this size: fewer than the segment has, if the file was cut off.
fn size_left(segment: &Segment, size: u64) -> u64 {
    segment.file_size.min(size.saturating_sub(segment.offset))
}

// How many bytes of the segments that are read are in the file of this size.
fn segments_size(elf: &ElfFile<'_>, size: u64) -> Result<u64, ElfError> {
    let mut all = 0u64;
    for index in 0..elf.segment_count() {
        let segment = elf.segment(index)?;
        if is_read(&segment) {
            all = all.saturating_add(size_left(&segment, size));
        }
    }
    Ok(all)
}

// Adds the bytes of a block, page by page, so that of a stack only the pages that were used take memory.
fn push_pages(bytes: &mut SegmentBytes, block: &[u8]) -> Result<(), AllocError> {
    for page in block.chunks(PAGE_SIZE) {
        bytes.push(page)?;
    }
    Ok(())
}

// So many bytes from an offset of a file on, block by block.
fn read_segment(rt: &HostRuntime, file: &File, offset: u64, size: u64) -> Result<SegmentBytes> {
    let mut bytes = SegmentBytes::new(rt.alloc());
    let mut block = Vec::new(rt.alloc());
    block.resize(size.min(BLOCK_SIZE) as usize, 0)?;
    for number in 0..size.div_ceil(BLOCK_SIZE) {
        let before = number.saturating_mul(BLOCK_SIZE);
        let part = &mut block[..size.saturating_sub(before).min(BLOCK_SIZE) as usize];
        file.read_exact_at(part, offset.saturating_add(before))?;
        push_pages(&mut bytes, part)?;
    }
    Ok(bytes)
}

// The bytes of the segments that are read, at the index of each, as far as the file of this size has them. Shows how many were read.
fn read_segments(
    rt: &HostRuntime,
    file: &File,
    elf: &ElfFile<'_>,
    size: u64,
    progress: Progress,
) -> Result<Vec<SegmentBytes>> {
    let mut segments = Vec::new(rt.alloc());
    for index in 0..elf.segment_count() {
        progress.show(rt, index as usize);
        let segment = elf.segment(index)?;
        segments.push(if is_read(&segment) {
            read_segment(rt, file, segment.offset, size_left(&segment, size))?
        } else {
            SegmentBytes::new(rt.alloc())
        })?;
    }
    Ok(segments)
}

/// Reads a core in parts; none if it has to be read whole: if it isn't a regular file or not a core, if its headers aren't all there,
/// or if that would be to read more than the file, some of it twice. A file that isn't a regular one isn't opened, since a pipe can be
/// read only once.
pub(crate) fn read_parts(rt: &HostRuntime, path: &str) -> Result<Option<CoreParts>> {
    let metadata = fs::metadata(rt, path)?;
    let size = metadata.len();
    if !metadata.is_file() || size < ELF_HEADER_SIZE {
        return Ok(None);
    }
    let file = File::open(rt, path)?;
    let start = first_bytes(rt, &file, size.min(BLOCK_SIZE))?;
    let Some(end) = headers_end(&start) else {
        return Ok(None);
    };
    if end > size {
        return Ok(None);
    }
    let head = first_bytes(rt, &file, end.max(ELF_HEADER_SIZE))?;
    let Ok(elf) = ElfFile::parse(&head) else {
        return Ok(None);
    };
    match segments_size(&elf, size) {
        Ok(all) if end.saturating_add(all) <= size => {
            let count = elf.segment_count() as usize;
            let progress = Progress::new(rt, "segments of the core", count);
            let segments = read_segments(rt, &file, &elf, size, progress);
            progress.clear(rt);
            let segments = segments?;
            Ok(Some(CoreParts { head, segments }))
        }
        _ => Ok(None),
    }
}
