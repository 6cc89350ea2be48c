//! Cores that are read in parts.

use crate::cores::expected::{expect_notes, notes_end, refusal};
use crate::cores::listed::Listed;
use crate::cores::real_cores::{AARCH64, X86_64};
use core_files::{CoreError, CoreFile, SegmentBytes};
use elf_files::{ElfError, ElfFile};
use std::alloc::{AllocError, Global};
use std::process::Abort;

// The bytes of a segment, if there are such.
fn bytes_of<'a>(elf: &ElfFile<'a>, index: u32) -> &'a [u8] {
    if elf.segment_count() <= index {
        return &[];
    }
    match elf.segment(index) {
        Ok(segment) => elf.segment_bytes(&segment).unwrap_or(&[]),
        Err(_) => &[],
    }
}

// These bytes in blocks of a size.
fn part_of(alloc: Global, bytes: &[u8], block_size: usize) -> Result<SegmentBytes, AllocError> {
    let mut part = SegmentBytes::new(alloc);
    for block in bytes.chunks(block_size.max(1)) {
        part.push(block)?;
    }
    Ok(part)
}

// The bytes of all segments of a core, in blocks of a size, without the last one of the segment with an index.
fn parts_of(
    alloc: Global,
    elf: &ElfFile<'_>,
    block_size: usize,
    shorter: Option<u32>,
) -> Result<Vec<SegmentBytes>, AllocError> {
    let mut parts = Vec::new(alloc);
    for index in 0..elf.segment_count() {
        let bytes = bytes_of(elf, index);
        let lost = usize::from(shorter == Some(index));
        let left = bytes.len().saturating_sub(lost);
        parts.push(part_of(alloc, &bytes[..left], block_size)?)?;
    }
    Ok(parts)
}

fn headers_of<'a>(elf: &ElfFile<'a>) -> &'a [u8] {
    let end = elf.segment_table_end().unwrap_or(u64::MAX);
    &elf.bytes[..elf.bytes.len().min(end as usize)]
}

// A core says in parts what it says as a whole.
fn expect_same(rt: &impl Abort, alloc: Global, listed: &Listed, block_size: usize) {
    let elf = ElfFile::parse(listed.bytes).expect(rt, "a file");
    let whole = CoreFile::parse(alloc, listed.bytes).expect(rt, "a core");
    let parts = parts_of(alloc, &elf, block_size, None).expect(rt, "parts");
    let core = CoreFile::parse_in_parts(alloc, headers_of(&elf), &parts).expect(rt, "a core");
    assert!(rt; !core.is_cut_off() && core.machine() == whole.machine());
    assert!(rt; core.auxiliary(33) == whole.auxiliary(33));
    expect_notes(rt, alloc, &core, listed);
    assert!(rt; core.segments().len() == whole.segments().len());
    let memory = core.memory(&[]);
    let expected = whole.memory(&[]);
    for segment in whole.segments() {
        for offset in 0..segment.bytes.len() as u64 {
            let address = segment.address.wrapping_add(offset);
            assert!(rt; memory.byte(address) == expected.byte(address));
            assert!(rt; memory.word(address) == expected.word(address));
        }
    }
}

#[test]
fn in_blocks(rt: HostRuntime) {
    for listed in [&X86_64, &AARCH64] {
        for block_size in [1, 8, 4096] {
            expect_same(&rt, rt.alloc(), listed, block_size);
        }
    }
}

#[test]
fn parts_that_are_cut_off(rt: HostRuntime) {
    let elf = ElfFile::parse(X86_64.bytes).expect(&rt, "a file");
    let head = headers_of(&elf);
    for shorter in 0..elf.segment_count() {
        let parts = parts_of(rt.alloc(), &elf, 8, Some(shorter)).expect(&rt, "parts");
        match CoreFile::parse_in_parts(rt.alloc(), head, &parts) {
            Ok(core) => assert!(rt; shorter != 0 && core.is_cut_off()),
            // Notes have to be whole.
            Err(error) => {
                let is_cut_off = matches!(error, CoreError::Elf(ElfError::Truncated { .. }));
                assert!(rt; shorter == 0 && is_cut_off, "{error:?}");
            }
        }
    }
}

#[test]
fn parts_that_are_not_those_of_the_core(rt: HostRuntime) {
    let elf = ElfFile::parse(X86_64.bytes).expect(&rt, "a file");
    let head = headers_of(&elf);
    assert!(rt; head.len() > 64);
    let offset = notes_end(&elf);
    let truncated = Some(CoreError::Elf(ElfError::Truncated { offset }));
    let mut parts = parts_of(rt.alloc(), &elf, 4096, None).expect(&rt, "parts");
    // The headers are cut off.
    let cut = refusal(rt.alloc(), &head[..head.len() - 1], Some(&parts));
    assert!(rt; cut == Some(CoreError::Elf(ElfError::Truncated { offset: 64 })));
    // No segment was read.
    assert!(rt; refusal(rt.alloc(), head, Some(&[])) == truncated);
    // Each has a byte more than its program header says.
    for part in &mut parts {
        part.push(&[0]).expect(&rt, "memory");
    }
    assert!(rt; refusal(rt.alloc(), head, Some(&parts)) == truncated);
}
