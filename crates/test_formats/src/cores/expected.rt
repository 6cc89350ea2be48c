//! What is expected of cores.

use crate::cores::listed::Listed;
use crate::cores::registers::in_order;
use core_files::{CoreError, CoreFile, SegmentBytes};
use elf_files::{ElfFile, SegmentKind};
use std::alloc::Global;
use std::process::Abort;

fn expect_threads(rt: &impl Abort, alloc: Global, core: &CoreFile<'_>, listed: &Listed) {
    assert!(rt; core.threads().len() == listed.threads.len());
    for (thread, (id, registers)) in core.threads().iter().zip(listed.threads) {
        assert!(rt; thread.id == *id && thread.pointer_authentication_masks.is_none());
        let given = in_order(alloc, &thread.registers).expect(rt, "memory");
        assert!(rt; given.as_slice() == *registers);
    }
}

fn expect_files(rt: &impl Abort, core: &CoreFile<'_>, listed: &Listed) {
    assert!(rt; core.mapped_files().len() == listed.files.len());
    for (file, (start, end, offset, name)) in core.mapped_files().iter().zip(listed.files) {
        assert!(rt; (file.start, file.end, file.offset) == (*start, *end, *offset));
        assert!(rt; file.name == *name);
    }
}

/// The notes of the core say what is listed.
pub fn expect_notes(rt: &impl Abort, alloc: Global, core: &CoreFile<'_>, listed: &Listed) {
    expect_threads(rt, alloc, core, listed);
    expect_files(rt, core, listed);
    for (kind, value) in listed.auxiliary {
        assert!(rt; core.auxiliary(*kind) == Some(*value));
    }
    assert!(rt; core.auxiliary(1000).is_none());
}

/// Why a core isn't read, as a whole or in parts.
pub fn refusal(alloc: Global, bytes: &[u8], parts: Option<&[SegmentBytes]>) -> Option<CoreError> {
    let core = match parts {
        Some(parts) => CoreFile::parse_in_parts(alloc, bytes, parts),
        None => CoreFile::parse(alloc, bytes),
    };
    match core {
        Ok(_) => None,
        Err(error) => Some(error),
    }
}

/// Where the first loaded segment is, which comes after all notes.
pub fn notes_end(elf: &ElfFile<'_>) -> u64 {
    for index in 0..elf.segment_count() {
        if let Ok(segment) = elf.segment(index)
            && segment.kind == SegmentKind::Load
        {
            return segment.offset;
        }
    }
    0
}
