//! Cores that gdb and qemu made, and such that are cut off or changed.

use crate::cores::expected::{expect_notes, notes_end, refusal};
use crate::cores::listed::Listed;
use crate::cores::real_cores::{AARCH64, X86_64};
use core_files::{CoreError, CoreFile, DescriptorError, Memory, MemoryRange};
use elf_files::{ElfError, ElfFile, Machine};
use std::alloc::Global;
use std::process::Abort;

#[test]
fn as_other_tools_read_them(rt: HostRuntime) {
    for (machine, listed) in [(Machine::X86_64, &X86_64), (Machine::Aarch64, &AARCH64)] {
        let core = CoreFile::parse(rt.alloc(), listed.bytes).expect(&rt, "a core");
        assert!(rt; core.machine() == machine && !core.is_cut_off());
        expect_notes(&rt, rt.alloc(), &core, listed);
        let memory = core.memory(&[]);
        for (address, word) in listed.words {
            assert!(rt; memory.word(*address) == Some(*word));
        }
    }
}

// Of a segment there is what is left, and none of the rest.
fn expect_left(
    rt: &impl Abort,
    memory: &Memory<'_, '_>,
    segment: &MemoryRange<'_>,
    there: &MemoryRange<'_>,
) {
    let lost = segment.bytes.len().saturating_sub(there.bytes.len());
    assert!(rt; there.lost == lost as u64);
    for (offset, byte) in segment.bytes.iter().enumerate() {
        let found = memory.byte(segment.address.wrapping_add(offset as u64));
        assert!(rt; found == there.bytes.get(offset).copied());
        assert!(rt; found.is_none() || found == Some(*byte));
    }
}

// A core that was cut off says what it says as a whole, but for the memory that it lost.
fn expect_cut_off(rt: &impl Abort, alloc: Global, listed: &Listed, size: usize) {
    let whole = CoreFile::parse(alloc, listed.bytes).expect(rt, "a core");
    let front = &listed.bytes[..size.min(listed.bytes.len())];
    let core = CoreFile::parse(alloc, front).expect(rt, "a core");
    assert!(rt; core.is_cut_off());
    expect_notes(rt, alloc, &core, listed);
    assert!(rt; core.segments().len() == whole.segments().len());
    let memory = core.memory(&[]);
    for (segment, there) in whole.segments().iter().zip(core.segments()) {
        expect_left(rt, &memory, segment, there);
    }
}

#[test]
fn cut_off(rt: HostRuntime) {
    let size = X86_64.bytes.len();
    let end = notes_end(&ElfFile::parse(X86_64.bytes).expect(&rt, "a file")) as usize;
    assert!(rt; 0 < end && end < size && size > 100);
    for left in [size - 1, size - 9, size - 100, end] {
        expect_cut_off(&rt, rt.alloc(), &X86_64, left);
    }
    // Notes have to be whole.
    let cut = refusal(rt.alloc(), &X86_64.bytes[..end - 1], None);
    assert!(rt; matches!(cut, Some(CoreError::Elf(ElfError::Truncated { .. }))));
}

#[test]
fn refused(rt: HostRuntime) {
    let mut bytes = X86_64.bytes.to_vec(rt.alloc()).expect(&rt, "memory");
    assert!(rt; bytes.len() > 100);
    // e_machine EM_AARCH64: note 0 is an NT_PRPSINFO, and note 1 an NT_PRSTATUS of the size of x86_64.
    bytes[18] = 0xb7;
    let other = refusal(rt.alloc(), &bytes, None);
    assert!(rt; other == Some(CoreError::Descriptor(1, DescriptorError::PrstatusSize)));
    // e_type ET_EXEC.
    bytes[16] = 2;
    assert!(rt; refusal(rt.alloc(), &bytes, None) == Some(CoreError::NotCore));
}
