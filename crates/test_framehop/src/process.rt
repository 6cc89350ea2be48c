//! The files of a process, and what they have of its memory.

use crate::object::{object, other_object};
use crate::small_core::{SHARED_OBJECT, core_with};
use backtrace_files::{GivenFile, LoadedFile, memory_ranges, process_files};
use core_files::{CoreFile, MappedFile};
use std::alloc::Global;
use std::process::Abort;
use std::test::Fail;

// Whether bytes are these, or none are there.
fn are_same(bytes: Option<&[u8]>, expected: Option<&[u8]>) -> bool {
    match (bytes, expected) {
        (Some(bytes), Some(expected)) => bytes == expected,
        (None, None) => true,
        _ => false,
    }
}

// The file is mapped here, and has this name and these bytes.
fn expect(
    rt: &impl Abort,
    file: &LoadedFile<'_>,
    at: (u64, u64),
    name: &[u8],
    bytes: Option<&[u8]>,
) {
    assert!(rt; (file.mapping.start, file.mapping.offset) == at);
    assert!(rt; file.mapping.name == name);
    assert!(rt; are_same(file.bytes, bytes));
}

// What is given of a file without a debug file.
fn given(bytes: Option<&[u8]>) -> GivenFile<'_> {
    GivenFile { bytes, debug: None }
}

// A core of which this is given has the two mappings of `/a` with these bytes, one of `/b` without, and the shared object.
fn expect_files(
    rt: &impl Abort,
    alloc: Global,
    core: &CoreFile<'_>,
    given: &[GivenFile<'_>],
    first: Option<&[u8]>,
    second: Option<&[u8]>,
) -> Result<(), Fail> {
    let files = process_files(alloc, core, given)?;
    let [one, two, three, object] = files.as_slice() else {
        assert!(rt; false);
        return Ok(());
    };
    expect(rt, one, (0x7000_0000, 0), b"/a", first);
    expect(rt, two, (0x7000_0300, 0x300), b"/a", second);
    expect(rt, three, (0x7100_0000, 0), b"/b", None);
    let known = Some(SHARED_OBJECT.as_slice());
    expect(rt, object, (0x7fff_0000, 0), b"[vdso]", known);
    assert!(rt; object.mapping.end == 0x7fff_0010);
    Ok(())
}

#[test]
fn files_in_their_order_and_the_shared_object(rt: HostRuntime) -> Result<(), Fail> {
    let file = object(rt.alloc())?;
    let whole = Some(file.as_slice());
    let (known, unknown) = (given(whole), given(None));
    let bytes = core_with(rt.alloc(), &file)?;
    let core = CoreFile::parse(rt.alloc(), &bytes)?;
    expect_files(
        &rt,
        rt.alloc(),
        &core,
        &[known, known, unknown],
        whole,
        whole,
    )?;
    expect_files(&rt, rt.alloc(), &core, &[unknown, known], None, whole)?;
    expect_files(&rt, rt.alloc(), &core, &[], None, None)
}

#[test]
fn bytes_with_another_build_id_are_left_out(rt: HostRuntime) -> Result<(), Fail> {
    let file = object(rt.alloc())?;
    let other = other_object(rt.alloc())?;
    let known = given(Some(other.as_slice()));
    let bytes = core_with(rt.alloc(), &file)?;
    let core = CoreFile::parse(rt.alloc(), &bytes)?;
    expect_files(&rt, rt.alloc(), &core, &[known, known], None, None)
}

// Whether the first file of a core has a debug file, if this is given of it.
fn has_debug_file(
    alloc: Global,
    core: &CoreFile<'_>,
    bytes: Option<&[u8]>,
    debug: Option<&[u8]>,
) -> Result<bool, Fail> {
    let files = process_files(alloc, core, &[GivenFile { bytes, debug }])?;
    Ok(files.iter().take(1).any(|file| file.debug.is_some()))
}

#[test]
fn debug_files_have_the_build_id_of_their_file(rt: HostRuntime) -> Result<(), Fail> {
    let alloc = rt.alloc();
    let file = object(alloc)?;
    let other = other_object(alloc)?;
    let bytes = core_with(alloc, &file)?;
    let core = CoreFile::parse(alloc, &bytes)?;
    let whole = Some(file.as_slice());
    assert!(rt; has_debug_file(alloc, &core, whole, whole)?);
    assert!(rt; !has_debug_file(alloc, &core, whole, Some(other.as_slice()))?);
    assert!(rt; !has_debug_file(alloc, &core, None, whole)?);
    Ok(())
}

#[test]
fn ranges_of_files_with_bytes(rt: HostRuntime) -> Result<(), Fail> {
    let mapping = MappedFile {
        start: 0x1000,
        end: 0x3000,
        offset: 4,
        name: b"/a",
    };
    let files = [
        LoadedFile {
            mapping,
            bytes: None,
            debug: None,
        },
        LoadedFile {
            mapping,
            bytes: Some(b"0123456789"),
            debug: None,
        },
    ];
    let ranges = memory_ranges(rt.alloc(), &files)?;
    assert!(rt; ranges.len() == 1);
    assert!(rt; ranges[0].address == 0x1000 && ranges[0].size == 0x2000);
    assert!(rt; ranges[0].bytes == b"456789".as_slice());
    Ok(())
}
