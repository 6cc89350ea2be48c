//! Mapped files with their bytes.

ghost use Rattle.std.specs.Prelude.{◌≡◌, ◌++◌, IfOk, OnOk};
ghost use Rattle.core_files.specs.RangeViews.{ranges_seen};
ghost use Rattle.backtrace_files.specs.Files.{ranges_of};
ghost use Rattle.backtrace_files.specs.FileViews.{files_seen, range_seen};

use core_files::{MappedFile, MemoryRange};
use std::alloc::{AllocError, Global};

/// A file, or a part of one, that is mapped into a process, with the bytes of the whole file and of its debug file, if they are there.
#[derive(Clone, Copy, Debug)]
pub struct LoadedFile<'a> {
    /// The mapping.
    pub mapping: MappedFile<'a>,
    /// All bytes of the file.
    pub bytes: Option<&'a [u8]>,
    /// All bytes of the file with its symbols.
    pub debug: Option<&'a [u8]>,
}

// Adds what a mapped file has of the memory of its process, if its bytes are there.
fn push_range<'a>(
    ranges: &mut Vec<MemoryRange<'a>>,
    file: &LoadedFile<'a>,
) -> Result<(), AllocError>
    ensures { OnOk result (ranges_seen ranges.new.items ≡ ranges_seen ranges.old.items ++ range_seen file.now) }
{
    let Some(bytes) = file.bytes else {
        return Ok(());
    };
    ranges.push(file.mapping.range(bytes))?;
    Ok(())
}

/// What mapped files have of the memory of their process, in their order.
pub fn memory_ranges<'a>(
    alloc: Global,
    files: &[LoadedFile<'a>],
) -> Result<Vec<MemoryRange<'a>>, AllocError>
    ensures { IfOk result (λ ranges. ranges_seen ranges.items ≡ ranges_of (files_seen files.now)) }
{
    let mut ranges = Vec::new(alloc);
    for file in files {
        push_range(&mut ranges, file)?;
    }
    Ok(ranges)
}
