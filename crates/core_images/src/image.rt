//! The bytes of a file as a core's memory has them.

ghost use Rattle.std.specs.Prelude.{◌≡◌, ◌++◌, option_map, replicate, IfOk, OnOk};
ghost use Rattle.core_files.specs.CoreViews.{contents_of};
ghost use Rattle.core_images.specs.Images.{can_begin, file_image, known_bytes};
ghost use Rattle.core_images.specs.RunViews.{file_byte, run_seen};

use crate::mappings::{are_apart, mappings_named, run_of_file};
use crate::runs::Run;
use core_files::{CoreFile, MappedFile, MemoryRange};
use std::alloc::{AllocError, Global};

// What an ELF file begins with (EI_MAG0).
const ELF_MAGIC_0: u8 = 0x7f;

// The size of an ELF header.
const ELF_HEADER_SIZE: usize = 64;

// The first byte of a file with these mappings, if it is known.
fn first_byte(segments: &[MemoryRange<'_>], mappings: &[MappedFile<'_>]) -> Option<u8>
    ensures { result ≡ file_byte segments.now mappings.now 0 }
{
    match run_of_file(segments, mappings, 0) {
        Some(Run::Zeros(_)) => Some(0),
        Some(Run::Bytes(bytes)) => Some(bytes[0]),
        None => None,
    }
}

// Whether an ELF file can begin with what the core has of a file.
fn can_begin(segments: &[MemoryRange<'_>], mappings: &[MappedFile<'_>]) -> bool
    ensures { result ≡ can_begin (file_byte segments.now mappings.now 0) }
{
    match first_byte(segments, mappings) {
        Some(first) => first == ELF_MAGIC_0,
        None => false,
    }
}

// Adds so many zeros at the end.
fn push_zeros(image: &mut Vec<u8>, count: u64) -> Result<(), AllocError>
    ensures { OnOk result (image.new.items ≡ image.old.items ++ replicate count 0) }
{
    for i in 0..count {
        image.push(0)?;
    }
    Ok(())
}

// Adds bytes at the end.
fn push_run(image: &mut Vec<u8>, run: &Run<'_>) -> Result<(), AllocError>
    ensures { OnOk result (image.new.items ≡ image.old.items ++ run_seen run.now) }
{
    match run {
        Run::Zeros(count) => push_zeros(image, *count),
        Run::Bytes(bytes) => image.extend_from_slice(bytes),
    }
}

// The bytes of a file with these mappings, up to the first that isn't known.
fn known_bytes(
    alloc: Global,
    segments: &[MemoryRange<'_>],
    mappings: &[MappedFile<'_>],
) -> Result<Vec<u8>, AllocError>
    ensures { IfOk result
        (λ image. image.items ≡ known_bytes (file_byte segments.now mappings.now)) }
{
    let mut image = Vec::new(alloc);
    while let Some(run) = run_of_file(segments, mappings, image.len() as u64) {
        push_run(&mut image, &run)?;
    }
    Ok(image)
}

/// The bytes of the file of this name, as the core's memory has them, from its first byte on: each at the address at which the first
/// mapping of the file that has its offset has it, up to the first offset that no mapping has, or whose byte the core hasn't. None if
/// these aren't the whole header of an ELF file, or if two of the core's mappings overlap or are out of order, as Linux doesn't write them.
/// Fails if memory is refused.
pub fn file_image(
    alloc: Global,
    core: &CoreFile<'_>,
    name: &[u8],
) -> Result<Option<Vec<u8>>, AllocError>
    ensures { IfOk result
        (λ image. option_map (λ bytes. bytes.items) image ≡ file_image (contents_of core.now) name.now) }
{
    if !are_apart(core.mapped_files()) {
        return Ok(None);
    }
    let mappings = mappings_named(alloc, core.mapped_files(), name)?;
    if !can_begin(core.segments(), mappings.as_slice()) {
        return Ok(None);
    }
    let image = known_bytes(alloc, core.segments(), mappings.as_slice())?;
    if image.len() < ELF_HEADER_SIZE {
        return Ok(None);
    }
    Ok(Some(image))
}
