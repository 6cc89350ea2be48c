//! The files of a core's process.

ghost use Rattle.std.specs.Prelude.{◌≡◌, map};
ghost use Rattle.std.specs.Option.{option_copied, option_map};
ghost use Rattle.core_files.specs.CoreViews.{contents_of};
ghost use Rattle.core_files.specs.FileViews.{mapping_of};
ghost use Rattle.core_files.specs.NoteViews.{mappings_of};
ghost use Rattle.backtrace_files.specs.FileViews.{file_seen};
ghost use Rattle.backtrace_files.specs.GivenViews.{given_seen};
ghost use Rattle.backtrace_files.specs.ProcessFiles.{file_by, files_with, given_at, kept_bytes, kept_debug, process_files, shared_object};
ghost use Rattle.backtrace_files.specs.Results.{IfOkAre};

use crate::build_ids::{file_at, has_other_build_id, is_debug_file_of};
use crate::loaded_file::LoadedFile;
use core_files::{CoreFile, MappedFile};
use std::alloc::{AllocError, Global};

/// What is given of a file that is mapped into a process.
#[derive(Clone, Copy, Debug)]
pub struct GivenFile<'a> {
    /// Its bytes, if they are there.
    pub bytes: Option<&'a [u8]>,
    /// Those of its debug file, which has its symbols, if there is one.
    pub debug: Option<&'a [u8]>,
}

// The type of the entry of the auxiliary vector with the address of the virtual shared object.
const AT_SYSINFO_EHDR: u64 = 33;

// The bytes of a mapped file, unless they are those of another file.
fn kept_bytes<'a>(
    core: &CoreFile<'a>,
    mapping: &MappedFile<'a>,
    bytes: Option<&'a [u8]>,
) -> Option<&'a [u8]>
    ensures { option_copied result
        ≡ kept_bytes (contents_of core.now) (mapping_of mapping.now) (option_copied bytes.entry) }
{
    let Some(bytes) = bytes else {
        return None;
    };
    if has_other_build_id(core, mapping.name, bytes) {
        None
    } else {
        Some(bytes)
    }
}

// The bytes of the debug file of a file, if they are those of one.
fn kept_debug<'a>(bytes: &[u8], given: Option<&'a [u8]>) -> Option<&'a [u8]>
    ensures { option_copied result ≡ kept_debug bytes.now (option_copied given.entry) }
{
    let Some(debug) = given else {
        return None;
    };
    if is_debug_file_of(bytes, debug) {
        Some(debug)
    } else {
        None
    }
}

// What is given by a number, if anything is.
fn given_at<'a>(given: &[GivenFile<'a>], number: usize) -> GivenFile<'a>
    ensures { given_seen result ≡ given_at (map given_seen given.now) number }
{
    match given.get(number) {
        Some(file) => *file,
        None => GivenFile {
            bytes: None,
            debug: None,
        },
    }
}

// A mapping with what is given of its file, as far as it is kept.
fn file_by<'a>(
    core: &CoreFile<'a>,
    mapping: &MappedFile<'a>,
    given: &GivenFile<'a>,
) -> LoadedFile<'a>
    ensures { file_seen result
        ≡ file_by (contents_of core.now) (mapping_of mapping.now) (given_seen given.now) }
{
    let bytes = kept_bytes(core, mapping, given.bytes);
    LoadedFile {
        mapping: *mapping,
        bytes,
        debug: match bytes {
            Some(known) => kept_debug(known, given.debug),
            None => None,
        },
    }
}

// Mapped files of a core in their order, with what is given by their numbers.
fn files_with<'a>(
    alloc: Global,
    core: &CoreFile<'a>,
    mappings: &[MappedFile<'a>],
    given: &[GivenFile<'a>],
) -> Result<Vec<LoadedFile<'a>>, AllocError>
    ensures { IfOkAre file_seen result (files_with (contents_of core.now)
        (map given_seen given.now) (mappings_of mappings.now)) }
{
    let mut files = Vec::new(alloc);
    for (number, mapping) in mappings.iter().enumerate() {
        files.push(file_by(core, mapping, &given_at(given, number)))?;
    }
    Ok(files)
}

// The virtual shared object, which the kernel maps, by the core's memory.
fn shared_object<'a>(core: &CoreFile<'a>) -> Option<LoadedFile<'a>>
    ensures { option_map file_seen result ≡ shared_object (contents_of core.now) }
{
    let Some(start) = core.auxiliary(AT_SYSINFO_EHDR) else {
        return None;
    };
    let Some(bytes) = file_at(core.segments(), start) else {
        return None;
    };
    Some(LoadedFile {
        mapping: MappedFile {
            start,
            end: start.saturating_add(bytes.len() as u64),
            offset: 0,
            name: b"[vdso]",
        },
        bytes: Some(bytes),
        debug: None,
    })
}

/// The files of a core's process, in the order of the core, and then the virtual shared object, if the core has it, with what is given by
/// the numbers of the mappings. The bytes of a file with another build id than the core has are left out, and those of a debug file that
/// hasn't its file's.
pub fn process_files<'a>(
    alloc: Global,
    core: &CoreFile<'a>,
    given: &[GivenFile<'a>],
) -> Result<Vec<LoadedFile<'a>>, AllocError>
    ensures { IfOkAre file_seen result
        (process_files (contents_of core.now) (map given_seen given.now)) }
{
    let mut files = files_with(alloc, core, core.mapped_files(), given)?;
    if let Some(object) = shared_object(core) {
        files.push(object)?;
    }
    Ok(files)
}
