//! The files that are mapped into a core's process, as the system gives them.

use crate::arguments::CoreRequest;
use crate::progress::Progress;
use backtrace_files::{GivenFile, build_id_of, has_other_build_id, is_debug_file_of};
use core_files::{CoreFile, MappedFile};
use core_images::file_image;
use debug_links::{debug_link_of, linked_paths};
use elf_files::ElfFile;
use function_index::has_symbol_table;
use regular_files::{build_id_path, elf_bytes};
use std::alloc::{AllocError, Global};
use std::{io, str};

/// A file that a core names, with its bytes if they could be read.
#[derive(Debug, Drop)]
pub(crate) struct NamedFile<'a> {
    /// The name.
    pub(crate) name: &'a [u8],
    /// The bytes, or why there are none.
    pub(crate) bytes: io::Result<Vec<u8>>,
    /// The bytes that the core's memory has, if the file can't be read or has another build id, and they are there.
    pub(crate) image: Option<Vec<u8>>,
    /// The bytes of its debug file, if it has no symbols itself and there is one.
    pub(crate) debug: Option<Vec<u8>>,
}

// The file of this name, if it was read before.
fn file_named<'f, 'a>(files: &'f [NamedFile<'a>], name: &[u8]) -> Option<&'f NamedFile<'a>> {
    for file in files {
        if file.name == name {
            return Some(file);
        }
    }
    None
}

// The bytes of a file that a core names, below a folder. One that isn't an ELF file has no code: it has none.
fn read_below(rt: &HostRuntime, root: &str, name: &[u8]) -> io::Result<Vec<u8>> {
    let Ok(name) = str::from_utf8(name) else {
        return Err(io::Error::from(io::ErrorKind::InvalidInput));
    };
    let path = format!(in rt.alloc(); "{root}{name}")?;
    match elf_bytes(rt, path.as_str())? {
        Some(bytes) => Ok(bytes),
        None => Ok(Vec::new(rt.alloc())),
    }
}

// Whether a file with these bytes has a table of symbols.
fn has_symbols(bytes: &[u8]) -> bool {
    match ElfFile::parse(bytes) {
        Ok(elf) => has_symbol_table(&elf),
        Err(_) => false,
    }
}

// The bytes of the ELF file at a path, if it can be read and has symbols.
fn read_symbols(rt: &HostRuntime, path: &str) -> Option<Vec<u8>> {
    match elf_bytes(rt, path) {
        Ok(Some(found)) if has_symbols(found.as_slice()) => Some(found),
        _ => None,
    }
}

// The bytes of the file that is named by the build id of one with these bytes, below a folder.
fn read_by_id(rt: &HostRuntime, folder: &str, bytes: &[u8]) -> Result<Option<Vec<u8>>, AllocError> {
    let Some(build_id) = build_id_of(bytes) else {
        return Ok(None);
    };
    let folder = format!(in rt.alloc(); "{folder}/.build-id")?;
    let path = build_id_path(rt.alloc(), folder.as_str(), build_id, ".debug")?;
    Ok(read_symbols(rt, path.as_str()))
}

// The bytes of the first file at these paths that is the debug file of one with these bytes, or else those of the last, which isn't.
fn read_first(rt: &HostRuntime, paths: &[Vec<u8>], bytes: &[u8]) -> Option<Vec<u8>> {
    let mut other = None;
    for path in paths {
        let Ok(path) = str::from_utf8(path.as_slice()) else {
            continue;
        };
        let Some(found) = read_symbols(rt, path) else {
            continue;
        };
        if is_debug_file_of(bytes, found.as_slice()) {
            return Some(found);
        }
        other = Some(found);
    }
    other
}

// The bytes of the file that one of this name links to.
fn read_by_link(
    rt: &HostRuntime,
    request: &CoreRequest<'_>,
    name: &[u8],
    bytes: &[u8],
) -> Result<Option<Vec<u8>>, AllocError> {
    let Some(link) = debug_link_of(bytes) else {
        return Ok(None);
    };
    let paths = linked_paths(
        rt.alloc(),
        request.root.as_bytes(),
        request.debug_root.as_bytes(),
        name,
        link.name,
    )?;
    Ok(read_first(rt, paths.as_slice(), bytes))
}

// Whether a file that was found is the debug file of one with these bytes.
fn is_found(bytes: &[u8], found: &Option<Vec<u8>>) -> bool {
    match found {
        Some(debug) => is_debug_file_of(bytes, debug.as_slice()),
        None => false,
    }
}

// The bytes of the debug file of a file that has no symbols, by its build id, or else by its link; or those of one of another build, if
// only such are there.
fn read_debug(
    rt: &HostRuntime,
    request: &CoreRequest<'_>,
    name: &[u8],
    bytes: &[u8],
) -> Result<Option<Vec<u8>>, AllocError> {
    if has_symbols(bytes) {
        return Ok(None);
    }
    let by_id = read_by_id(rt, request.debug_root, bytes)?;
    if is_found(bytes, &by_id) {
        return Ok(by_id);
    }
    let by_link = read_by_link(rt, request, name, bytes)?;
    Ok(by_link.or(by_id))
}

// Whether a file was read, and isn't another than the one of this name that was mapped.
fn is_there(core: &CoreFile<'_>, name: &[u8], bytes: &io::Result<Vec<u8>>) -> bool {
    match bytes {
        Ok(known) => !has_other_build_id(core, name, known.as_slice()),
        Err(_) => false,
    }
}

// Reads the file that a core names, below a folder, or else takes what the core's memory has of it.
fn read_file<'a>(
    rt: &HostRuntime,
    request: &CoreRequest<'_>,
    core: &CoreFile<'_>,
    name: &'a [u8],
) -> Result<NamedFile<'a>, AllocError> {
    let bytes = read_below(rt, request.root, name);
    let image = if is_there(core, name, &bytes) {
        None
    } else {
        file_image(rt.alloc(), core, name)?
    };
    Ok(NamedFile {
        name,
        bytes,
        image,
        debug: None,
    })
}

// The same with its debug file.
fn read_with_debug<'a>(
    rt: &HostRuntime,
    request: &CoreRequest<'_>,
    core: &CoreFile<'_>,
    name: &'a [u8],
) -> Result<NamedFile<'a>, AllocError> {
    let file = read_file(rt, request, core, name)?;
    let debug = match file.known_bytes() {
        Some(known) => read_debug(rt, request, name, known)?,
        None => None,
    };
    Ok(NamedFile { debug, ..file })
}

// Whether a name is among others.
fn is_among(names: &[&[u8]], name: &[u8]) -> bool {
    for other in names {
        if *other == name {
            return true;
        }
    }
    false
}

// The names of the files of mappings, each once.
fn file_names<'a>(alloc: Global, mappings: &[MappedFile<'a>]) -> Result<Vec<&'a [u8]>, AllocError> {
    let mut names = Vec::new(alloc);
    for mapping in mappings {
        if !is_among(names.as_slice(), mapping.name) {
            names.push(mapping.name)?;
        }
    }
    Ok(names)
}

// Reads the files of these names and their debug files, and shows how many were read.
fn read_named<'a>(
    rt: &HostRuntime,
    request: &CoreRequest<'_>,
    core: &CoreFile<'_>,
    names: &[&'a [u8]],
    progress: Progress,
) -> Result<Vec<NamedFile<'a>>, AllocError> {
    let mut files = Vec::new(rt.alloc());
    for (number, name) in names.iter().enumerate() {
        progress.show(rt, number);
        files.push(read_with_debug(rt, request, core, *name)?)?;
    }
    Ok(files)
}

/// Reads the files that a core names, each once, and their debug files.
pub(crate) fn read_files<'a>(
    rt: &HostRuntime,
    request: &CoreRequest<'_>,
    core: &CoreFile<'a>,
) -> Result<Vec<NamedFile<'a>>, AllocError> {
    let names = file_names(rt.alloc(), core.mapped_files())?;
    let progress = Progress::new(rt, "files", names.len());
    let files = read_named(rt, request, core, names.as_slice(), progress);
    progress.clear(rt);
    files
}

impl NamedFile<'_> {
    // The bytes that are taken for the file's: those of the core's memory, if there are such, or else its own.
    fn known_bytes(&self) -> Option<&[u8]> {
        if let Some(image) = &self.image {
            return Some(image.as_slice());
        }
        match &self.bytes {
            Ok(bytes) => Some(bytes.as_slice()),
            Err(_) => None,
        }
    }

    /// The bytes that are used for the file's: none if it is missing or another than the core's, and the core's memory has none.
    pub(crate) fn used_bytes(&self, core: &CoreFile<'_>) -> Option<&[u8]> {
        if self.image.is_some() || is_there(core, self.name, &self.bytes) {
            self.known_bytes()
        } else {
            None
        }
    }

    /// The bytes of its debug file, which may be of another build, if there is one.
    pub(crate) fn debug_bytes(&self) -> Option<&[u8]> {
        match &self.debug {
            Some(bytes) => Some(bytes.as_slice()),
            None => None,
        }
    }

    // What is known of it, if it is.
    fn given(&self) -> GivenFile<'_> {
        GivenFile {
            bytes: self.known_bytes(),
            debug: self.debug_bytes(),
        }
    }
}

/// What is known of the file of each mapping, in the order of the core.
pub(crate) fn given_files<'f>(
    alloc: Global,
    files: &'f [NamedFile<'_>],
    mappings: &[MappedFile<'_>],
) -> Result<Vec<GivenFile<'f>>, AllocError> {
    let mut given = Vec::new(alloc);
    for mapping in mappings {
        given.push(match file_named(files, mapping.name) {
            Some(file) => file.given(),
            None => GivenFile {
                bytes: None,
                debug: None,
            },
        })?;
    }
    Ok(given)
}
