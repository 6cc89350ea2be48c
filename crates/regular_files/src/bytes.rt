//! The bytes of regular files.

ghost use Rattle.std.specs.Prelude.{◌≡◌, IfOk, vec_len};

use std::fs::File;
use std::os::unix::fs::FileExt;
use std::{fs, io};

// How much of a file is read at once, to be appended to the bytes before. `Vec::resize`, by which a vector could be read into at once,
// fills byte by byte.
const PIECE: usize = 1 << 14;

// What an ELF file begins with.
const MAGIC: [u8; 4] = *b"\x7fELF";

/// So many bytes of a file from its start on, in as much memory. Fails if it has fewer, or can't be read.
pub fn first_bytes(rt: &HostRuntime, file: &File, size: u64) -> io::Result<Vec<u8>>
    ensures { IfOk result (λ bytes. vec_len bytes ≡ size) }
{
    let mut bytes = Vec::with_capacity(rt.alloc(), size as usize)?;
    let mut room = [0; PIECE];
    'pieces: while (bytes.len() as u64) < size {
        let before = bytes.len() as u64;
        let piece = &mut room[..(size - before).min(PIECE as u64) as usize];
        file.read_exact_at(piece, before)?;
        bytes.extend_from_slice(piece)?;
    }
    Ok(bytes)
}

// Whether a file of this size begins as ELF files do.
fn begins_as_elf(rt: &HostRuntime, file: &File, size: u64) -> io::Result<bool> {
    let start = first_bytes(rt, file, size.min(MAGIC.len() as u64))?;
    Ok(start.as_slice() == MAGIC.as_slice())
}

/// The bytes of the regular file at a path, or none if it doesn't begin as ELF files do: such a file may be large, and isn't read. Fails if
/// there is no regular file, or if it can't be read. Any other, as a device or a pipe, isn't opened.
pub fn elf_bytes(rt: &HostRuntime, path: &str) -> io::Result<Option<Vec<u8>>> {
    let metadata = fs::metadata(rt, path)?;
    if !metadata.is_file() {
        return Err(io::Error::from(io::ErrorKind::InvalidInput));
    }
    let size = metadata.len();
    let file = File::open(rt, path)?;
    if begins_as_elf(rt, &file, size)? {
        Ok(Some(first_bytes(rt, &file, size)?))
    } else {
        Ok(None)
    }
}
