//! Reads a whole document, and writes a whole text.

ghost use Rattle.std.specs.Prelude.{◌≡◌, ◌+◌, ◌<◌, ◌≤◌, ◌↔◌, length, vec_len, false, IsTrue, IfOk, IsErrOf, IsOkUnless};
ghost use Rattle.std.specs.Io.KnownBytes.{IsAtEnd};
ghost use Rattle.json_program.specs.Errors.{ReportsFailures};
ghost use Rattle.json_program.specs.Stream.{ReadsPiece, ReadsUpTo, WritesText};
ghost use Rattle.json_program.specs.declared.transfer.TheConstants.{DOCUMENT_LIMIT};

use crate::status::RunError;
use crate::stream::{Sink, Source};
use std::alloc::{AllocError, Global};

/// The most bytes that a document may have.
pub const DOCUMENT_LIMIT: usize = 16_777_216;

// How many bytes one read asks for.
const CHUNK: usize = 65_536;

/// Reads a document to its end. Of one that is longer than [`DOCUMENT_LIMIT`] it reads one byte
/// more than that.
pub fn read_document<S: Source>(alloc: Global, source: &mut S) -> Result<Vec<u8>, RunError>
    requires { S.has_failed source.old ≡ false }
    ensures document { IfOk result (λ bytes. ReadsUpTo (DOCUMENT_LIMIT + 1)
        (S.remaining source.old) (S.remaining source.new) bytes.items) }
    ensures errors { ReportsFailures result (S.has_failed source.new) false }
{
    read_up_to(alloc, source, DOCUMENT_LIMIT + 1)
}

// Reads to the end of the source, or `most` bytes if there are more.
fn read_up_to<S: Source>(alloc: Global, source: &mut S, most: usize) -> Result<Vec<u8>, RunError>
    requires { S.has_failed source.old ≡ false }
    ensures bytes { IfOk result (λ bytes. ReadsUpTo most
        (S.remaining source.old) (S.remaining source.new) bytes.items) }
    ensures errors { ReportsFailures result (S.has_failed source.new) false }
{
    let mut chunk = new_chunk(alloc)?;
    let mut bytes = Vec::new(alloc);
    'pieces: while bytes.len() < most {
        let room = chunk.len().min(most - bytes.len());
        let count = read_piece(source, &mut chunk, room, &mut bytes)?;
        if count == 0 {
            return Ok(bytes);
        }
    }
    Ok(bytes)
}

// Room for one read.
fn new_chunk(alloc: Global) -> Result<Vec<u8>, AllocError>
    ensures { IfOk result (λ chunk. 0 < vec_len chunk) }
{
    vec![in alloc; 0u8; CHUNK]
}

// Reads up to `room` bytes through `chunk`, appends them to `document`, and returns how many: 0 at
// the source's end.
fn read_piece<S: Source>(
    source: &mut S,
    chunk: &mut [u8],
    room: usize,
    document: &mut Vec<u8>,
) -> Result<usize, RunError>
    requires room { 0 < room }
    requires chunk { room ≤ length chunk.old }
    requires fresh { S.has_failed source.old ≡ false }
    ensures piece { IfOk result (λ count. ReadsPiece room count
        (S.remaining source.old) (S.remaining source.new) document.old document.new) }
    ensures end { result ≡ Ok 0 → IsAtEnd (S.remaining source.new) }
    ensures errors { ReportsFailures result (S.has_failed source.new) false }
{
    let Ok(count) = source.read_some(&mut chunk[..room]) else {
        return Err(RunError::Read);
    };
    document.extend_from_slice(&chunk[..count])?;
    Ok(count)
}

/// Writes all of `bytes`. The error is `Write`; a prefix of `bytes` is written then.
pub fn write_all<S: Sink>(sink: &mut S, bytes: &[u8]) -> Result<(), RunError>
    requires { S.has_failed sink.old ≡ false }
    ensures text { WritesText result (S.contents sink.old) (S.contents sink.new) bytes.now }
    ensures write { IsErrOf result RunError.Write ↔ IsTrue (S.has_failed sink.new) }
    ensures only_write { IsOkUnless result RunError.Write }
{
    let mut written = 0;
    while written < bytes.len() {
        let Ok(count) = sink.write_some(&bytes[written..]) else {
            return Err(RunError::Write);
        };
        written += count;
    }
    Ok(())
}
