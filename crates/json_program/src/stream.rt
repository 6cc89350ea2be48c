//! The source that a document is read from, and the sink that text is written to.

ghost use Rattle.std.specs.Prelude.{◌≡◌, ◌<◌, ◌||◌, ℕ, List, length, Bool, false, Option, Some, IfOk, codes, is_err};
ghost use Rattle.std.specs.Io.{ReadsAtMost, WritesAtMost};
ghost use Rattle.std.specs.Io.KnownBytes.{ReadConsumes, WriteAppends};
ghost use Rattle.json_program.specs.Stream.{inner_of, has_broken};

use std::io::{Read, Write};
use std::{fmt, io};

/// A call of a [`Source`] or [`Sink`] failed. The error doesn't tell the cause.
#[derive(Clone, Copy, Debug, PartialEq, Eq)]
pub struct StreamError;

impl fmt::Display for StreamError {
    ghost output = { λ _. Some (codes "a stream failed") };

    fn fmt<W: fmt::Write>(&self, f: &mut fmt::Formatter<W>) -> fmt::Result {
        f.write_str("a stream failed")
    }
}

/// What a document is read from.
pub trait Source {
    /// The bytes that are still to come, or `None` if they aren't known.
    ghost remaining: { Self → Option (List ℕ) };

    /// Whether a call has failed.
    ghost has_failed: { Self → Bool };

    /// Reads bytes into the beginning of `buffer`, and returns how many: any call may read fewer than
    /// there is room for, but 0 only at the end or if `buffer` is empty. A call that fails reads
    /// nothing.
    fn read_some(&mut self, buffer: &mut [u8]) -> Result<usize, StreamError>
        ensures bound { ReadsAtMost result buffer.new }
        ensures bytes { ReadConsumes (remaining self.old) (remaining self.new)
            result buffer.new }
        ensures failed { has_failed self.new ≡ (has_failed self.old || is_err result) };

    /// Whether a call has failed, so that bytes may be missing.
    fn failed(&self) -> bool
        ensures { result ≡ has_failed self.now };
}

/// What text is written to.
pub trait Sink {
    /// All bytes that were written, or `None` if they aren't known.
    ghost contents: { Self → Option (List ℕ) };

    /// Whether a call has failed.
    ghost has_failed: { Self → Bool };

    /// Writes a prefix of `bytes`, and returns its length. It fails, and writes nothing, if `bytes` isn't
    /// empty and not one of them can be written.
    fn write_some(&mut self, bytes: &[u8]) -> Result<usize, StreamError>
        ensures bound { WritesAtMost result bytes.now }
        ensures bytes { WriteAppends (contents self.old) (contents self.new) result bytes.now }
        ensures progress { IfOk result (λ count. 0 < length bytes.now → 0 < count) }
        ensures failed { has_failed self.new ≡ (has_failed self.old || is_err result) };

    /// Whether a call has failed, so that bytes may be missing.
    fn failed(&self) -> bool
        ensures { result ≡ has_failed self.now };
}

/// A reader or writer of `std` as a [`Source`] or [`Sink`].
#[derive(Debug, Drop)]
pub struct Streamed<T> {
    inner: T,
    failed: bool,
}

impl<T> Streamed<T> {
    /// Carries a reader or writer, of which no call has failed yet.
    pub fn new(inner: T) -> Self
        ensures inner { inner_of result ≡ inner }
        ensures failed { has_broken result ≡ false }
    {
        Streamed {
            inner,
            failed: false,
        }
    }

    /// The reader or writer.
    pub fn into_inner(self) -> T
        ensures { result ≡ inner_of self }
    {
        self.inner
    }
}

impl<T: Read> Source for Streamed<T> {
    ghost remaining = { λ stream. T.remaining (inner_of stream) };

    ghost has_failed = { has_broken };

    fn read_some(&mut self, buffer: &mut [u8]) -> Result<usize, StreamError> {
        let outcome = read_retrying(&mut self.inner, buffer);
        if outcome.is_err() {
            self.failed = true;
        }
        outcome
    }

    fn failed(&self) -> bool {
        self.failed
    }
}

impl<T: Write> Sink for Streamed<T> {
    ghost contents = { λ stream. T.contents (inner_of stream) };

    ghost has_failed = { has_broken };

    fn write_some(&mut self, bytes: &[u8]) -> Result<usize, StreamError> {
        let outcome = write_retrying(&mut self.inner, bytes);
        if outcome.is_err() {
            self.failed = true;
        }
        outcome
    }

    fn failed(&self) -> bool {
        self.failed
    }
}

// One read, which is tried again if a signal interrupts it.
fn read_retrying<R: Read>(reader: &mut R, buffer: &mut [u8]) -> Result<usize, StreamError>
    ensures bound { ReadsAtMost result buffer.new }
    ensures bytes { ReadConsumes (R.remaining reader.old) (R.remaining reader.new)
        result buffer.new }
{
    for _ in 0..u64::MAX {
        match reader.read(buffer) {
            Ok(count) => return Ok(count),
            Err(error) => {
                if error.kind() != io::ErrorKind::Interrupted {
                    return Err(StreamError);
                }
            }
        }
    }
    Err(StreamError)
}

// One write, which is tried again if a signal interrupts it. It fails if a writer takes none of the
// bytes.
fn write_retrying<W: Write>(writer: &mut W, bytes: &[u8]) -> Result<usize, StreamError>
    ensures bound { WritesAtMost result bytes.now }
    ensures bytes { WriteAppends (W.contents writer.old) (W.contents writer.new) result bytes.now }
    ensures progress { IfOk result (λ count. 0 < length bytes.now → 0 < count) }
{
    for _ in 0..u64::MAX {
        match writer.write(bytes) {
            Ok(count) => {
                if count == 0 && !bytes.is_empty() {
                    return Err(StreamError);
                }
                return Ok(count);
            }
            Err(error) => {
                if error.kind() != io::ErrorKind::Interrupted {
                    return Err(StreamError);
                }
            }
        }
    }
    Err(StreamError)
}
