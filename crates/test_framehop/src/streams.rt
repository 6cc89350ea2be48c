//! Runs over streams that fail, stop short, or are interrupted.

ghost use Rattle.std.specs.Prelude.{◌≡◌, Some, false};

use std::alloc::Global;
use std::io;
use std::io::{Read, Write};
use std::process::Abort;
use std::test::Fail;
use unwind_run_program::{Program, RunError, Sink, Source, StreamError, Streamed, UnwindCommands};

/// Gives at most `step` bytes at a call, and fails at each call once `calls_left` have been made.
#[derive(Drop)]
struct Script<'a> {
    rest: &'a [u8],
    step: usize,
    calls_left: usize,
    failed: bool,
}

impl Source for Script<'_> {
    ghost remaining = { λ script. Some script.rest.now };

    ghost has_failed = { λ script. script.failed };

    fn read_some(&mut self, buffer: &mut [u8]) -> Result<usize, StreamError> {
        if self.calls_left == 0 {
            self.failed = true;
            return Err(StreamError);
        }
        self.calls_left -= 1;
        let count = self.rest.len().min(buffer.len()).min(self.step.max(1));
        let (front, rest) = self.rest.split_at(count);
        buffer[..count].copy_from_slice(front);
        self.rest = rest;
        Ok(count)
    }

    fn failed(&self) -> bool {
        self.failed
    }
}

/// Takes at most `step` bytes at a call, and fails at each call once `calls_left` have been made.
#[derive(Drop)]
struct Record {
    written: Vec<u8>,
    step: usize,
    calls_left: usize,
    failed: bool,
}

impl Sink for Record {
    ghost contents = { λ sink. Some sink.written.items };

    ghost has_failed = { λ sink. sink.failed };

    fn write_some(&mut self, bytes: &[u8]) -> Result<usize, StreamError> {
        let count = bytes.len().min(self.step.max(1));
        if self.calls_left == 0 || self.written.extend_from_slice(&bytes[..count]).is_err() {
            self.failed = true;
            return Err(StreamError);
        }
        self.calls_left -= 1;
        Ok(count)
    }

    fn failed(&self) -> bool {
        self.failed
    }
}

/// Is interrupted at each second call, and fails for another cause once `calls_left` have been made.
#[derive(Drop)]
struct Nervous<T> {
    inner: T,
    is_quiet: bool,
    calls_left: usize,
}

impl<T> Nervous<T> {
    fn next_call(&mut self) -> io::Result<()> {
        self.is_quiet = !self.is_quiet;
        if self.is_quiet {
            return Err(io::Error::from(io::ErrorKind::Interrupted));
        }
        if self.calls_left == 0 {
            return Err(io::Error::from(io::ErrorKind::WouldBlock));
        }
        self.calls_left -= 1;
        Ok(())
    }
}

impl<T: Read> Read for Nervous<T> {
    fn read(&mut self, buffer: &mut [u8]) -> io::Result<usize> {
        self.next_call()?;
        self.inner.read(buffer)
    }
}

impl<T: Write> Write for Nervous<T> {
    fn write(&mut self, bytes: &[u8]) -> io::Result<usize> {
        self.next_call()?;
        self.inner.write(bytes)
    }

    fn flush(&mut self) -> io::Result<()> {
        Ok(())
    }
}

/// Two steps from the worked section: before the function's push and after it. A command after them
/// writes nothing.
const DOCUMENT: &str =
    r#"{"arch":"x86_64","policy":"may","commands":[{"do":"unwinder"},{"do":"cache"},
{"do":"load","unwinder":0,"name":"m","start":"0x100000","end":"0x102000","base":"0x100000","base_svma":"0x0","sections":
[{"name":".eh_frame","data":"100000000000000001000178100c0708900100001c0000001800000000100000000000001000000000000000410e108602430d0600000000"}]},
{"do":"step","unwinder":0,"cache":0,"kind":"ip","address":"0x101000","regs":{"ip":"0x101000","sp":"0x10","bp":"0x20"},
"stack":{"start":"0x10","words":["0x100300"]}},
{"do":"step","unwinder":0,"cache":0,"kind":"ip","address":"0x101002","regs":{"ip":"0x101002","sp":"0x20","bp":"0x20"},
"stack":{"start":"0x20","words":["0x40","0x100200"]}},
{"do":"cache"}]}"#;

/// What a run over the document writes.
const ANSWERS: &str =
    "some 0x100300 ip 0x100300 sp 0x18 bp 0x20\nsome 0x100200 ip 0x100200 sp 0x30 bp 0x40\n";

// The document, at most some bytes at a call.
fn source_in_steps<'a>(step: usize, calls_left: usize) -> Script<'a>
    ensures { result.failed ≡ false }
{
    Script {
        rest: DOCUMENT.as_bytes(),
        step,
        calls_left,
        failed: false,
    }
}

// An empty record, which takes at most some bytes at a call.
fn sink_in_steps(alloc: Global, step: usize, calls_left: usize) -> Record
    ensures { result.failed ≡ false }
{
    Record {
        written: Vec::new(alloc),
        step,
        calls_left,
        failed: false,
    }
}

// A run whose calls read and write at most so many bytes each, and fail after so many calls. It ends with this error or with none, leaves
// so many bytes of the document, and writes so many of the text.
fn expect_run(
    rt: &impl Abort,
    alloc: Global,
    (read_size, reads): (usize, usize),
    (write_size, writes): (usize, usize),
    error: Option<RunError>,
    (left, written): (usize, usize),
) {
    let mut source = source_in_steps(read_size, reads);
    let mut sink = sink_in_steps(alloc, write_size, writes);
    match UnwindCommands::run(alloc, &mut source, &mut sink) {
        Ok(ending) => assert!(rt; error.is_none() && ending.status() == 0),
        Err(found) => assert!(rt; error == Some(found)),
    }
    assert!(rt; source.failed() == (error == Some(RunError::Read)));
    assert!(rt; sink.failed() == (error == Some(RunError::Write)));
    assert!(rt; source.rest.len() == left, "{left} of {read_size}");
    let text = ANSWERS.as_bytes();
    assert!(rt;
        sink.written.as_slice() == &text[..written.min(text.len())],
        "{written} of {write_size}"
    );
}

#[test]
fn in_pieces(rt: HostRuntime) {
    let length = DOCUMENT.len();
    for size in [1, 3, 7, length - 1, length, length + 1] {
        expect_run(&rt, rt.alloc(), (size, 2_000), (1_000, 2), None, (0, 84));
    }
    for size in [1, 3, 7, 41, 42, 43] {
        expect_run(&rt, rt.alloc(), (1_000, 10), (size, 100), None, (0, 84));
    }
}

// Where a read fails nothing is written, though it be the one that would find the end. What was written before the write that fails is a
// prefix of the text.
#[test]
fn each_call_fails_in_turn(rt: HostRuntime) {
    for calls in 0..=DOCUMENT.len().div_ceil(100) {
        let left = DOCUMENT.len().saturating_sub(100 * calls);
        expect_run(
            &rt,
            rt.alloc(),
            (100, calls),
            (1_000, 2),
            Some(RunError::Read),
            (left, 0),
        );
    }
    for calls in 0..12 {
        let error = Some(RunError::Write);
        expect_run(
            &rt,
            rt.alloc(),
            (1_000, 10),
            (7, calls),
            error,
            (0, 7 * calls),
        );
    }
}

/// A writer that takes nothing.
#[derive(Drop)]
struct Full;

impl Write for Full {
    fn write(&mut self, _bytes: &[u8]) -> io::Result<usize> {
        Ok(0)
    }

    fn flush(&mut self) -> io::Result<()> {
        Ok(())
    }
}

#[test]
fn interrupted_reads_are_made_again(rt: HostRuntime) -> Result<(), Fail> {
    let mut source = Streamed::new(Nervous {
        inner: DOCUMENT.as_bytes(),
        is_quiet: false,
        calls_left: 2,
    });
    let mut sink = sink_in_steps(rt.alloc(), 1_000, 2);
    assert!(rt; UnwindCommands::run(rt.alloc(), &mut source, &mut sink)?.status() == 0);
    assert!(rt; sink.written.as_slice() == ANSWERS.as_bytes());
    let again = UnwindCommands::run(rt.alloc(), &mut source, &mut sink);
    assert!(rt; again.err() == Some(RunError::Read));
    assert!(rt; source.failed());
    assert!(rt; sink.written.as_slice() == ANSWERS.as_bytes());
    Ok(())
}

#[test]
fn interrupted_writes_are_made_again(rt: HostRuntime) -> Result<(), Fail> {
    let mut sink = Streamed::new(Nervous {
        inner: Vec::new(rt.alloc()),
        is_quiet: false,
        calls_left: 2,
    });
    assert!(rt;
        UnwindCommands::run(rt.alloc(), &mut source_in_steps(1_000, 10), &mut sink)?.status() == 0
    );
    let again = UnwindCommands::run(rt.alloc(), &mut source_in_steps(1_000, 10), &mut sink);
    assert!(rt; again.err() == Some(RunError::Write));
    assert!(rt; sink.failed());
    let written = sink.into_inner().inner;
    assert!(rt; written.as_slice() == ANSWERS.as_bytes());
    Ok(())
}

// A line of no bytes needs no writer that takes any.
#[test]
fn a_writer_that_takes_nothing_fails(rt: HostRuntime) -> Result<(), Fail> {
    let mut empty = Streamed::new(
        br#"{"arch":"x86_64","policy":"may","commands":[{"do":"cache"}]}"#.as_slice(),
    );
    let mut sink = Streamed::new(Full);
    assert!(rt; UnwindCommands::run(rt.alloc(), &mut empty, &mut sink)?.status() == 0);
    let ending = UnwindCommands::run(rt.alloc(), &mut source_in_steps(1_000, 10), &mut sink);
    assert!(rt; ending.err() == Some(RunError::Write));
    assert!(rt; sink.failed());
    Ok(())
}

#[test]
fn errors_say_what_failed(rt: HostRuntime) -> Result<(), Fail> {
    for (error, text) in [
        (RunError::Read, "the document couldn't be read"),
        (RunError::Write, "an answer couldn't be written"),
        (RunError::OutOfMemory, "out of memory"),
    ] {
        assert!(rt; error.to_string(rt.alloc())?.as_str() == text);
    }
    assert!(rt; StreamError.to_string(rt.alloc())?.as_str() == "a stream failed");
    Ok(())
}
