//! Documents at the limits of length and of the number of commands, and one that is no text. All
//! others are rows of `cases_unwinding`.

use std::alloc::Global;
use std::io;
use std::io::Read;
use std::process::Abort;
use std::test::Fail;
use unwind_run_program::{Program, Streamed, UnwindCommands};

/// The greatest length of a document, in bytes.
const GREATEST: u64 = 16_777_216;

// A document of `count` commands that make an unwinder.
fn unwinders(alloc: Global, count: usize) -> Result<String, Fail> {
    let mut text = String::from_str(
        alloc,
        "{\"arch\":\"x86_64\",\"policy\":\"must\",\"commands\":[{\"do\":\"unwinder\"}",
    )?;
    for _ in 1..count {
        text.push_str(",{\"do\":\"unwinder\"}")?;
    }
    text.push_str("]}")?;
    Ok(text)
}

// What a run over a document writes, and its exit status. Returns what is left of the document's source.
fn expect_answer<R: Read + Drop>(
    rt: &impl Abort,
    alloc: Global,
    document: R,
    line: &str,
    status: u8,
) -> Result<R, Fail> {
    let mut source = Streamed::new(document);
    let mut sink = Streamed::new(Vec::new(alloc));
    let ending = UnwindCommands::run(alloc, &mut source, &mut sink)?;
    assert!(rt; sink.into_inner().as_slice() == line.as_bytes(), "{line}");
    assert!(rt; ending.status() == status, "{line}");
    Ok(source.into_inner())
}

#[test]
fn greatest_number_of_commands(rt: HostRuntime) -> Result<(), Fail> {
    for (count, line, status) in [(65_536, "", 0), (65_537, "fault BadDocument 0\n", 2)] {
        let document = unwinders(rt.alloc(), count)?;
        expect_answer(&rt, rt.alloc(), document.as_bytes(), line, status)?;
    }
    let no_text = b"\"\xff\"".as_slice();
    expect_answer(&rt, rt.alloc(), no_text, "fault NotJson 0\n", 2)?;
    Ok(())
}

// Of a document that is too long one byte more than the greatest length is read.
#[test]
fn greatest_length(rt: HostRuntime) -> Result<(), Fail> {
    for (length, line, left) in [
        (GREATEST, "fault NotJson 0\n", 0),
        (GREATEST + 1, "fault TooLong 0\n", 0),
        (GREATEST + 3, "fault TooLong 0\n", 2),
        (u64::MAX, "fault TooLong 0\n", u64::MAX - GREATEST - 1),
    ] {
        let spaces = io::repeat(b' ').take(length);
        let rest = expect_answer(&rt, rt.alloc(), spaces, line, 2)?;
        assert!(rt; rest.limit() == left, "of {length} spaces");
    }
    Ok(())
}
