ghost use Rattle.std.specs.Prelude.{◌≡◌, false};

use backtrace_text::{
    CodeLocation, FunctionNames, NamedOffset, RegisterValue, ShownFrame, ThreadLabel, WalkEnd,
    push_name, write_end, write_frame, write_thread,
};
use framehop_registers::Error;
use json_program::{RunError, Sink, Streamed};
use std::alloc::{AllocError, Global};
use std::test::Fail;

// The text of two threads, as gdb lays frames out: numbers in two columns, 16 digits of an address, `??` for a
// function that isn't known, and its line for a signal's frame. The name of the first function is as c++filt writes it, and that of the
// first thread has a byte that isn't printable.
const EXPECTED: &str = "Thread 4711 \"ser\\x1bver\", got the signal:
#0  0x00007f2b6c0a9a7c in Server::run(int) const+0x12c from /lib/libc.so.6+0x969fc
    rip 0x00007f2b6c0a9a7c rsp 0x00007ffd00000010
#1  <signal handler called>
#2  0x0000000000401136 in _ZNK6Server3runEi+0x16 from /srv/a b\\x0a+0x1136
#3  0x0000000000000001 in ??
Backtrace stopped: could not read stack memory at 0x7ffd00001000
Thread 12:
";

// A place in a file or a function.
fn at(name: &'static [u8], offset: u64) -> Option<NamedOffset<'static>> {
    Some(NamedOffset { name, offset })
}

// A frame of a program without registers, whose name is shown as it is.
fn code(
    alloc: Global,
    address: u64,
    function: Option<NamedOffset<'static>>,
    file: Option<NamedOffset<'static>>,
) -> ShownFrame<'static> {
    ShownFrame {
        location: CodeLocation::Code {
            address,
            function,
            file,
        },
        names: FunctionNames::Raw,
        registers: Vec::new(alloc),
    }
}

// The first frame of a thread, with two of its registers.
fn first_frame(alloc: Global) -> Result<ShownFrame<'static>, AllocError> {
    let address = 0x7f2b6c0a9a7c;
    let mut registers = Vec::new(alloc);
    registers.push(RegisterValue {
        name: "rip",
        value: address,
    })?;
    registers.push(RegisterValue {
        name: "rsp",
        value: 0x7ffd00000010,
    })?;
    let location = CodeLocation::Code {
        address,
        function: at(b"_ZNK6Server3runEi", 0x12c),
        file: at(b"/lib/libc.so.6", 0x969fc),
    };
    Ok(ShownFrame {
        location,
        names: FunctionNames::Demangled,
        registers,
    })
}

// The frames of a thread that handles a signal.
fn interrupted(alloc: Global) -> Result<Vec<ShownFrame<'static>>, AllocError> {
    let mut frames = Vec::new(alloc);
    frames.push(first_frame(alloc)?)?;
    frames.push(ShownFrame {
        location: CodeLocation::SignalTrampoline,
        names: FunctionNames::Demangled,
        registers: Vec::new(alloc),
    })?;
    let run = at(b"_ZNK6Server3runEi", 0x16);
    frames.push(code(alloc, 0x401136, run, at(b"/srv/a b\n", 0x1136)))?;
    frames.push(code(alloc, 1, None, None))?;
    Ok(frames)
}

// Writes the stacks of two threads, of which the second has no frame.
fn write_threads<W: Sink>(alloc: Global, sink: &mut W) -> Result<(), RunError>
    requires { W.has_failed sink.old ≡ false }
{
    let first = ThreadLabel {
        id: 4711,
        name: Some(b"ser\x1bver"),
        got_signal: true,
    };
    write_thread(alloc, &first, sink)?;
    let frames = interrupted(alloc)?;
    for (number, frame) in frames.iter().enumerate() {
        write_frame(alloc, number as u64, frame, sink)?;
    }
    let end = WalkEnd::Stopped(Error::CouldNotReadStack(0x7ffd00001000));
    write_end(alloc, end, sink)?;
    let second = ThreadLabel {
        id: 12,
        name: None,
        got_signal: false,
    };
    write_thread(alloc, &second, sink)?;
    write_end(alloc, WalkEnd::EndOfStack, sink)
}

#[test]
fn threads_are_written_one_after_the_other(rt: HostRuntime) -> Result<(), Fail> {
    let mut sink = Streamed::new(Vec::new(rt.alloc()));
    write_threads(rt.alloc(), &mut sink)?;
    assert!(rt; sink.into_inner().as_slice() == EXPECTED.as_bytes());
    Ok(())
}

#[test]
fn names_stay_on_their_lines(rt: HostRuntime) -> Result<(), Fail> {
    let mut text = Vec::new(rt.alloc());
    push_name(rt.alloc(), &mut text, b"a\x1b[2J\\\xff~ \n")?;
    assert!(rt; text.as_slice() == b"a\\x1b[2J\\x5c\\xff~ \\x0a".as_slice());
    Ok(())
}
