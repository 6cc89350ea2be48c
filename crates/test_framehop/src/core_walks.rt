//! Walks through the session of a process.

ghost use Rattle.backtrace_walks.specs.SessionViews.{IsReady};

use crate::bytes::push_words;
use crate::cores::STACK;
use crate::program::program;
use backtrace_files::LoadedFile;
use backtrace_text::WalkEnd;
use backtrace_walks::{
    FileModules, NextFrame, ThreadArch, ThreadStart, WalkedFrame, next_frame, next_in_memory,
    session_of,
};
use core_files::{MappedFile, Memory, MemoryRange};
use framehop::{Session, StackWalk};
use framehop_registers::x86_64::UnwindRegsX86_64;
use framehop_registers::{Error, FrameAddress};
use framehop_rules::x86_64::ArchX86_64;
use framehop_whole_modules::WholeRegs;
use std::alloc::{AllocError, Global};
use std::process::Abort;
use std::test::Fail;

// The words of a stack at `STACK`: a return address to 0x101200 and a frame record whose next is where no memory is.
const WORDS: [u64; 6] = [0, 0, 0x10_1200, 0, 0x9000, 0x10_1300];

// The mapping of a program's code.
fn mapped<'a>(bytes: &'a [u8]) -> LoadedFile<'a> {
    LoadedFile {
        mapping: MappedFile {
            start: 0x10_1000,
            end: 0x10_2000,
            offset: 0x1000,
            name: b"/program",
        },
        bytes: Some(bytes),
        debug: None,
    }
}

// A thread at the first instruction of `leaf`.
fn start() -> ThreadStart<WholeRegs<UnwindRegsX86_64>> {
    ThreadStart {
        pc: 0x10_1000,
        registers: WholeRegs::new(UnwindRegsX86_64::new(0x10_1000, STACK + 16, STACK + 32)),
    }
}

// The code address of a frame, and whether it is a return address.
fn shown(address: FrameAddress) -> (u64, bool) {
    match address {
        FrameAddress::InstructionPointer(pc) => (pc, false),
        FrameAddress::ReturnAddress(return_address) => (return_address.get(), true),
    }
}

// The frames of a walk, and how it ends.
type Walked<R> = (Vec<WalkedFrame<R>>, WalkEnd);

// The walk ends where the next frame record can't be read.
fn expect_frames(rt: &impl Abort, walked: &Walked<WholeRegs<UnwindRegsX86_64>>) {
    let [first, second, third] = walked.0.as_slice() else {
        assert!(rt; false);
        return;
    };
    assert!(rt; shown(first.address) == (0x10_1000, false));
    assert!(rt; shown(second.address) == (0x10_1200, true));
    assert!(rt; second.registers.regs.sp() == STACK + 24);
    assert!(rt; second.registers.regs.bp() == STACK + 32);
    assert!(rt; shown(third.address) == (0x10_1300, true));
    assert!(rt; third.registers.regs.sp() == STACK + 48);
    assert!(rt; third.registers.regs.bp() == 0x9000);
    assert!(rt; walked.1 == WalkEnd::Stopped(Error::CouldNotReadStack(0x9000)));
}

// A walk over the memory of a process.
fn walked_through<'a, A: ThreadArch>(
    alloc: Global,
    session: &mut Session<FileModules<'a, A>>,
    memory: &Memory<'_, 'a>,
    start: &ThreadStart<WholeRegs<A::UnwindRegs>>,
) -> Result<Walked<WholeRegs<A::UnwindRegs>>, AllocError>
    requires { IsReady session.old }
    ensures { IsReady session.new }
{
    let mut frames = Vec::new(alloc);
    let mut walk = StackWalk::new(start.pc, start.registers);
    for _ in 0..8 {
        match next_in_memory::<A>(session, memory, &mut walk) {
            NextFrame::Frame(frame) => frames.push(frame)?,
            NextFrame::End(end) => return Ok((frames, end)),
        }
    }
    Ok((frames, WalkEnd::LimitReached))
}

// A walk over the memory of a process with these files. It is made twice, so that the second goes by the rules that the first kept.
fn walked_in_memory<'a, A: ThreadArch>(
    alloc: Global,
    files: &[LoadedFile<'a>],
    memory: &Memory<'_, 'a>,
    start: &ThreadStart<WholeRegs<A::UnwindRegs>>,
) -> Result<Walked<WholeRegs<A::UnwindRegs>>, AllocError> {
    let mut session = session_of::<A>(alloc, files)?;
    walked_through::<A>(alloc, &mut session, memory, start)?;
    walked_through::<A>(alloc, &mut session, memory, start)
}

// The word at an address of the stack.
fn word_at(at: u64) -> Result<u64, ()> {
    match at.checked_sub(STACK) {
        Some(0) => Ok(WORDS[0]),
        Some(8) => Ok(WORDS[1]),
        Some(16) => Ok(WORDS[2]),
        Some(24) => Ok(WORDS[3]),
        Some(32) => Ok(WORDS[4]),
        Some(40) => Ok(WORDS[5]),
        _ => Err(()),
    }
}

// A walk over the words that a callback reads.
fn walked_over<'a, A: ThreadArch, F: FnMut(u64) -> Result<u64, ()>>(
    alloc: Global,
    session: &mut Session<FileModules<'a, A>>,
    start: &ThreadStart<WholeRegs<A::UnwindRegs>>,
    read_stack: &mut F,
) -> Result<Walked<WholeRegs<A::UnwindRegs>>, AllocError>
    requires callable { F.IsAlwaysCallable read_stack.old }
    requires session { IsReady session.old }
{
    let memory = Memory::new(&[], &[]);
    let mut frames = Vec::new(alloc);
    let mut walk = StackWalk::new(start.pc, start.registers);
    for _ in 0..8 {
        match next_frame::<A, F>(session, &memory, &mut walk, read_stack) {
            NextFrame::Frame(frame) => frames.push(frame)?,
            NextFrame::End(end) => return Ok((frames, end)),
        }
    }
    Ok((frames, WalkEnd::LimitReached))
}

// A walk over words that the caller knows.
fn walked_by_words<'a, A: ThreadArch>(
    alloc: Global,
    files: &[LoadedFile<'a>],
    start: &ThreadStart<WholeRegs<A::UnwindRegs>>,
) -> Result<Walked<WholeRegs<A::UnwindRegs>>, AllocError> {
    let mut session = session_of::<A>(alloc, files)?;
    let mut read_stack = |at: u64| -> Result<u64, ()> { word_at(at) };
    walked_over::<A, _>(alloc, &mut session, start, &mut read_stack)
}

#[test]
fn over_the_memory_of_a_process(rt: HostRuntime) -> Result<(), Fail> {
    let file = program(rt.alloc())?;
    let mut bytes = Vec::new(rt.alloc());
    push_words(&mut bytes, &WORDS)?;
    let files = [mapped(&file)];
    let segments = [MemoryRange {
        address: STACK,
        size: 48,
        zeros: 0,
        bytes: &bytes,
        lost: 0,
        executable: false,
    }];
    let memory = Memory::new(&segments, &[]);
    let walked = walked_in_memory::<ArchX86_64>(rt.alloc(), &files, &memory, &start())?;
    expect_frames(&rt, &walked);
    Ok(())
}

#[test]
fn over_words_of_the_caller(rt: HostRuntime) -> Result<(), Fail> {
    let file = program(rt.alloc())?;
    let files = [mapped(&file)];
    let walked = walked_by_words::<ArchX86_64>(rt.alloc(), &files, &start())?;
    expect_frames(&rt, &walked);
    Ok(())
}
