//! The moves of a walk over the copied part of a stack.

ghost use Rattle.std.specs.Prelude.{◌≡◌, true};
ghost use Rattle.framehop_registers.specs.Callback.{read_answer};
ghost use Rattle.framehop_registers.specs.FrameAddress.{address_of};
ghost use Rattle.framehop_unwinder.specs.IdViews.{has_both};
ghost use Rattle.framehop_unwinder.specs.WalkViews.{frame_answer, walk_of};
ghost use Rattle.sample_stacks.specs.StackCopies.{word_in};
ghost use Rattle.sample_stacks.specs.SampleWalks.{advanced_in, end_of, interrupted_at, moved_in, next_of, resumed};
ghost use Rattle.sample_stacks.specs.WalkViews.{IsMove, KeepsModules, next_seen};

use crate::arch::{SampleArch, SampleModules, SampleStart};
use crate::code::ProcessCode;
use crate::stack_copy::StackCopy;
use framehop::{CacheId, Session, StackWalk, UnwinderId};
use framehop_registers::{Error, FrameAddress};

/// How the walk of a sample ends.
#[derive(Clone, Copy, Debug, PartialEq, Eq)]
pub enum WalkEnd {
    /// At the end of the stack.
    Complete,
    /// At a word behind what was copied.
    Truncated,
    /// No caller was found.
    Broken,
}

/// What a walk has next.
#[derive(Clone, Copy, Debug)]
pub enum NextMove {
    /// A frame.
    Frame(FrameAddress),
    /// Its end.
    End(WalkEnd),
}

// How a walk ends at an error.
fn end_of(copy: &StackCopy<'_>, error: Error) -> WalkEnd
    ensures { result ≡ end_of copy.now.start error }
{
    match error {
        Error::CouldNotReadStack(address) => {
            if copy.is_behind(address) {
                WalkEnd::Truncated
            } else {
                WalkEnd::Broken
            }
        }
        Error::FramepointerUnwindingMovedBackwards
        | Error::DidNotAdvance
        | Error::IntegerOverflow
        | Error::ReturnAddressIsNull
        | Error::OutOfMemory => WalkEnd::Broken,
    }
}

// What is next if a move returned this.
fn next_of(copy: &StackCopy<'_>, answer: Result<Option<FrameAddress>, Error>) -> NextMove
    ensures { next_seen result ≡ next_of copy.now.start (frame_answer answer) }
{
    match answer {
        Ok(Some(address)) => NextMove::Frame(address),
        Ok(None) => NextMove::End(WalkEnd::Complete),
        Err(error) => NextMove::End(end_of(copy, error)),
    }
}

// The word at an address.
#[inline(always)]
fn word_at(copy: &StackCopy<'_>, address: u64) -> Result<u64, ()>
    ensures { result ≡ read_answer (word_in copy.now.start copy.now.bytes.now address) }
{
    copy.word(address).ok_or(())
}

/// Makes the next move of a walk over the frames of an unwinder of a session, through one of its caches: the first frame is the
/// instruction pointer, and the others are callers. The words of the stack are those that were copied. The session goes on having these
/// modules.
pub fn next_move<'a, A: SampleArch>(
    session: &mut Session<SampleModules<'a, A>>,
    unwinder: UnwinderId,
    cache: CacheId,
    copy: &StackCopy<'_>,
    walk: &mut StackWalk<A::UnwindRegs>,
) -> NextMove
    requires { has_both session.old unwinder cache ≡ true }
    ensures next { IsMove copy.now.start result walk.new
        (moved_in A.samples session.old unwinder copy.now (walk_of walk.old)) }
    ensures session { KeepsModules session.old session.new }
{
    let mut read_stack = |at: u64| -> Result<u64, ()>
        ensures answer { result ≡ read_answer (word_in copy.entry.now.start copy.entry.now.bytes.now at) }
        ensures same { copy.exit ≡ copy.entry }
    { word_at(copy, at) };
    let answer = session
        .next_frame(unwinder, cache, walk, &mut read_stack)
        .unwrap();
    next_of(copy, answer)
}

// Where a signal interrupted the thread, if a handler returns to the frame at this address, which has these registers.
fn interrupted_at<A: SampleArch, C: ProcessCode>(
    copy: &StackCopy<'_>,
    code: &C,
    address: u64,
    registers: &A::UnwindRegs,
) -> Option<SampleStart<A::UnwindRegs>>
    ensures { result ≡ interrupted_at A.samples copy.now (C.code code.now) address registers.now }
{
    if !A::has_context(copy, registers) {
        return None;
    }
    A::interrupted(copy, code.code_at(address), registers)
}

// Takes a walk that is at what came next to where it goes on: where a signal interrupted the thread, if a handler returns to the frame.
fn resume<A: SampleArch, C: ProcessCode>(
    copy: &StackCopy<'_>,
    code: &C,
    next: NextMove,
    walk: &mut StackWalk<A::UnwindRegs>,
)
    ensures { walk_of walk.new
        ≡ resumed (interrupted_at A.samples copy.now (C.code code.now)) (next_seen next) (walk_of walk.old) }
{
    let NextMove::Frame(address) = next else {
        return;
    };
    match interrupted_at::<A, C>(copy, code, address.address(), &walk.regs()) {
        Some(start) => *walk = StackWalk::new(start.instruction_pointer, start.registers),
        None => {}
    }
}

/// Makes the next move of a walk as `next_move` does, and takes the walk to where it goes on: where a signal interrupted the thread, if
/// a handler returns to the frame, by the code of the process.
pub fn next_frame<'a, A: SampleArch, C: ProcessCode>(
    session: &mut Session<SampleModules<'a, A>>,
    unwinder: UnwinderId,
    cache: CacheId,
    copy: &StackCopy<'_>,
    code: &C,
    walk: &mut StackWalk<A::UnwindRegs>,
) -> NextMove
    requires { has_both session.old unwinder cache ≡ true }
    ensures next { IsMove copy.now.start result walk.new
        (advanced_in A.samples session.old unwinder copy.now (C.code code.now) walk.old) }
    ensures session { KeepsModules session.old session.new }
{
    let next = next_move::<A>(session, unwinder, cache, copy, walk);
    resume::<A, C>(copy, code, next, walk);
    next
}
