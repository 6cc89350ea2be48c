//! The moves of a walk over a stack.

ghost use Rattle.std.specs.Prelude.{◌≡◌};
ghost use Rattle.core_files.specs.MemoryViews.{word_of};
ghost use Rattle.framehop_unwinder.specs.WalkViews.{frame_answer, walk_of};
ghost use Rattle.backtrace_walks.specs.SessionViews.{IsReady, KeepsModules, advance_in};
ghost use Rattle.backtrace_walks.specs.WalkedViews.{AdvancesAs, next_seen};
ghost use Rattle.backtrace_walks.specs.Walks.{next_by, resumed};

use crate::arch::{FileModules, ThreadArch};
use backtrace_text::WalkEnd;
use core_files::Memory;
use framehop::{CacheId, Session, StackWalk, UnwinderId};
use framehop_registers::{Error, FrameAddress};
use framehop_whole_modules::WholeRegs;

/// A frame of a walk.
#[derive(Clone, Copy, Debug)]
pub struct WalkedFrame<R> {
    /// Its code address.
    pub address: FrameAddress,
    /// Its registers.
    pub registers: R,
}

/// What a walk has next.
#[derive(Clone, Copy, Debug)]
pub enum NextFrame<R> {
    /// A frame.
    Frame(WalkedFrame<R>),
    /// Its end.
    End(WalkEnd),
}

// What is next if a move returned this, with these registers.
fn next_by<R: Copy>(answer: Result<Option<FrameAddress>, Error>, registers: R) -> NextFrame<R>
    ensures { next_seen result ≡ next_by (frame_answer answer) registers }
{
    match answer {
        Ok(Some(address)) => NextFrame::Frame(WalkedFrame { address, registers }),
        Ok(None) => NextFrame::End(WalkEnd::EndOfStack),
        Err(error) => NextFrame::End(WalkEnd::Stopped(error)),
    }
}

// A walk after a move that returned this: it begins anew where a signal interrupted the thread, if a handler returns to the frame.
#[tactic(auto, using(crate::proofs::Addresses::same_address))]
fn resumed<A: ThreadArch>(
    memory: &Memory<'_, '_>,
    walk: StackWalk<WholeRegs<A::UnwindRegs>>,
    answer: Result<Option<FrameAddress>, Error>,
) -> StackWalk<WholeRegs<A::UnwindRegs>>
    ensures { walk_of result
        ≡ resumed (A.stacks.interrupted (word_of memory.now)) (frame_answer answer) (walk_of walk) }
{
    match answer {
        Ok(Some(address)) => {
            match A::interrupted(memory, address.address(), &walk.regs()) {
                Some(start) => StackWalk::new(start.pc, start.registers),
                None => walk,
            }
        }
        Ok(None) => walk,
        Err(_) => walk,
    }
}

/// Makes the next move of a walk over the frames of the first unwinder of a session, through its first cache. The walk is then where
/// it goes on: at the frame, or where a signal interrupted the thread, if a handler returns to the frame. The session goes on having
/// these modules. No step is out of memory, since none allocates.
pub fn next_frame<'a, A: ThreadArch, F: FnMut(u64) -> Result<u64, ()>>(
    session: &mut Session<FileModules<'a, A>>,
    memory: &Memory<'_, 'a>,
    walk: &mut StackWalk<WholeRegs<A::UnwindRegs>>,
    read_stack: &mut F,
) -> NextFrame<WholeRegs<A::UnwindRegs>>
    requires callable { F.IsAlwaysCallable read_stack.old }
    requires session { IsReady session.old }
    ensures callable { F.IsAlwaysCallable read_stack.new }
    ensures next { AdvancesAs F.step read_stack.old read_stack.new result walk.new
        (advance_in A.stacks session.old memory.now walk.old) }
    ensures session { KeepsModules session.old session.new }
{
    let (unwinder, cache) = (UnwinderId::numbered(0), CacheId::numbered(0));
    let answer = session
        .next_frame(unwinder, cache, walk, read_stack)
        .unwrap();
    let next = next_by(answer, walk.regs());
    *walk = resumed::<A>(memory, *walk, answer);
    next
}
