//! A walk over the frames of a stack, through a session.

ghost use Rattle.std.specs.Prelude.{◌≡◌, true};
ghost use Rattle.framehop_unwinder.specs.EndingWalks.{EndsOn, EndsOver, MovesSession, ended};
ghost use Rattle.framehop_unwinder.specs.IdViews.{has_both};
ghost use Rattle.framehop_unwinder.specs.WalkViews.{walk_from, walk_of};

use crate::ids::{CacheId, UnwinderId};
use crate::iterator::{StackWalk, UnwindIteratorState};
use crate::session::Session;
use crate::unwinding::ModuleUnwinding;
use framehop_rules::{Error, FrameAddress};

/// A walk with an unwinder and a cache of a session.
#[derive(Debug, Clone, Copy)]
struct SessionWalk<R> {
    unwinder: UnwinderId,
    cache: CacheId,
    walk: StackWalk<R>,
}

/// The frames of a stack, one after the other, by an unwinder and a cache of a session.
#[derive(Drop)]
pub struct SessionUnwindIterator<'s, 'r, A: ModuleUnwinding, F> {
    session: &'s mut Session<A>,
    on: SessionWalk<A::UnwindRegs>,
    stack: &'r mut F,
    ghost held: { has_both session.now on.unwinder on.cache ≡ true },
}

// Ends a walk whose move returned this, if the return address was 0.
fn end_at_null<R: Copy>(walk: &mut StackWalk<R>, answer: Result<Option<FrameAddress>, Error>)
    ensures { walk_of walk.new ≡ ended answer (walk_of walk.old) }
{
    if let Err(Error::ReturnAddressIsNull) = answer {
        walk.state = UnwindIteratorState::Done;
    }
}

impl<'s, 'r, A: ModuleUnwinding, F: FnMut(u64) -> Result<u64, ()>> SessionUnwindIterator<
    's,
    'r,
    A,
    F,
> {
    /// A walk from a frame at the instruction pointer `pc` with these registers.
    pub fn new(
        session: &'s mut Session<A>,
        unwinder: UnwinderId,
        cache: CacheId,
        pc: u64,
        regs: A::UnwindRegs,
        read_stack: &'r mut F,
    ) -> Self
        requires { has_both session.old unwinder cache ≡ true }
        ensures session { result.session ≡ session.entry }
        ensures ids { (result.on.unwinder ≡ unwinder) × (result.on.cache ≡ cache) }
        ensures walk { walk_of result.on.walk ≡ walk_from pc regs }
        ensures stack { result.stack ≡ read_stack.entry }
    {
        let on = SessionWalk {
            unwinder,
            cache,
            walk: StackWalk::new(pc, regs),
        };
        SessionUnwindIterator {
            session,
            on,
            stack: read_stack,
        }
    }

    /// The next frame, `None` at the end of the stack and from then on. The first is the instruction
    /// pointer. After `ReturnAddressIsNull`, too, `None` is all that is left. After another error the
    /// walk is where it was, and the next call makes the step again.
    pub fn next(&mut self) -> Result<Option<FrameAddress>, Error>
        requires { F.IsAlwaysCallable self.old.stack.now }
        ensures callable { F.IsAlwaysCallable self.new.stack.now }
        ensures moved { EndsOver F.step self.old.stack.now self.new.stack.now A.UnwindRule.reads
            A.meanings self.old.session.now self.old.on result self.new.on }
        ensures walk { EndsOn self.old.on result self.new.on }
        ensures session { MovesSession A.meanings A.takes_memory A.asks_memory
            self.old.session.now self.old.on result self.new.session.now }
        ensures loans { (self.new.session.ghost_name ≡ self.old.session.ghost_name)
            × (self.new.stack.ghost_name ≡ self.old.stack.ghost_name) }
    {
        let answer = self
            .session
            .next_frame(
                self.on.unwinder,
                self.on.cache,
                &mut self.on.walk,
                self.stack,
            )
            .unwrap();
        end_at_null(&mut self.on.walk, answer);
        answer
    }
}
