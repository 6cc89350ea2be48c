//! A walk over the frames of a stack.

ghost use Rattle.std.specs.Prelude.{◌≡◌, ◌≢◌, false, true, Ok, Err, Some, None, IfErr, IfSome};
ghost use Rattle.framehop_unwinder.specs.Frames.{first_frame, frame_of, later_frame};
ghost use Rattle.framehop_unwinder.specs.HitReads.{MoveReads};
ghost use Rattle.framehop_unwinder.specs.Memory.{WantsMemoryOnlyIf};
ghost use Rattle.framehop_unwinder.specs.Modules.{AreOneBook};
ghost use Rattle.framehop_unwinder.specs.Moves.{MoveAsks, MoveDoes, MovesOn};
ghost use Rattle.framehop_unwinder.specs.Trials.{wants_memory};
ghost use Rattle.framehop_unwinder.specs.Walk.{At, Over};
ghost use Rattle.framehop_unwinder.specs.WalkViews.{MovesOverWords, place_of, frame_answer, walk_at, walk_from, walk_of};

use crate::unwinders::Unwinder;
use framehop_rules::{Error, FrameAddress};

/// Where a walk is.
#[derive(Debug, Clone, Copy, PartialEq, Eq)]
pub(crate) enum UnwindIteratorState {
    Initial(u64),
    Unwinding(FrameAddress),
    Done,
}

impl UnwindIteratorState {
    /// Goes to the first frame, which is at the instruction pointer `pc`.
    #[inline(always)]
    pub(crate) fn begin(&mut self, pc: u64) -> FrameAddress
        ensures first { frame_of result ≡ first_frame pc }
        ensures place { place_of self.new ≡ At (first_frame pc) }
    {
        let first = FrameAddress::from_instruction_pointer(pc);
        *self = UnwindIteratorState::Unwinding(first);
        first
    }

    /// Goes to the frame of a step's return address, or to the end if the stack ends. It stays
    /// if the return address is 0.
    #[inline(always)]
    pub(crate) fn go_on(&mut self, step: Option<u64>) -> Result<Option<FrameAddress>, Error>
        ensures end { step ≡ None → (result ≡ Ok None) × (place_of self.new ≡ Over) }
        ensures null { step ≡ Some 0
            → (result ≡ Err Error.ReturnAddressIsNull) × (self.new ≡ self.old) }
        ensures later { IfSome step (λ return_address. return_address ≢ 0
            → (frame_answer result ≡ Ok (Some (later_frame return_address)))
            × (place_of self.new ≡ At (later_frame return_address))) }
    {
        let Some(return_address) = step else {
            *self = UnwindIteratorState::Done;
            return Ok(None);
        };
        let Some(next) = FrameAddress::from_return_address(return_address) else {
            return Err(Error::ReturnAddressIsNull);
        };
        *self = UnwindIteratorState::Unwinding(next);
        Ok(Some(next))
    }
}

/// Where a walk is, and the registers there, for a walk that is made move by move.
#[derive(Debug, Clone, Copy)]
pub struct StackWalk<R> {
    pub(crate) state: UnwindIteratorState,
    pub(crate) regs: R,
}

impl<R: Copy> StackWalk<R> {
    /// A walk from a frame at the instruction pointer `pc` with these registers.
    pub fn new(pc: u64, regs: R) -> Self
        ensures { walk_of result ≡ walk_from pc regs }
    {
        StackWalk {
            state: UnwindIteratorState::Initial(pc),
            regs,
        }
    }

    /// A walk that is at a frame with these registers: its first move is the step from there. This is for a caller who has found
    /// a frame by himself, as the one that called a null pointer: its return address is in the word at SP, or in LR.
    pub fn at(address: FrameAddress, regs: R) -> Self
        ensures { walk_of result ≡ walk_at (frame_of address) regs }
    {
        StackWalk {
            state: UnwindIteratorState::Unwinding(address),
            regs,
        }
    }

    /// The registers of the frame that the walk is at.
    pub fn regs(&self) -> R
        ensures { result ≡ (walk_of self.now).registers }
    {
        self.regs
    }
}

/// The frames of a stack, one after the other.
#[derive(Drop)]
pub struct UnwindIterator<'u, 'c, 'r, U: Unwinder, F> {
    unwinder: &'u U,
    walk: StackWalk<U::UnwindRegs>,
    cache: &'c mut U::Cache,
    stack: &'r mut F,
}

impl<'u, 'c, 'r, U: Unwinder, F: FnMut(u64) -> Result<u64, ()>> UnwindIterator<'u, 'c, 'r, U, F> {
    /// A walk from a frame at the instruction pointer `pc` with these registers.
    pub fn new(
        unwinder: &'u U,
        pc: u64,
        regs: U::UnwindRegs,
        cache: &'c mut U::Cache,
        read_stack: &'r mut F,
    ) -> Self
        ensures unwinder { result.unwinder.now ≡ unwinder.now }
        ensures walk { walk_of result.walk ≡ walk_from pc regs }
        ensures cache { result.cache ≡ cache.entry }
        ensures stack { result.stack ≡ read_stack.entry }
    {
        UnwindIterator {
            unwinder,
            walk: StackWalk::new(pc, regs),
            cache,
            stack: read_stack,
        }
    }

    /// The next frame, `None` at the end of the stack and from then on. The first is the instruction
    /// pointer. After an error the walk is where it was, and the next call makes the step again; but
    /// after `ReturnAddressIsNull` it has the caller's registers there, and must not be continued.
    ///
    /// Through a cache that fits the unwinder the frames are those without a cache. The cache goes on
    /// fitting all unwinders that it fitted, if those of the generation of this one have its modules.
    pub fn next(&mut self) -> Result<Option<FrameAddress>, Error>
        requires { F.IsAlwaysCallable self.old.stack.now }
        ensures callable { F.IsAlwaysCallable self.new.stack.now }
        ensures moved { MovesOverWords F.step self.old.stack.now self.new.stack.now
            (U.fits self.old.unwinder.now self.old.cache.now)
            (U.judgment self.old.unwinder.now) self.old.walk result self.new.walk }
        ensures order { MoveReads F.step self.old.stack.now self.new.stack.now
            (U.reads self.old.unwinder.now self.old.cache.now) self.old.walk }
        ensures walk { MovesOn (walk_of self.old.walk) result (walk_of self.new.walk) }
        ensures cache { MoveDoes (U.steps_cache self.old.unwinder.now (wants_memory result))
            self.old.walk self.old.cache.now self.new.cache.now }
        ensures fits { (other : U) → AreOneBook (U.loads self.old.unwinder.now) (U.loads other)
            → U.fits other self.old.cache.now → U.fits other self.new.cache.now }
        ensures memory { WantsMemoryOnlyIf U.takes_memory (wants_memory result)
            (MoveAsks (U.asks_memory self.old.unwinder.now) (walk_of self.old.walk).position) }
        ensures unwinder { self.new.unwinder ≡ self.old.unwinder }
        ensures loans { (self.new.cache.ghost_name ≡ self.old.cache.ghost_name)
            × (self.new.stack.ghost_name ≡ self.old.stack.ghost_name) }
    {
        let address = match self.walk.state {
            UnwindIteratorState::Initial(pc) => return Ok(Some(self.walk.state.begin(pc))),
            UnwindIteratorState::Unwinding(address) => address,
            UnwindIteratorState::Done => return Ok(None),
        };
        let step = self
            .unwinder
            .unwind_frame(address, &mut self.walk.regs, self.cache, self.stack)?;
        self.walk.state.go_on(step)
    }
}
