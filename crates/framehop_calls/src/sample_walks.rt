//! Walks over a sample.

ghost use Rattle.std.specs.Prelude.{◌≡◌, false, true};
ghost use Rattle.framehop_registers.specs.Callback.{read_answer};
ghost use Rattle.framehop_unwinder.specs.IdViews.{has_both};
ghost use Rattle.framehop_calls.specs.Samples.{words_of};
ghost use Rattle.framehop_calls.specs.SampleSteps.{KeepsModules};
ghost use Rattle.framehop_calls.specs.SampleWalks.{GoesBy, GoesOn, MoveNeeds, MovesInSample, MovesWithoutMemory, NeedsUnknown, WalksAs, WalksFrom, WithoutMemory, WritesFrames, place_after, through, walk_end, walk_of};

use crate::sample::Sample;
use crate::sample_steps::{SampleStep, step_in_sample};
use framehop_rules::{Error, FrameAddress};
use framehop_unwinder::{CacheId, ModuleUnwinding, RunEnd, Session, UnwinderId};

/// Where a walk is.
#[derive(Clone, Copy)]
pub enum WalkPlace {
    /// Before its first frame, which is at this instruction pointer.
    Starts(u64),
    /// At a frame.
    At(FrameAddress),
    /// After its last frame.
    Over,
}

/// Where a walk is, with the registers there.
#[derive(Clone, Copy)]
pub struct SampleWalk<R> {
    /// The place.
    pub place: WalkPlace,
    /// The registers of the frame that it is at, or that it starts from.
    pub regs: R,
}

/// Why a walk stops.
#[derive(Clone, Copy)]
pub enum WalkEnd {
    /// There is no room for another frame.
    Full,
    /// The last frame has no caller.
    EndOfStack,
    /// The word at this address has to be known first.
    NeedsWord(u64),
    /// The step from the last frame gives no caller.
    Failed(Error),
}

/// What a walk wrote.
#[derive(Clone, Copy)]
pub struct Walked {
    /// How many frames.
    pub count: usize,
    /// Why it stopped after them.
    pub end: WalkEnd,
}

// What a move of a walk gives.
#[derive(Clone, Copy)]
enum SampleMove {
    // The next frame is at this address.
    Frame(u64),
    // There is no next frame, or none yet.
    Stops(WalkEnd),
}

impl<R: Copy> SampleWalk<R> {
    // Goes to the caller at a return address.
    #[inline(always)]
    fn go_on(&mut self, return_address: u64) -> SampleMove
        ensures { GoesOn return_address result (walk_of self.old) (walk_of self.new) }
    {
        let Some(next) = FrameAddress::from_return_address(return_address) else {
            self.place = WalkPlace::Over;
            return SampleMove::Stops(WalkEnd::Failed(Error::ReturnAddressIsNull));
        };
        self.place = WalkPlace::At(next);
        SampleMove::Frame(return_address)
    }

    // Goes where a step led.
    #[inline(always)]
    fn go_by(&mut self, answer: Result<Option<u64>, Error>) -> SampleMove
        ensures { GoesBy answer result (walk_of self.old) (walk_of self.new) }
    {
        match answer {
            Ok(Some(return_address)) => self.go_on(return_address),
            Ok(None) => {
                self.place = WalkPlace::Over;
                SampleMove::Stops(WalkEnd::EndOfStack)
            }
            Err(error) => SampleMove::Stops(WalkEnd::Failed(error)),
        }
    }
}

// Makes the next move of a walk.
#[inline(always)]
fn move_on<A: ModuleUnwinding>(
    session: &mut Session<A>,
    unwinder: UnwinderId,
    cache: CacheId,
    walk: &mut SampleWalk<A::UnwindRegs>,
    sample: &Sample<'_>,
) -> SampleMove
    requires { has_both session.old unwinder cache ≡ true }
    ensures moved { MovesInSample (through A.meanings unwinder cache sample.now)
        result walk.old session.old walk.new session.new }
    ensures needs { MoveNeeds result sample.now }
    ensures session { KeepsModules session.old session.new }
    ensures memory { A.takes_memory ≡ false → MovesWithoutMemory result }
{
    let address = match walk.place {
        WalkPlace::Starts(pc) => {
            walk.place = WalkPlace::At(FrameAddress::from_instruction_pointer(pc));
            return SampleMove::Frame(pc);
        }
        WalkPlace::At(address) => address,
        WalkPlace::Over => return SampleMove::Stops(WalkEnd::EndOfStack),
    };
    match step_in_sample(session, unwinder, cache, address, &mut walk.regs, sample) {
        SampleStep::Answered(answer) => walk.go_by(answer),
        SampleStep::NeedsWord(at) => SampleMove::Stops(WalkEnd::NeedsWord(at)),
    }
}

// Goes on with a walk over a sample move by move.
#[inline(never)]
fn walk_by_moves<A: ModuleUnwinding>(
    session: &mut Session<A>,
    unwinder: UnwinderId,
    cache: CacheId,
    walk: &mut SampleWalk<A::UnwindRegs>,
    sample: &Sample<'_>,
    frames: &mut [u64],
) -> Walked
    requires { has_both session.old unwinder cache ≡ true }
    ensures walked { WalksAs (through A.meanings unwinder cache sample.now)
        walk.old session.old result frames.new walk.new session.new }
    ensures written { WritesFrames result frames.old frames.new }
    ensures needs { NeedsUnknown result.end sample.now }
    ensures session { KeepsModules session.old session.new }
    ensures memory { A.takes_memory ≡ false → WithoutMemory result.end }
{
    let mut count = 0;
    while count < frames.len() {
        match move_on(session, unwinder, cache, walk, sample) {
            SampleMove::Frame(address) => {
                frames[count] = address;
                count += 1;
            }
            SampleMove::Stops(end) => return Walked { count, end },
        }
    }
    Walked {
        count,
        end: WalkEnd::Full,
    }
}

// Why a walk stops whose steps stop so.
#[inline(always)]
fn end_of(end: RunEnd) -> WalkEnd
    ensures { result ≡ walk_end end }
{
    match end {
        RunEnd::Full => WalkEnd::Full,
        RunEnd::EndOfStack => WalkEnd::EndOfStack,
        RunEnd::Failed(error) => WalkEnd::Failed(error),
    }
}

// Where a walk is whose steps stop so at a frame.
#[inline(always)]
fn place_after(end: RunEnd, at: FrameAddress) -> WalkPlace
    ensures { result ≡ place_after end at }
{
    match end {
        RunEnd::EndOfStack => WalkPlace::Over,
        RunEnd::Failed(Error::ReturnAddressIsNull) => WalkPlace::Over,
        RunEnd::Full => WalkPlace::At(at),
        RunEnd::Failed(_) => WalkPlace::At(at),
    }
}

// Goes on with a walk that is at a frame, over the words that are known.
#[inline(always)]
fn walk_on<A: ModuleUnwinding>(
    session: &mut Session<A>,
    unwinder: UnwinderId,
    cache: CacheId,
    at: FrameAddress,
    walk: &mut SampleWalk<A::UnwindRegs>,
    sample: &Sample<'_>,
    frames: &mut [u64],
) -> Walked
    requires { has_both session.old unwinder cache ≡ true }
    ensures walked { WalksFrom (through A.meanings unwinder cache sample.now)
        at walk.old session.old result frames.new walk.new session.new }
    ensures written { WritesFrames result frames.old frames.new }
    ensures needs { NeedsUnknown result.end sample.now }
    ensures session { KeepsModules session.old session.new }
    ensures memory { A.takes_memory ≡ false → WithoutMemory result.end }
{
    let mut read_stack = |address: u64| -> Result<u64, ()>
        ensures { result ≡ read_answer (words_of sample.entry.now address) }
    { sample.word(address) };
    let mut last = at;
    let made = session.run_steps(
        unwinder,
        cache,
        &mut last,
        &mut walk.regs,
        &mut read_stack,
        frames,
    );
    let run = made.unwrap();
    walk.place = place_after(run.end, last);
    Walked {
        count: run.count,
        end: end_of(run.end),
    }
}

// Goes on with a walk over the words that are known.
#[inline(always)]
fn walk_by_known<A: ModuleUnwinding>(
    session: &mut Session<A>,
    unwinder: UnwinderId,
    cache: CacheId,
    walk: &mut SampleWalk<A::UnwindRegs>,
    sample: &Sample<'_>,
    frames: &mut [u64],
) -> Walked
    requires { has_both session.old unwinder cache ≡ true }
    ensures walked { WalksAs (through A.meanings unwinder cache sample.now)
        walk.old session.old result frames.new walk.new session.new }
    ensures written { WritesFrames result frames.old frames.new }
    ensures needs { NeedsUnknown result.end sample.now }
    ensures session { KeepsModules session.old session.new }
    ensures memory { A.takes_memory ≡ false → WithoutMemory result.end }
{
    if frames.is_empty() {
        return nothing_walked(WalkEnd::Full);
    }
    match walk.place {
        WalkPlace::Starts(pc) => {
            frames[0] = pc;
            let first = FrameAddress::from_instruction_pointer(pc);
            let walked = walk_on(
                session,
                unwinder,
                cache,
                first,
                walk,
                sample,
                &mut frames[1..],
            );
            Walked {
                count: walked.count + 1,
                end: walked.end,
            }
        }
        WalkPlace::At(address) => walk_on(session, unwinder, cache, address, walk, sample, frames),
        WalkPlace::Over => nothing_walked(WalkEnd::EndOfStack),
    }
}

// No frame, and why.
fn nothing_walked(end: WalkEnd) -> Walked
    ensures { result ≡ record { count = 0; end = end } }
{
    Walked { count: 0, end }
}

/// Goes on with a walk over a sample: writes the addresses of its next frames, the instruction pointer first and then return addresses,
/// up to its end, to an error of a step, to a word that has to be known, or as many as there is room for. The walk is then at the last
/// frame that was written, from where the next call goes on; after a return address of 0 it is over.
pub fn walk_in_sample<A: ModuleUnwinding>(
    session: &mut Session<A>,
    unwinder: UnwinderId,
    cache: CacheId,
    walk: &mut SampleWalk<A::UnwindRegs>,
    sample: &Sample<'_>,
    frames: &mut [u64],
) -> Walked
    requires { has_both session.old unwinder cache ≡ true }
    ensures walked { WalksAs (through A.meanings unwinder cache sample.now)
        walk.old session.old result frames.new walk.new session.new }
    ensures written { WritesFrames result frames.old frames.new }
    ensures needs { NeedsUnknown result.end sample.now }
    ensures session { KeepsModules session.old session.new }
    ensures memory { A.takes_memory ≡ false → WithoutMemory result.end }
{
    if sample.asks != 0 {
        walk_by_moves(session, unwinder, cache, walk, sample, frames)
    } else {
        walk_by_known(session, unwinder, cache, walk, sample, frames)
    }
}
