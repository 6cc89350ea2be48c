//! Steps over a sample.

ghost use Rattle.std.specs.Prelude.{◌≡◌, ◌≢◌, false, true, None, IfOk, IfSome, OnErr, OnOk};
ghost use Rattle.framehop_registers.specs.Callback.{read_answer};
ghost use Rattle.framehop_unwinder.specs.Frames.{frame_of};
ghost use Rattle.framehop_unwinder.specs.IdViews.{FindsHeld, StepsBy, has_both};
ghost use Rattle.framehop_unwinder.specs.Trials.{wants_memory};
ghost use Rattle.framehop_calls.specs.Samples.{first_unknown, is_known, words_of};
ghost use Rattle.framehop_calls.specs.SampleSteps.{AnswersIn, Asks, CountsBy, FindsBoth, IsAskedFor, KeepsModules, NotesRead, SampleSteps, StepsIn, TakesNoMemory, outcome_in, reads_at};

use crate::sample::{AskedSample, Sample};
use framehop_rules::{Error, FrameAddress};
use framehop_unwinder::{CacheId, ModuleUnwinding, Session, StaleId, UnwinderId};

/// What a step over a sample gives.
#[derive(Clone, Copy)]
pub enum SampleStep {
    /// The answer of the step over the words that are known, and over no others.
    Answered(Result<Option<u64>, Error>),
    /// Nothing was done: the word at this address has to be known first.
    NeedsWord(u64),
}

/// Registers as a caller gave them, who still has them. So a step that needs a word puts them back, and keeps no copy.
pub trait GivenRegisters<R> {
    ghost given: { Self → R };

    /// The registers.
    fn registers(&self) -> R
        ensures { result ≡ given self.now };
}

// A copy of registers.
#[derive(Clone, Copy)]
pub(crate) struct Copied<R> {
    pub(crate) regs: R,
}

impl<R: Copy> GivenRegisters<R> for Copied<R> {
    ghost given = { λ copied. copied.regs };

    fn registers(&self) -> R {
        self.regs
    }
}

// What was asked for, if the sample asks and nothing is known of it.
#[inline(always)]
fn needed(sample: &Sample<'_>, wanted: Option<u64>) -> Option<u64>
    ensures asked { IfSome result (IsAskedFor sample.now) }
    ensures none { result ≡ None → sample.now.asks ≢ 0 → IfSome wanted (λ at. is_known sample.now at ≡ true) }
{
    let address = wanted?;
    if sample.asks == 0 || sample.knows(address) {
        None
    } else {
        Some(address)
    }
}

// Makes a step over the words that are known, if the session has both.
#[inline(always)]
fn step_by_known<A: ModuleUnwinding>(
    session: &mut Session<A>,
    unwinder: UnwinderId,
    cache: CacheId,
    address: FrameAddress,
    regs: &mut A::UnwindRegs,
    sample: &Sample<'_>,
) -> Result<Result<Option<u64>, Error>, StaleId>
    ensures found { FindsHeld (has_both session.old unwinder cache) result session.old session.new }
    ensures unchanged { OnErr result (regs.new ≡ regs.old) }
    ensures step { IfOk result (λ answer.
        AnswersIn A.meanings session.old unwinder address sample.now answer regs.old regs.new) }
    ensures caches { IfOk result (λ answer. StepsBy A.meanings answer
        (frame_of address) unwinder cache session.old session.new) }
    ensures memory { IfOk result (λ answer. A.takes_memory ≡ false → wants_memory answer ≡ false) }
{
    let mut read_stack = |at: u64| -> Result<u64, ()>
        ensures { result ≡ read_answer (words_of sample.entry.now at) }
    { sample.word(at) };
    session.step(unwinder, cache, address, regs, &mut read_stack)
}

// Makes a step over the words that are known, if the session has both, and notes the first other word that is asked for.
#[inline(always)]
fn step_by_asked<A: ModuleUnwinding>(
    session: &mut Session<A>,
    unwinder: UnwinderId,
    cache: CacheId,
    address: FrameAddress,
    regs: &mut A::UnwindRegs,
    asked: &mut AskedSample<'_, '_>,
) -> Result<Result<Option<u64>, Error>, StaleId>
    ensures found { FindsHeld (has_both session.old unwinder cache) result session.old session.new }
    ensures unchanged { OnErr result (regs.new ≡ regs.old) }
    ensures step { IfOk result (λ answer.
        AnswersIn A.meanings session.old unwinder address asked.old.sample.now answer regs.old regs.new) }
    ensures caches { IfOk result (λ answer. StepsBy A.meanings answer
        (frame_of address) unwinder cache session.old session.new) }
    ensures memory { IfOk result (λ answer. A.takes_memory ≡ false → wants_memory answer ≡ false) }
    ensures noted { OnOk result (NotesRead asked.old asked.new
        (reads_at A.UnwindRule.reads session.old unwinder cache address regs.old)) }
{
    let mut read_stack = |at: u64| -> Result<u64, ()>
        ensures answer { result ≡ read_answer (words_of asked.entry.now.sample.now at) }
        ensures sample { asked.exit.now.sample ≡ asked.entry.now.sample }
        ensures noted { asked.exit.now.wanted ≡ first_unknown asked.entry.now.sample.now asked.entry.now.wanted at }
        ensures loan { asked.exit.ghost_name ≡ asked.entry.ghost_name }
    { asked.word(at) };
    session.step(unwinder, cache, address, regs, &mut read_stack)
}

/// Makes a step over a sample, if the session has the unwinder and the cache: that of the judge over the words that are known, and over
/// no others. If another is asked for, nothing is done but in the cache, and the step is to be made again once it is known.
#[inline(always)]
pub(crate) fn step_if_held<A: ModuleUnwinding, G: GivenRegisters<A::UnwindRegs>>(
    session: &mut Session<A>,
    unwinder: UnwinderId,
    cache: CacheId,
    address: FrameAddress,
    given: &G,
    regs: &mut A::UnwindRegs,
    sample: &Sample<'_>,
) -> Result<SampleStep, StaleId>
    requires { G.given given.now ≡ regs.old }
    ensures found { FindsBoth (has_both session.old unwinder cache) result
        session.old session.new regs.old regs.new }
    ensures step { IfOk result (λ made.
        StepsIn A.meanings session.old unwinder address sample.now made regs.old regs.new) }
    ensures asks { IfOk result (Asks sample.now
        (reads_at A.UnwindRule.reads session.old unwinder cache address regs.old)) }
    ensures caches { IfOk result
        (λ made. CountsBy A.meanings made address unwinder cache session.old session.new) }
    ensures memory { IfOk result (λ made. A.takes_memory ≡ false → TakesNoMemory made) }
{
    if sample.asks != 0 {
        return step_or_need(session, unwinder, cache, address, given, regs, sample);
    }
    let step = step_by_known(session, unwinder, cache, address, regs, sample)?;
    Ok(SampleStep::Answered(step))
}

// Makes a step over a sample that asks for words, if the session has both: none if a word has to be known first.
#[inline(always)]
fn step_or_need<A: ModuleUnwinding, G: GivenRegisters<A::UnwindRegs>>(
    session: &mut Session<A>,
    unwinder: UnwinderId,
    cache: CacheId,
    address: FrameAddress,
    given: &G,
    regs: &mut A::UnwindRegs,
    sample: &Sample<'_>,
) -> Result<SampleStep, StaleId>
    requires { G.given given.now ≡ regs.old }
    ensures found { FindsBoth (has_both session.old unwinder cache) result
        session.old session.new regs.old regs.new }
    ensures step { IfOk result (λ made.
        StepsIn A.meanings session.old unwinder address sample.now made regs.old regs.new) }
    ensures asks { IfOk result (Asks sample.now
        (reads_at A.UnwindRule.reads session.old unwinder cache address regs.old)) }
    ensures caches { IfOk result
        (λ made. CountsBy A.meanings made address unwinder cache session.old session.new) }
    ensures memory { IfOk result (λ made. A.takes_memory ≡ false → TakesNoMemory made) }
{
    let mut asked = AskedSample {
        sample,
        wanted: None,
    };
    let step = step_by_asked(session, unwinder, cache, address, regs, &mut asked)?;
    match needed(sample, asked.wanted) {
        Some(address) => {
            *regs = given.registers();
            Ok(SampleStep::NeedsWord(address))
        }
        None => Ok(SampleStep::Answered(step)),
    }
}

/// Makes a step over a sample: that of the judge over the words that are known, and over no others. If another is asked for, nothing is
/// done but in the cache, and the step is to be made again once it is known.
#[inline(always)]
pub fn step_in_sample<A: ModuleUnwinding>(
    session: &mut Session<A>,
    unwinder: UnwinderId,
    cache: CacheId,
    address: FrameAddress,
    regs: &mut A::UnwindRegs,
    sample: &Sample<'_>,
) -> SampleStep
    requires { has_both session.old unwinder cache ≡ true }
    ensures step { SampleSteps result regs.old regs.new
        (outcome_in A.meanings session.old unwinder address regs.old sample.now) }
    ensures asks { Asks sample.now (reads_at A.UnwindRule.reads session.old unwinder cache address regs.old) result }
    ensures session { KeepsModules session.old session.new }
    ensures caches { CountsBy A.meanings result address unwinder cache session.old session.new }
    ensures memory { A.takes_memory ≡ false → TakesNoMemory result }
{
    let given = Copied { regs: *regs };
    let made = step_if_held(session, unwinder, cache, address, &given, regs, sample);
    made.unwrap()
}
