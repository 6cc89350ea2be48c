//! How long the making of a module and walks through its code take, by the clock of the machine.

use crate::arch::{TimedRegs, new_cache, unwinder_with};
use crate::modules::{Making, Parts, TimedData, parts_of};
use crate::work::{Walk, Work};
use anyhow::Result;
use framehop::{ModuleUnwinding, Unwinder, UnwinderInternal};
use std::alloc::Global;
use std::time::{Clock, Duration, Instant};

/// The least times of all rounds.
#[derive(Clone, Copy)]
pub struct Times {
    pub module: Duration,
    pub warm: Duration,
    pub fresh: Duration,
    pub with_making: Duration,
}

/// An unwinder with the module that is timed.
pub fn unwinder_of<A: ModuleUnwinding<UnwindData = TimedData>, M: Making>(
    alloc: Global,
    work: &Work,
) -> Result<UnwinderInternal<A>>
where
    A::UnwindRegs: TimedRegs,
{
    let parts = parts_of(alloc, work)?;
    unwinder_with(alloc, M::module_of::<A::UnwindRegs>(alloc, work, parts)?)
}

// How many frames a walk gives.
fn frames_of<U: Unwinder>(
    unwinder: &U,
    cache: &mut U::Cache,
    regs: U::UnwindRegs,
    walk: &Walk,
) -> u32 {
    let mut read_stack = |at: u64| -> std::result::Result<u64, ()> { walk.stack.word(at) };
    let mut frames = unwinder.iter_frames(walk.pc, regs, cache, &mut read_stack);
    let mut count: u32 = 0;
    for _ in 0..walk.limit {
        match frames.next() {
            Ok(Some(_)) => count = count.wrapping_add(1),
            _ => break,
        }
    }
    count
}

/// How many frames all walks give through one cache.
pub fn frames_of_each<U: Unwinder>(unwinder: &U, cache: &mut U::Cache, walks: &[Walk]) -> u32
where
    U::UnwindRegs: TimedRegs,
{
    let mut count: u32 = 0;
    for walk in walks {
        let regs = U::UnwindRegs::of(walk.first);
        count = count.wrapping_add(frames_of(unwinder, cache, regs, walk));
    }
    count
}

/// How many frames all walks give.
pub fn frames_of_all<A: ModuleUnwinding<UnwindData = TimedData>, M: Making>(
    alloc: Global,
    work: &Work,
) -> Result<u32>
where
    A::UnwindRegs: TimedRegs,
{
    let unwinder = unwinder_of::<A, M>(alloc, work)?;
    let mut cache = new_cache::<A>(alloc)?;
    Ok(frames_of_each(&unwinder, &mut cache, &work.walks))
}

/// The least time of all walks through one cache, of as many turns as there are rounds.
pub fn seen_walks<U: Unwinder>(
    clock: &impl Clock,
    unwinder: &U,
    cache: &mut U::Cache,
    work: &Work,
) -> Result<Duration>
where
    U::UnwindRegs: TimedRegs,
{
    let mut least = Duration::MAX;
    for _ in 0..work.rounds {
        let start = Instant::now(clock)?;
        frames_of_each(unwinder, cache, &work.walks);
        least = least.min(start.elapsed(clock)?);
    }
    Ok(least)
}

// How long all walks with a new cache each take, with the making of the caches.
fn made_walks<A: ModuleUnwinding>(
    clock: &impl Clock,
    alloc: Global,
    unwinder: &UnwinderInternal<A>,
    walks: &[Walk],
) -> Result<Duration>
where
    A::UnwindRegs: TimedRegs,
{
    let start = Instant::now(clock)?;
    for walk in walks {
        let mut cache = new_cache::<A>(alloc)?;
        frames_of(unwinder, &mut cache, A::UnwindRegs::of(walk.first), walk);
    }
    Ok(start.elapsed(clock)?)
}

// How long all walks with a new cache each take, without the making of the caches.
fn fresh_walks<A: ModuleUnwinding>(
    clock: &impl Clock,
    alloc: Global,
    unwinder: &UnwinderInternal<A>,
    walks: &[Walk],
) -> Result<Duration>
where
    A::UnwindRegs: TimedRegs,
{
    let mut fresh = Duration::ZERO;
    for walk in walks {
        let mut cache = new_cache::<A>(alloc)?;
        let start = Instant::now(clock)?;
        frames_of(unwinder, &mut cache, A::UnwindRegs::of(walk.first), walk);
        fresh = fresh.saturating_add(start.elapsed(clock)?);
    }
    Ok(fresh)
}

// The parts of as many modules as there are rounds.
fn parts_of_all(alloc: Global, work: &Work) -> Result<Vec<Parts>> {
    let mut all = Vec::new(alloc);
    for _ in 0..work.rounds {
        all.push(parts_of(alloc, work)?)?;
    }
    Ok(all)
}

// The least time of making the module of its parts, as often as there are rounds, one directly after the other.
fn making<R: TimedRegs, M: Making>(
    clock: &impl Clock,
    alloc: Global,
    work: &Work,
) -> Result<Duration> {
    let mut least = Duration::MAX;
    for parts in parts_of_all(alloc, work)? {
        let start = Instant::now(clock)?;
        let _module = M::module_of::<R>(alloc, work, parts)?;
        least = least.min(start.elapsed(clock)?);
    }
    Ok(least)
}

// The least times of all walks.
fn time_walks<A: ModuleUnwinding>(
    clock: &impl Clock,
    alloc: Global,
    unwinder: &UnwinderInternal<A>,
    work: &Work,
    times: &mut Times,
) -> Result<()>
where
    A::UnwindRegs: TimedRegs,
{
    let mut cache = new_cache::<A>(alloc)?;
    frames_of_each(unwinder, &mut cache, &work.walks);
    for _ in 0..work.rounds {
        let start = Instant::now(clock)?;
        frames_of_each(unwinder, &mut cache, &work.walks);
        times.warm = times.warm.min(start.elapsed(clock)?);
        let with_making = made_walks(clock, alloc, unwinder, &work.walks)?;
        times.with_making = times.with_making.min(with_making);
        let fresh = fresh_walks(clock, alloc, unwinder, &work.walks)?;
        times.fresh = times.fresh.min(fresh);
    }
    Ok(())
}

/// Makes the module and all walks as often as there are rounds.
pub fn time<A: ModuleUnwinding<UnwindData = TimedData>, M: Making>(
    clock: &impl Clock,
    alloc: Global,
    work: &Work,
) -> Result<Times>
where
    A::UnwindRegs: TimedRegs,
{
    let mut times = Times {
        module: making::<A::UnwindRegs, M>(clock, alloc, work)?,
        warm: Duration::MAX,
        fresh: Duration::MAX,
        with_making: Duration::MAX,
    };
    let unwinder = unwinder_of::<A, M>(alloc, work)?;
    time_walks(clock, alloc, &unwinder, work, &mut times)?;
    Ok(times)
}
