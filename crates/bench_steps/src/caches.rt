//! Walks through one cache of some number of slots.

use crate::arch::{TimedRegs, cache_of};
use crate::modules::{Plain, TimedData};
use crate::timing::{frames_of_each, seen_walks, unwinder_of};
use crate::work::{read_input, read_work};
use anyhow::{Context, Result};
use framehop::x86_64::SlotCount;
use framehop::{CacheStats, ModuleUnwinding};
use std::env;
use std::rt::{Clock, Env};

/// Reads from standard input what is said at `read_work`, and prints how many frames the walks give through one new cache of as many
/// slots as the first argument says, or 509, and how many of its look-ups found their rule. With the argument `time` after it, it also
/// prints the least nanoseconds of all rounds of all walks through this cache, which has seen them before.
pub fn run_caches<
    A: ModuleUnwinding<UnwindData = TimedData>,
    R: AllocGlobal + Input + Print + Env + Clock,
>(rt: &R) -> Result<()>
where
    A::UnwindRegs: TimedRegs,
{
    let input = read_input(rt)?;
    let mut words = env::args(rt)?.skip(1);
    let slots = match words.next() {
        Some(slots) => slots.as_str().parse()?,
        None => SlotCount::original().get(),
    };
    print_caches::<A, R>(rt, &input, slots, words.next().is_some())
}

/// Prints the same of an input, with the time if it is asked for. Fails if no cache has so many slots, and as `run` does.
pub fn print_caches<A: ModuleUnwinding<UnwindData = TimedData>, R: AllocGlobal + Print + Clock>(
    rt: &R,
    input: &[u8],
    slots: usize,
    is_timed: bool,
) -> Result<()>
where
    A::UnwindRegs: TimedRegs,
{
    let work = read_work(rt.alloc(), input)?;
    let unwinder = unwinder_of::<A, Plain>(rt.alloc(), &work)?;
    let slots = SlotCount::new(slots).context("no cache has so many slots")?;
    let mut cache = cache_of::<A>(rt.alloc(), slots)?;
    let frames = frames_of_each(&unwinder, &mut cache, &work.walks);
    print_stats(rt, frames, cache.stats())?;
    if is_timed {
        let least = seen_walks(rt, &unwinder, &mut cache, &work)?;
        println!(rt; "seen {} ns", least.as_nanos())?;
    }
    Ok(())
}

// Prints how many frames there are, and how many look-ups found their rule.
fn print_stats<R: Print>(rt: &R, frames: u32, stats: CacheStats) -> Result<()> {
    println!(rt;
        "{frames} frames, {} hits of {} look-ups",
        stats.hits(),
        stats.total()
    )?;
    Ok(())
}
