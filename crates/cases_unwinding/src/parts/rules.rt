//! Makes steps by cached rules, for timing a look-up that hits with the execution of its rule.
//!
//! It keeps rules for 252 addresses, makes a step from a frame at each of them, and prints how many answered a return address,
//! how many look-ups hit, and the sum of some registers of the callers: first by the common rules, then by rules that pop
//! registers. With the argument `time` or `time-pops` it makes the former or the latter again and again, and prints the least
//! nanoseconds of all rounds; with `time-16384` the former through a cache of so many slots, and with `time-making` it makes such
//! caches. It reads nothing.

mod steps;

use anyhow::Result;
use framehop_rules::x86_64::UnwindRuleX86_64;
use framehop_rules::{RuleCache, SlotCount};
use std::time::{Duration, Instant};
use steps::{Frame, Rules, STEPS, Stack, keep_rules, make_frames, make_steps};

const ROUNDS: u32 = 20_000;

/// The slots of a cache for a large program.
const MANY: usize = 16_384;

pub fn run(rt: &HostRuntime, words: &[String]) -> Result<()> {
    let stack = Stack::new(rt.alloc())?;
    let frames = make_frames(rt.alloc())?;
    let few = SlotCount::original();
    let many = SlotCount::new(MANY).unwrap_or(few);
    match words.first() {
        Some(mode) if mode.as_str() == "time" => print_time(
            rt,
            &stack,
            &frames,
            Rules::Common,
            few,
        ),
        Some(mode) if mode.as_str() == "time-pops" => {
            print_time(rt, &stack, &frames, Rules::Pops, few)
        }
        Some(mode) if mode.as_str() == "time-16384" => {
            print_time(rt, &stack, &frames, Rules::Common, many)
        }
        Some(mode) if mode.as_str() == "time-making" => print_making(rt, many),
        _ => {
            print_counts(rt, &stack, &frames, Rules::Common, few)?;
            print_counts(rt, &stack, &frames, Rules::Pops, few)?;
            print_counts(rt, &stack, &frames, Rules::Common, many)
        }
    }
}

// A cache that has a rule for each frame.
fn full_cache(
    rt: &HostRuntime,
    frames: &[Frame],
    rules: Rules,
    slots: SlotCount,
) -> Result<RuleCache<UnwindRuleX86_64>> {
    let mut cache = RuleCache::with_slots(rt.alloc(), slots)?;
    keep_rules(&mut cache, frames, rules);
    Ok(cache)
}

// Makes all steps once, and prints how many answered.
fn print_counts(
    rt: &HostRuntime,
    stack: &Stack,
    frames: &[Frame],
    rules: Rules,
    slots: SlotCount,
) -> Result<()> {
    let mut cache = full_cache(rt, frames, rules, slots)?;
    let tally = make_steps(&mut cache, stack, frames);
    let hits = cache.stats().hits();
    println!(rt;
        "{STEPS} steps, {} answered, {hits} hits, sum 0x{:x}",
        tally.answered, tally.sum
    )?;
    Ok(())
}

// Makes all steps as often as there are rounds, and prints the least time.
fn print_time(
    rt: &HostRuntime,
    stack: &Stack,
    frames: &[Frame],
    rules: Rules,
    slots: SlotCount,
) -> Result<()> {
    let mut cache = full_cache(rt, frames, rules, slots)?;
    let mut least = Duration::MAX;
    let mut tally = make_steps(&mut cache, stack, frames);
    for _ in 0..ROUNDS {
        let start = Instant::now(rt)?;
        tally = make_steps(&mut cache, stack, frames);
        least = least.min(start.elapsed(rt)?);
    }
    println!(rt;
        "{STEPS} steps {} ns, {} answered, sum 0x{:x}",
        least.as_nanos(),
        tally.answered,
        tally.sum
    )?;
    Ok(())
}

// Makes a cache as often as there are rounds, and prints the least time.
fn print_making(rt: &HostRuntime, slots: SlotCount) -> Result<()> {
    let mut least = Duration::MAX;
    for _ in 0..ROUNDS {
        let start = Instant::now(rt)?;
        let cache: RuleCache<UnwindRuleX86_64> = RuleCache::with_slots(rt.alloc(), slots)?;
        least = least.min(start.elapsed(rt)?);
        drop(cache);
    }
    println!(rt; "a cache of {} slots {} ns", slots.get(), least.as_nanos())?;
    Ok(())
}
