//! Looks for prologues or epilogues at places in code.
//!
//! Each line of the input is code in hexadecimal and offsets in it. It prints for each detector at how many of the offsets it
//! finds a rule, and a sum of the rules' numbers. With the name of a detector, as `x86_64-epilogue`, and a number n, it looks at
//! all places by this one n times, and prints the least nanoseconds of all times too.

mod detectors;
mod places;

use anyhow::{Result, bail};
use detectors::{Aarch64Epilogue, Aarch64Prologue, Detector, X86_64Epilogue, X86_64Prologue};
use places::{Code, look, parse};
use std::time::{Duration, Instant};

pub fn run(rt: &HostRuntime, words: &[String], input: &[u8]) -> Result<()> {
    let codes = parse(rt.alloc(), str::from_utf8(input)?)?;
    match (words.first(), words.get(1)) {
        (Some(name), Some(rounds)) => time_named(rt, &codes, name.as_str(), rounds.parse()?),
        _ => {
            print_tally::<X86_64Prologue>(rt, &codes)?;
            print_tally::<X86_64Epilogue>(rt, &codes)?;
            print_tally::<Aarch64Prologue>(rt, &codes)?;
            print_tally::<Aarch64Epilogue>(rt, &codes)
        }
    }
}

// What one detector finds.
fn print_tally<D: Detector>(rt: &HostRuntime, codes: &[Code]) -> Result<()> {
    let tally = look::<D>(codes);
    println!(rt;
        "{} of {} places, sum {}",
        tally.rules, tally.places, tally.sum
    )?;
    Ok(())
}

// Times the detector with a name.
fn time_named(rt: &HostRuntime, codes: &[Code], name: &str, rounds: u32) -> Result<()> {
    match name {
        "x86_64-prologue" => print_time::<X86_64Prologue>(rt, codes, rounds),
        "x86_64-epilogue" => print_time::<X86_64Epilogue>(rt, codes, rounds),
        "aarch64-prologue" => print_time::<Aarch64Prologue>(rt, codes, rounds),
        "aarch64-epilogue" => print_time::<Aarch64Epilogue>(rt, codes, rounds),
        _ => bail!("no detector has this name"),
    }
}

// Looks as often as there are rounds, and prints the least time.
fn print_time<D: Detector>(rt: &HostRuntime, codes: &[Code], rounds: u32) -> Result<()> {
    let mut least = Duration::MAX;
    let mut tally = look::<D>(codes);
    for _ in 0..rounds {
        let start = Instant::now(rt)?;
        tally = look::<D>(codes);
        least = least.min(start.elapsed(rt)?);
    }
    println!(rt;
        "{} of {} places {} ns, sum {}",
        tally.rules,
        tally.places,
        least.as_nanos(),
        tally.sum
    )?;
    Ok(())
}
