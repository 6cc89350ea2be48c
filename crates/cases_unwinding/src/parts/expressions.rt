//! Evaluates an expression, which is the input.
//!
//! It prints the expression's value, with RSP 0x7000, RIP 0x102c, and every other register 0. With the arguments `time` and
//! n it evaluates the expression n times a round, each time at another of the 16 addresses of an entry of a PLT, and prints
//! the least nanoseconds of all rounds with the sum of the values.

mod evaluations;

use anyhow::Result;
use dwarf_readers::{EndianSlice, LittleEndian};
use evaluations::{Registers, sum_of_values, value_of};
use std::time::{Duration, Instant};

const ROUNDS: u32 = 2_000;

pub fn run(rt: &HostRuntime, words: &[String], input: &[u8]) -> Result<()> {
    let expression = EndianSlice::new(input, LittleEndian);
    match words.get(1) {
        Some(count) => print_time(rt, expression, count.parse()?),
        None => {
            let value = value_of(rt.alloc(), expression, Registers::at(0x102c))?;
            println!(rt; "value {value:#x}")?;
            Ok(())
        }
    }
}

// Evaluates the expression n times a round, and prints the least time.
fn print_time(
    rt: &HostRuntime,
    expression: EndianSlice<'_, LittleEndian>,
    count: u64,
) -> Result<()> {
    let mut least = Duration::MAX;
    let mut sum = 0;
    for _ in 0..ROUNDS {
        let start = Instant::now(rt)?;
        sum = sum_of_values(rt.alloc(), expression, count);
        least = least.min(start.elapsed(rt)?);
    }
    println!(rt; "{count} evaluations {} ns, sum {sum:#x}", least.as_nanos())?;
    Ok(())
}
