//! Looks addresses up in a section `__unwind_info`, for timing lookups and the test of its tables.
//!
//! The input is the number of lookups, the first address and the distance from each address to the next, in four bytes each, the
//! low byte first, and then the section. It prints how many of the addresses are in a function, and a sum of the functions'
//! starts and of what their encodings say on x86_64. With the argument `time` it does so again and again, and prints the least
//! nanoseconds of all rounds: of the test of the tables, and of all lookups.

mod look_ups;

use anyhow::Result;
use dwarf_readers::{EndianSlice, LittleEndian, Reader};
use framehop_compact_tables::is_increasing;
use look_ups::{Addresses, Tally, look_up_each, unwinder_of};
use std::time::{Duration, Instant};

const ROUNDS: u32 = 200;

pub fn run(rt: &HostRuntime, words: &[String], input: &[u8]) -> Result<()> {
    let mut reader = EndianSlice::new(input, LittleEndian);
    let addresses = Addresses {
        count: reader.read_u32()?,
        first: reader.read_u32()?,
        apart: reader.read_u32()?,
    };
    let section = reader.slice();
    if words.is_empty() {
        print_tally(rt, look_up_each(&unwinder_of(section), addresses))
    } else {
        print_times(rt, section, addresses)
    }
}

// Prints what was found.
fn print_tally(rt: &HostRuntime, tally: Tally) -> Result<()> {
    println!(rt; "{} found, sum 0x{:x}", tally.found, tally.sum)?;
    Ok(())
}

// Does all as often as there are rounds, and prints the least times.
fn print_times(rt: &HostRuntime, section: &[u8], addresses: Addresses) -> Result<()> {
    let mut least_of_tests = Duration::MAX;
    let mut least_of_lookups = Duration::MAX;
    let unwinder = unwinder_of(section);
    let mut tally = look_up_each(&unwinder, addresses);
    let mut increasing = 0u32;
    for _ in 0..ROUNDS {
        let start = Instant::now(rt)?;
        increasing = increasing.saturating_add(u32::from(is_increasing(section)));
        least_of_tests = least_of_tests.min(start.elapsed(rt)?);
        let start = Instant::now(rt)?;
        tally = look_up_each(&unwinder, addresses);
        least_of_lookups = least_of_lookups.min(start.elapsed(rt)?);
    }
    println!(rt;
        "test {} ns, lookups {} ns, {increasing} increase",
        least_of_tests.as_nanos(),
        least_of_lookups.as_nanos()
    )?;
    print_tally(rt, tally)
}
