//! Looks addresses up in the index of a section `.eh_frame`, for counting what a look-up reads.
//!
//! The input is the number of look-ups and the distance from each address to the next, in four bytes each, the low byte first,
//! and then the section. The addresses count from 0 on. It prints how many of them have an FDE, and how many starts of the index
//! a look-up read at most.

mod look_ups;
mod sections;

use anyhow::{Context, Result};
use dwarf_readers::{EndianSlice, LittleEndian, Reader};
use framehop_index::{BaseAddresses, DwarfCfiIndex};
use look_ups::{Tally, look_up_each};
use sections::section_of;

pub fn run(rt: &HostRuntime, input: &[u8]) -> Result<()> {
    let mut reader = EndianSlice::new(input, LittleEndian);
    let count = reader.read_u32()?;
    let apart = reader.read_u32()?;
    look_up(rt, reader.slice(), count, apart)
}

/// Does the same with addresses 16 bytes apart and a section of our own, whose number of FDEs is the first of two numbers.
pub fn run_of(rt: &HostRuntime, numbers: &str) -> Result<()> {
    let (fdes, count) = numbers.split_once(' ').context("two numbers")?;
    let section = section_of(rt.alloc(), fdes.parse()?)?;
    look_up(rt, &section, count.parse()?, 16)
}

// Looks up so many addresses, so many bytes apart.
fn look_up(rt: &HostRuntime, section: &[u8], count: u32, apart: u32) -> Result<()> {
    let bases = BaseAddresses::default();
    let index = DwarfCfiIndex::try_new_eh_frame(rt.alloc(), section, &bases, 0)?;
    print_tally(rt, look_up_each(&index, count, apart), count)
}

// Prints what was found of so many addresses.
fn print_tally(rt: &HostRuntime, tally: Tally, count: u32) -> Result<()> {
    println!(rt;
        "{} of {count} found, at most {} starts read",
        tally.found, tally.most_starts_read
    )?;
    Ok(())
}
