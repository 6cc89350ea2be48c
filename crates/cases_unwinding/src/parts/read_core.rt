//! Reads bytes. The first byte of the input says what is read.
//!
//! - `n`: the rest is unsigned numbers of variable length. It prints their count, and their sum modulo 2^64, or the error.
//! - `t`: the largest code to look up, a count of tables and the offset of each follow, every number in four bytes, the low byte
//!   first, and then the section that has these tables of abbreviations. It prints how many of the codes from 1 to the largest
//!   are declared, over all tables, or the error.
//! - `o`: a count of offsets follows, and the offsets. It prints these and the bytes that are left, or the error.
//! - Any other: it prints how many bytes the rest has.

mod numbers;
mod tables;

use anyhow::Result;
use dwarf_read_core::{EndianSlice, LittleEndian, Reader};
use numbers::tally_numbers;
use tables::{declared, read_offsets};

pub fn run(rt: &HostRuntime, input: &[u8]) -> Result<()> {
    let mut reader = EndianSlice::new(input, LittleEndian);
    match reader.read_u8()? {
        b'n' => print_numbers(rt, reader),
        b't' => print_codes(rt, reader),
        b'o' => print_offsets(rt, reader),
        _ => {
            println!(rt; "{} bytes", reader.slice().len())?;
            Ok(())
        }
    }
}

// Prints how many numbers there are, and their sum.
fn print_numbers(rt: &HostRuntime, reader: EndianSlice<'_, LittleEndian>) -> Result<()> {
    match tally_numbers(reader) {
        Ok(tally) => println!(rt; "{} numbers, sum {}", tally.count, tally.sum)?,
        Err(error) => println!(rt; "{error:?}")?,
    }
    Ok(())
}

// Prints how many codes are declared.
fn print_codes(rt: &HostRuntime, mut reader: EndianSlice<'_, LittleEndian>) -> Result<()> {
    let codes = reader.read_u32()?;
    let count = reader.read_u32()?;
    let offsets = read_offsets(rt.alloc(), &mut reader, count)?;
    match declared(rt.alloc(), reader, offsets.as_slice(), codes) {
        Ok(found) => println!(rt; "{found} codes")?,
        Err(error) => println!(rt; "{error:?}")?,
    }
    Ok(())
}

// Prints offsets, and what is behind them.
fn print_offsets(rt: &HostRuntime, mut reader: EndianSlice<'_, LittleEndian>) -> Result<()> {
    let count = reader.read_u32()?;
    match read_offsets(rt.alloc(), &mut reader, count) {
        Ok(offsets) => println!(rt; "{:?}, then {:?}", offsets.as_slice(), reader.slice())?,
        Err(error) => println!(rt; "{error:?}")?,
    }
    Ok(())
}
