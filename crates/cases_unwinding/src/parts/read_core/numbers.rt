//! Numbers one after the other.

ghost use Rattle.dwarf_endianity.specs.Answers.{Gives};
ghost use Rattle.cases_unwinding.specs.Little.{little};
ghost use Rattle.cases_unwinding.specs.Numbers.{tally_in};

use dwarf_read_core::{EndianSlice, LittleEndian, Reader, Result};

/// How many numbers there were, and their sum modulo 2^64.
#[derive(Debug, Clone, Copy, PartialEq, Eq)]
pub struct Tally {
    pub count: u64,
    pub sum: u64,
}

/// Reads unsigned numbers to the end of the bytes. Fails with the first error.
pub fn tally_numbers(mut reader: EndianSlice<'_, LittleEndian>) -> Result<Tally>
    ensures { Gives (λ t. (t.count, t.sum)) result (tally_in (little reader.entry)) }
{
    let mut tally = Tally { count: 0, sum: 0 };
    'numbers: while !reader.is_empty() {
        let number = reader.read_uleb128()?;
        tally.count += 1;
        tally.sum = tally.sum.wrapping_add(number);
    }
    Ok(tally)
}
