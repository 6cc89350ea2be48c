//! Lookups of the function of an address.

ghost use Rattle.std.specs.Prelude.{◌≡◌, ◌<◌, ◌+◌, IfOk, IfSome, IsTrue, true, false};
ghost use Rattle.framehop_compact_tables.specs.Functions.{function_for, function_of, end_of, ContainsAddress};
ghost use Rattle.framehop_compact_tables.specs.Index.{index_count};
ghost use Rattle.framehop_compact_tables.specs.Increasing.{IsIncreasing};
ghost use Rattle.framehop_compact_tables.specs.Pages.{entry_count};

use crate::function::Function;
use crate::increasing::page_of;
use crate::index::Index;
use crate::page_entries::PageEntries;
use crate::search::find_row;
use dwarf_readers::{Counted, Steps, count_steps};
use framehop_errors::CompactFormatError;
use sorted_starts::Starts;
use std::sync::ledger::Ledger;

/// The bytes of `__unwind_info`.
#[derive(Clone, Copy, Debug)]
pub struct UnwindInfo<'a> {
    /// The bytes.
    pub bytes: &'a [u8],
    /// Whether the tables are known to increase. It may be true only where they do (`is_increasing`).
    pub increasing: bool,
    pub ghost in_order: { IsTrue increasing → IsIncreasing bytes.now },
}

// The end of an entry: where the next one starts, or else the next page.
#[inline(always)]
fn end_of(index: &Index<'_>, row: usize, entries: &PageEntries<'_>, entry: usize) -> u32
    requires page { row + 1 < index_count index.now.bytes.now }
    requires entry { entry < entry_count entries.now.page }
    requires same_bytes { entries.now.bytes.now ≡ index.now.bytes.now }
    ensures { result ≡ end_of index.now.bytes.now row entries.now.page entry }
{
    let count = entries.start_count();
    if entry + 1 < count {
        entries.start_at(entry + 1)
    } else {
        index.start_at(row + 1)
    }
}

// The function of an entry of a page.
#[inline(always)]
fn function_of(
    index: &Index<'_>,
    row: usize,
    entries: &PageEntries<'_>,
    entry: usize,
) -> Result<Function, CompactFormatError>
    requires page { row + 1 < index_count index.now.bytes.now }
    requires entry { entry < entry_count entries.now.page }
    requires same_bytes { entries.now.bytes.now ≡ index.now.bytes.now }
    ensures { result ≡ function_of index.now.bytes.now row entries.now.page entry }
{
    let opcode = entries.encoding(entry)?;
    Ok(Function {
        start_address: entries.start_at(entry),
        end_address: end_of(index, row, entries, entry),
        opcode,
    })
}

impl<'a> UnwindInfo<'a> {
    ghost use Rattle.framehop_compact_tables.specs.CountedLookups.{AreFewIfIncreasing};

    /// The bytes as they are. Lookups pass over the tables.
    pub fn new(bytes: &'a [u8]) -> Self
        ensures same_bytes { result.bytes.now ≡ bytes.now }
        ensures increasing { result.increasing ≡ false }
    {
        UnwindInfo {
            bytes,
            increasing: false,
        }
    }

    /// The bytes of tables that increase. Lookups halve the tables.
    pub fn new_increasing(bytes: &'a [u8]) -> Self
        requires { IsIncreasing bytes.now }
        ensures same_bytes { result.bytes.now ≡ bytes.now }
        ensures increasing { result.increasing ≡ true }
    {
        UnwindInfo {
            bytes,
            increasing: true,
        }
    }

    /// The function that contains an address, relative to the module's base, if there is one.
    pub fn lookup(&self, address: u32) -> Result<Option<Function>, CompactFormatError>
        ensures function { result ≡ function_for self.now.bytes.now address }
        ensures contains { IfOk result (λ found. IfSome found (λ function. ContainsAddress function address)) }
    {
        count_steps(Lookup {
            unwind_info: *self,
            address,
        })
    }

    /// As `lookup`. It counts a step for each start that it reads to search. Where the tables are known to increase, they
    /// are at most ceil(log2(n)) + 1 for each table of n rows: the index and a page.
    pub fn lookup_counted<L: Ledger>(
        &self,
        address: u32,
        steps: &mut Steps<L>,
    ) -> Result<Option<Function>, CompactFormatError>
        ensures function { result ≡ function_for self.now.bytes.now address }
        ensures contains { IfOk result (λ found. IfSome found (λ function. ContainsAddress function address)) }
        ensures few { AreFewIfIncreasing self.now address steps.old steps.new }
    {
        let index = Index::read(self.bytes)?;
        let Some(row) = find_row(&index, self.increasing, address, steps) else {
            return Ok(None);
        };
        if row == index.start_count() - 1 {
            return Ok(None);
        }
        let entries = page_of(&index, row)?;
        let Some(entry) = find_row(&entries, self.increasing, address, steps) else {
            return Ok(None);
        };
        let function = function_of(&index, row, &entries, entry)?;
        Ok(Some(function))
    }
}

// A lookup whose steps nobody asks for.
#[derive(Drop)]
struct Lookup<'a> {
    unwind_info: UnwindInfo<'a>,
    address: u32,
}

impl Counted for Lookup<'_> {
    ghost use Rattle.std.specs.Prelude.{◌≡◌, IfOk, IfSome};
    ghost use Rattle.framehop_compact_tables.specs.Functions.{function_for, ContainsAddress};

    type Answer = Result<Option<Function>, CompactFormatError>;

    ghost says = { λ lookup found n. (found ≡ function_for lookup.unwind_info.bytes.now lookup.address)
        × IfOk found (λ found. IfSome found (λ function. ContainsAddress function lookup.address)) };

    fn run<L: Ledger>(self, steps: &mut Steps<L>) -> Result<Option<Function>, CompactFormatError> {
        self.unwind_info.lookup_counted(self.address, steps)
    }
}
