//! The rows of `.pdata`, and lookups of the function of an address.

ghost use Rattle.std.specs.Prelude.{◌≡◌, ◌↔◌, ◌<◌, ◌≤◌, ◌+◌, ◌*◌, ◌^◌, ℕ, IsTrue, IfSome, nat_le, if◌then◌else◌, Some, None};
ghost use Rattle.framehop_pe.specs.Rows.{pdata_rows, begin_at, end_at, unwind_info_at, function_at, function_of, first_row, row_contains, IsIncreasing};

use dwarf_readers::{Counted, Steps, count_steps};
use framehop_pe_codes::{PeSections, u32_at};
use sorted_starts::{Starts, halve_counted};
use std::sync::ledger::Ledger;

/// The row of a function (Microsoft, "x64 exception handling", struct RUNTIME_FUNCTION). Addresses are relative to the
/// file's base.
#[derive(Clone, Copy, Debug, PartialEq, Eq)]
pub struct RuntimeFunction {
    /// Where the function begins.
    pub begin_address: u32,
    /// Where it ends.
    pub end_address: u32,
    /// Where its first unwind info is.
    pub unwind_info_address: u32,
}

// How many rows there are.
fn pdata_rows(bytes: &[u8]) -> usize
    ensures { result ≡ pdata_rows bytes.now }
{
    bytes.len() / 12
}

// Where the function of a row begins.
#[tactic(auto, unfolding(crate::specs::Rows::begin_at))]
fn begin_at(bytes: &[u8], row: usize) -> u32
    requires { row < pdata_rows bytes.now }
    ensures { result ≡ begin_at bytes.now row }
{
    u32_at(bytes, 12 * row)
}

// Where it ends.
#[tactic(auto, unfolding(crate::specs::Rows::end_at))]
fn end_at(bytes: &[u8], row: usize) -> u32
    requires { row < pdata_rows bytes.now }
    ensures { result ≡ end_at bytes.now row }
{
    u32_at(bytes, 12 * row + 4)
}

// Where its unwind info is.
#[tactic(auto, unfolding(crate::specs::Rows::unwind_info_at))]
fn unwind_info_at(bytes: &[u8], row: usize) -> u32
    requires { row < pdata_rows bytes.now }
    ensures { result ≡ unwind_info_at bytes.now row }
{
    u32_at(bytes, 12 * row + 8)
}

// Whether a row contains an address.
fn contains(bytes: &[u8], row: usize, address: u32) -> bool
    requires { row < pdata_rows bytes.now }
    ensures { result ≡ row_contains bytes.now address row }
{
    begin_at(bytes, row) <= address && address < end_at(bytes, row)
}

/// Whether the rows of `.pdata` increase: their begins strictly, and no row's end is above the next row's begin. Linkers
/// write them so.
pub fn pdata_is_increasing(bytes: &[u8]) -> bool
    ensures { IsTrue result ↔ IsIncreasing bytes.now }
{
    for next in 1..pdata_rows(bytes) {
        let begin = begin_at(bytes, next);
        if begin_at(bytes, next - 1) >= begin || end_at(bytes, next - 1) > begin {
            return false;
        }
    }
    true
}

/// The number of the first row that contains an address (RVA), by a pass over the rows.
pub fn pdata_lookup(bytes: &[u8], address: u32) -> Option<usize>
    ensures { result ≡ first_row bytes.now address }
{
    for row in 0..pdata_rows(bytes) {
        if contains(bytes, row, address) {
            return Some(row);
        }
    }
    None
}

// Where the functions of the rows begin.
#[derive(Clone, Copy)]
struct Begins<'a> {
    bytes: &'a [u8],
}

impl Starts for Begins<'_> {
    ghost count = { λ begins. pdata_rows begins.bytes.now };

    ghost start = { λ begins. begin_at begins.bytes.now };

    #[inline(always)]
    fn start_count(&self) -> usize {
        pdata_rows(self.bytes)
    }

    #[inline(always)]
    fn start_at(&self, place: usize) -> u32 {
        begin_at(self.bytes, place)
    }
}

// A row that begins at or below an address, if it contains the address.
fn candidate(bytes: &[u8], row: usize, address: u32) -> Option<usize>
    requires within { row < pdata_rows bytes.now }
    requires begin { begin_at bytes.now row ≤ address }
    ensures { result ≡ (if row_contains bytes.now address row then Some row else None) }
{
    if address < end_at(bytes, row) {
        Some(row)
    } else {
        None
    }
}

/// As `pdata_lookup`, by halving, if the rows increase (`pdata_is_increasing`). It counts a step for each begin that it
/// reads, which are at most ceil(log2(n)) + 1 of n rows, and at least floor(log2(n + 1)).
pub fn pdata_lookup_increasing<L: Ledger>(
    bytes: &[u8],
    address: u32,
    steps: &mut Steps<L>,
) -> Option<usize>
    requires { IsIncreasing bytes.now }
    ensures found { result ≡ first_row bytes.now address }
    ensures few { (k : ℕ) → pdata_rows bytes.now ≤ 2 ^ k → steps.new ≤ steps.old + (k + 1) }
    ensures enough { (k : ℕ) → 2 ^ k ≤ pdata_rows bytes.now + 1 → steps.old + k ≤ steps.new }
{
    match halve_counted(&Begins { bytes }, address, steps) {
        0 => None,
        begun => candidate(bytes, begun - 1, address),
    }
}

// A lookup whose steps nobody asks for.
#[derive(Drop)]
struct IncreasingLookup<'a> {
    bytes: &'a [u8],
    address: u32,
    ghost increasing: { IsIncreasing bytes.now },
}

impl Counted for IncreasingLookup<'_> {
    ghost use Rattle.std.specs.Prelude.{◌≡◌};
    ghost use Rattle.framehop_pe.specs.Rows.{first_row};

    type Answer = Option<usize>;

    ghost says = { λ lookup row n. row ≡ first_row lookup.bytes.now lookup.address };

    fn run<L: Ledger>(self, steps: &mut Steps<L>) -> Option<usize> {
        pdata_lookup_increasing(self.bytes, self.address, steps)
    }
}

/// As `pdata_lookup`: by halving if the rows are known to increase.
#[inline(always)]
pub fn pdata_row(bytes: &[u8], is_increasing: bool, address: u32) -> Option<usize>
    requires { IsTrue is_increasing → IsIncreasing bytes.now }
    ensures { result ≡ first_row bytes.now address }
{
    if is_increasing {
        count_steps(IncreasingLookup { bytes, address })
    } else {
        pdata_lookup(bytes, address)
    }
}

// The function of an address.
#[inline(always)]
pub(crate) fn function_of(sections: &PeSections<'_>, address: u32) -> Option<RuntimeFunction>
    requires { IsTrue sections.now.increasing → IsIncreasing sections.now.pdata.now }
    ensures function { result ≡ function_of sections.now.pdata.now address }
    ensures begin { IfSome result (λ function. function.begin_address ≤ address) }
    ensures end { IfSome result (λ function. address < function.end_address) }
{
    let row = pdata_row(sections.pdata, sections.increasing, address)?;
    Some(RuntimeFunction {
        begin_address: begin_at(sections.pdata, row),
        end_address: end_at(sections.pdata, row),
        unwind_info_address: unwind_info_at(sections.pdata, row),
    })
}
