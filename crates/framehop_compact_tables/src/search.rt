//! Searches in rows by their starts.

ghost use Rattle.std.specs.Prelude.{◌≡◌, ◌↔◌, ◌<◌, ◌+◌, IsTrue, IfSome};
ghost use Rattle.framehop_compact_tables.specs.Rows.{last_row, IsLastRow, Increases, AreFewMore};

use dwarf_readers::Steps;
use sorted_starts::{Starts, halve_counted};
use std::sync::ledger::Ledger;

// Whether the starts increase strictly.
pub(crate) fn rows_increase<T: Starts>(table: &T) -> bool
    ensures { IsTrue result ↔ Increases (T.count table.now) (T.start table.now) }
{
    for next in 1..table.start_count() {
        if table.start_at(next - 1) >= table.start_at(next) {
            return false;
        }
    }
    true
}

// The start of a row, counted.
fn counted_start<T: Starts, L: Ledger>(table: &T, row: usize, steps: &mut Steps<L>) -> u32
    requires { row < T.count table.now }
    ensures start { result ≡ T.start table.now row }
    ensures counted { steps.new ≡ steps.old + 1 }
{
    steps.tick();
    table.start_at(row)
}

// The last row that starts at or below an address, by a pass from the end.
fn last_row<T: Starts, L: Ledger>(table: &T, address: u32, steps: &mut Steps<L>) -> Option<usize>
    ensures { result ≡ last_row (T.count table.now) (T.start table.now) address }
{
    let mut left = table.start_count();
    'rows: while left > 0 {
        left -= 1;
        if counted_start(table, left, steps) <= address {
            return Some(left);
        }
    }
    None
}

// The same by halving, if the starts increase.
#[inline(always)]
fn last_row_increasing<T: Starts, L: Ledger>(
    table: &T,
    address: u32,
    steps: &mut Steps<L>,
) -> Option<usize>
    requires { Increases (T.count table.now) (T.start table.now) }
    ensures row { result ≡ last_row (T.count table.now) (T.start table.now) address }
    ensures few { AreFewMore (T.count table.now) steps.old steps.new }
{
    match halve_counted(table, address, steps) {
        0 => None,
        reached => Some(reached - 1),
    }
}

/// The last row that starts at or below an address. It counts a step for each start that it reads; where the starts
/// increase, they are at most ceil(log2(n)) + 1 of n rows, and none of none.
pub(crate) fn find_row<T: Starts, L: Ledger>(
    table: &T,
    increasing: bool,
    address: u32,
    steps: &mut Steps<L>,
) -> Option<usize>
    requires { IsTrue increasing → Increases (T.count table.now) (T.start table.now) }
    ensures row { result ≡ last_row (T.count table.now) (T.start table.now) address }
    ensures last { IfSome result (λ row. IsLastRow (T.count table.now) (T.start table.now) address row) }
    ensures few { IsTrue increasing → AreFewMore (T.count table.now) steps.old steps.new }
{
    if increasing {
        last_row_increasing(table, address, steps)
    } else {
        last_row(table, address, steps)
    }
}
