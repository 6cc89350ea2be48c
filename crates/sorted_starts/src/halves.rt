//! The search.

ghost use Rattle.std.specs.Prelude.{◌≡◌, ◌<◌, ◌≤◌, ◌+◌, ◌-◌, ◌/◌, ◌^◌, ℕ, length};
ghost use Rattle.std.specs.List.Sorted.{IsNonDecreasingBy, IsPartitionPoint};
ghost use Rattle.sorted_starts.specs.Halves.{AreLeft};
ghost use Rattle.sorted_starts.specs.Starts.{AreSorted, Parts};

use crate::starts::{HasStart, Starts};
use dwarf_readers::Steps;
use std::sync::ledger::Ledger;

/// What a search found.
#[derive(Clone, Copy, Debug, PartialEq, Eq)]
pub struct Halved {
    /// How many starts are at or below the limit.
    pub at_or_below: usize,
    /// How many starts were read.
    pub reads: u32,
}

// Among how many starts no branch is taken: 4,096 of them are soon in the processor's cache. Among more, a branch lets the
// processor guess, and fetch ahead.
const NEAR: usize = 4096;

// The starts that are left to search, of which the first is `more` after `low`, and how many were read. The two numbers are apart so
// that the next read waits for one alone, which the comparison before it gives.
#[derive(Clone, Copy)]
pub(crate) struct Left {
    low: usize,
    more: usize,
    len: usize,
    reads: u32,
}

impl Left {
    // What is left after one more read, if so many of a half are passed.
    #[inline(always)]
    fn halved(self, half: usize, passed: usize) -> Left
        requires within { half ≤ self.len }
        requires first { self.low + self.more < 2 ^ 64 }
        requires reads { self.reads + 1 < 2 ^ 32 }
        ensures { result ≡ record {
          low = self.low + self.more;
          more = passed;
          len = self.len - half;
          reads = self.reads + 1;
        } }
    {
        Left {
            low: self.low + self.more,
            more: passed,
            len: self.len - half,
            reads: self.reads + 1,
        }
    }
}

// Leaves half of the starts, by a branch.
#[inline(always)]
fn half_by_branch<T: Starts>(starts: &T, left: Left, limit: u32) -> Left
    requires sorted { AreSorted (T.count starts.now) (T.start starts.now) }
    requires left { AreLeft (T.count starts.now) (T.start starts.now) limit left }
    requires several { 1 < left.len }
    ensures left { AreLeft (T.count starts.now) (T.start starts.now) limit result }
    ensures len { result.len ≡ left.len - left.len / 2 }
{
    let half = left.len / 2;
    let passed = if starts.start_at(left.low + left.more + half) <= limit {
        half
    } else {
        0
    };
    left.halved(half, passed)
}

// Leaves half of the starts, by a number.
#[inline(always)]
fn half_by_number<T: Starts>(starts: &T, left: Left, limit: u32) -> Left
    requires sorted { AreSorted (T.count starts.now) (T.start starts.now) }
    requires left { AreLeft (T.count starts.now) (T.start starts.now) limit left }
    requires several { 1 < left.len }
    ensures left { AreLeft (T.count starts.now) (T.start starts.now) limit result }
    ensures len { result.len ≡ left.len - left.len / 2 }
{
    let half = left.len / 2;
    let passed = half * starts.count_at_or_below(left.low + half, left.more, limit);
    left.halved(half, passed)
}

// Leaves so few starts that no branch is taken among them.
#[inline(always)]
fn near<T: Starts>(starts: &T, all: Left, limit: u32) -> Left
    requires sorted { AreSorted (T.count starts.now) (T.start starts.now) }
    requires left { AreLeft (T.count starts.now) (T.start starts.now) limit all }
    ensures { AreLeft (T.count starts.now) (T.start starts.now) limit result }
{
    let mut left = all;
    'far: while left.len > NEAR {
        left = half_by_branch(starts, left, limit);
    }
    left
}

/// How many of sorted starts are at or below a limit. Of n starts it reads at most ceil(log2(n)) + 1, and at least
/// floor(log2(n + 1)).
#[inline(always)]
pub fn halve<T: Starts>(starts: &T, limit: u32) -> Halved
    requires { AreSorted (T.count starts.now) (T.start starts.now) }
    ensures parts { Parts (T.count starts.now) (T.start starts.now) limit result.at_or_below }
    ensures few { (k : ℕ) → T.count starts.now ≤ 2 ^ k → result.reads ≤ k + 1 }
    ensures enough { (k : ℕ) → 2 ^ k ≤ T.count starts.now + 1 → k ≤ result.reads }
    ensures none { T.count starts.now ≡ 0 → result.reads ≡ 0 }
{
    let count = starts.start_count();
    if count == 0 {
        return Halved {
            at_or_below: 0,
            reads: 0,
        };
    }
    let all = Left {
        low: 0,
        more: 0,
        len: count,
        reads: 0,
    };
    let mut left = near(starts, all, limit);
    'halves: while left.len > 1 {
        left = half_by_number(starts, left, limit);
    }
    let passed = starts.count_at_or_below(left.low, left.more, limit);
    Halved {
        at_or_below: left.low + left.more + passed,
        reads: left.reads + 1,
    }
}

// Counts so many steps, for which the program does nothing.
#[inline(always)]
fn count_steps<L: Ledger>(steps: &mut Steps<L>, count: u32)
    ensures { steps.new ≡ steps.old + count }
{
    for step in 0..count {
        let _step = step;
        steps.tick();
    }
}

/// As `halve`: how many starts are at or below a limit. It counts a step for each start that it reads.
#[inline(always)]
pub fn halve_counted<T: Starts, L: Ledger>(starts: &T, limit: u32, steps: &mut Steps<L>) -> usize
    requires { AreSorted (T.count starts.now) (T.start starts.now) }
    ensures parts { Parts (T.count starts.now) (T.start starts.now) limit result }
    ensures few { (k : ℕ) → T.count starts.now ≤ 2 ^ k → steps.new ≤ steps.old + (k + 1) }
    ensures enough { (k : ℕ) → 2 ^ k ≤ T.count starts.now + 1 → steps.old + k ≤ steps.new }
    ensures none { T.count starts.now ≡ 0 → steps.new ≡ steps.old }
{
    let halved = halve(starts, limit);
    count_steps(steps, halved.reads);
    halved.at_or_below
}

/// As `halve`, of the starts of a slice's items.
#[inline(always)]
pub fn halve_items<T: HasStart>(items: &[T], limit: u32) -> Halved
    requires { IsNonDecreasingBy T.start items.now }
    ensures bound { result.at_or_below ≤ length items.now }
    ensures partition { IsPartitionPoint (λ item. T.start item ≤ limit)
        (λ item. limit < T.start item) items.now result.at_or_below }
    ensures few { (k : ℕ) → length items.now ≤ 2 ^ k → result.reads ≤ k + 1 }
    ensures enough { (k : ℕ) → 2 ^ k ≤ length items.now + 1 → k ≤ result.reads }
    ensures none { length items.now ≡ 0 → result.reads ≡ 0 }
{
    halve(&items, limit)
}
