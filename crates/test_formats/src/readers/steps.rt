//! A count that contracts alone see.

ghost use Rattle.std.specs.Prelude.{◌≡◌};

use dwarf_readers::{Counted, Steps, count_steps};
use std::marker::Brand;
use std::mem::size_of;
use std::sync::ledger::Ledger;

// Counts two steps, and says how many they are.
#[derive(Drop)]
struct TwoSteps;

impl Counted for TwoSteps {
    type Answer = u8;

    ghost says = { λ _ answer n. answer ≡ n };

    fn run<L: Ledger>(self, steps: &mut Steps<L>) -> u8 {
        steps.tick();
        steps.tick();
        2
    }
}

#[test]
fn a_count_takes_no_bytes(rt: HostRuntime) {
    assert!(rt; count_steps(TwoSteps) == 2);
    assert!(rt; (size_of::<Steps<Brand>>()) == 0);
}
