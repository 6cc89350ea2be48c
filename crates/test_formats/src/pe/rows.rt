//! Lookups in `.pdata`.

use dwarf_readers::{Counted, Steps, count_steps};
use framehop_pe::{pdata_is_increasing, pdata_lookup, pdata_lookup_increasing};
use std::sync::ledger::Ledger;

/// Three functions: 0x10 to 0x20, 0x20 to 0x28 and 0x30 to 0x40; and a rest that is no row.
const INCREASING: [u8; 41] = [
    0x10, 0, 0, 0, 0x20, 0, 0, 0, 0, 0, 0, 0, 0x20, 0, 0, 0, 0x28, 0, 0, 0, 0, 0, 0, 0, 0x30, 0, 0,
    0, 0x40, 0, 0, 0, 0, 0, 0, 0, 0x50, 0, 0, 0, 0x60,
];

/// Two functions that overlap: 0x10 to 0x21 and 0x20 to 0x28.
const OVERLAPPING: [u8; 24] = [
    0x10, 0, 0, 0, 0x21, 0, 0, 0, 0, 0, 0, 0, 0x20, 0, 0, 0, 0x28, 0, 0, 0, 0, 0, 0, 0,
];

/// A lookup by halving in the rows that increase, and how often it read a begin.
#[derive(Drop)]
struct Lookup {
    address: u32,
}

impl Counted for Lookup {
    type Answer = Option<usize>;

    ghost says = { λ lookup answer n. Unit {0} };

    fn run<L: Ledger>(self, steps: &mut Steps<L>) -> Option<usize> {
        if !pdata_is_increasing(&INCREASING) {
            return None;
        }
        pdata_lookup_increasing(&INCREASING, self.address, steps)
    }
}

/// Addresses, and the rows of their functions.
static ROWS: [(u32, Option<usize>); 9] = [
    (0xf, None),
    (0x10, Some(0)),
    (0x1f, Some(0)),
    (0x20, Some(1)),
    (0x28, None),
    (0x30, Some(2)),
    (0x3f, Some(2)),
    (0x40, None),
    (0x55, None),
];

/// Of functions that overlap the first row counts.
#[test]
fn halving_finds_what_a_pass_finds(rt: HostRuntime) {
    assert!(rt; pdata_is_increasing(&INCREASING) && pdata_is_increasing(&[]));
    for &(address, row) in &ROWS {
        assert!(rt;
            pdata_lookup(&INCREASING, address) == row && count_steps(Lookup { address }) == row,
            "{address:x}"
        );
    }
    assert!(rt; !pdata_is_increasing(&OVERLAPPING) && pdata_lookup(&[], 0).is_none());
    assert!(rt; pdata_lookup(&OVERLAPPING, 0x20) == Some(0));
    assert!(rt; pdata_lookup(&OVERLAPPING, 0x21) == Some(1));
}
