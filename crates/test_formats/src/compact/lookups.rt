//! Lookups in tables with pages of both kinds.

use dwarf_readers::{Counted, Steps, count_steps};
use framehop_compact::x86_64::ArchX86_64;
use framehop_compact::{
    CompactFormatError, CompactUnwindInfoUnwinder, CompactUnwindInfoUnwinderError, Function,
};
use framehop_compact_tables::{UnwindInfo, is_increasing};
use std::sync::ledger::Ledger;

/// Three pages: compressed from 0x1000 on, with entries at 0x1000, 0x1010 and 0x1020, whose encodings are the common one, the
/// page's, and none; regular from 0x2000 on, with entries at 0x2010 and 0x2020; and empty from 0x3000 on. The last function ends
/// at 0x4000.
const PAGES: [u8; 144] = [
    1, 0, 0, 0, 0x1c, 0, 0, 0, 1, 0, 0, 0, 0x20, 0, 0, 0, 0, 0, 0, 0, 0x20, 0, 0, 0, 4, 0, 0, 0, //
    0, 0, 0, 1, //
    0, 0x10, 0, 0, 0x50, 0, 0, 0, 0, 0, 0, 0, //
    0, 0x20, 0, 0, 0x6c, 0, 0, 0, 0, 0, 0, 0, //
    0, 0x30, 0, 0, 0x84, 0, 0, 0, 0, 0, 0, 0, //
    0, 0x40, 0, 0, 0, 0, 0, 0, 0, 0, 0, 0, //
    3, 0, 0, 0, 12, 0, 3, 0, 24, 0, 1, 0, //
    0, 0, 0, 0, 0x10, 0, 0, 1, 0x20, 0, 0, 2, //
    0, 0, 2, 2, //
    2, 0, 0, 0, 8, 0, 2, 0, //
    0x10, 0x20, 0, 0, 0, 0, 3, 2, 0x20, 0x20, 0, 0, 0, 0, 0, 3, //
    3, 0, 0, 0, 12, 0, 0, 0, 12, 0, 0, 0,
];

/// Addresses, and the start, the end and the encoding of the function that contains each, if there is one. That of two addresses has an
/// encoding that no list has.
static FUNCTIONS: [(u32, Option<(u32, u32, u32)>); 13] = [
    (0, None),
    (0xfff, None),
    (0x1000, Some((0x1000, 0x1010, 0x0100_0000))),
    (0x100f, Some((0x1000, 0x1010, 0x0100_0000))),
    (0x1010, Some((0x1010, 0x1020, 0x0202_0000))),
    (0x1020, None),
    (0x1fff, None),
    (0x2000, None),
    (0x2010, Some((0x2010, 0x2020, 0x0203_0000))),
    (0x2fff, Some((0x2020, 0x3000, 0x0300_0000))),
    (0x3000, None),
    (0x4000, None),
    (0xffff_ffff, None),
];

/// A lookup by halving, which counts its steps.
#[derive(Drop)]
struct Lookup {
    address: u32,
}

impl Counted for Lookup {
    type Answer = Option<Result<Function, CompactUnwindInfoUnwinderError>>;

    ghost says = { λ lookup answer n. Unit {0} };

    fn run<L: Ledger>(
        self,
        steps: &mut Steps<L>,
    ) -> Option<Result<Function, CompactUnwindInfoUnwinderError>> {
        if !is_increasing(&PAGES) {
            return None;
        }
        let unwinder = CompactUnwindInfoUnwinder::<ArchX86_64>::new_increasing(
            &PAGES,
            None,
            (0, 0),
            (0, 0),
        );
        Some(unwinder.function_for_address_counted(self.address, steps))
    }
}

/// Whether the encoding of an address isn't known.
fn is_refused(address: u32) -> bool {
    0x1020 <= address && address < 0x2000
}

/// The function at an address by a pass.
fn by_passing(address: u32) -> Result<Function, CompactUnwindInfoUnwinderError> {
    let unwinder = CompactUnwindInfoUnwinder::<ArchX86_64>::new(&PAGES, None, (0, 0), (0, 0));
    unwinder.function_for_address(address)
}

#[test]
fn functions_of_addresses(rt: HostRuntime) {
    let refusal = CompactUnwindInfoUnwinderError::BadFormat(CompactFormatError::BadEncodingIndex);
    for (address, expected) in FUNCTIONS {
        let found = match expected {
            Some((start_address, end_address, opcode)) => Ok(Function {
                start_address,
                end_address,
                opcode,
            }),
            None if is_refused(address) => Err(refusal),
            None => Err(CompactUnwindInfoUnwinderError::AddressOutsideRange(address)),
        };
        assert!(rt;
            by_passing(address) == found && count_steps(Lookup { address }) == Some(found),
            "{address:x}"
        );
    }
}

#[test]
fn equal_starts_do_not_increase(rt: HostRuntime) {
    assert!(rt; is_increasing(&PAGES));
    let mut index = PAGES;
    index[33] = 0x20;
    assert!(rt; !is_increasing(&index));
    let mut page = PAGES;
    page[124] = 0x10;
    assert!(rt; !is_increasing(&page));
    let last = Function {
        start_address: 0x2010,
        end_address: 0x3000,
        opcode: 0x0300_0000,
    };
    assert!(rt; UnwindInfo::new(&page).lookup(0x2010) == Ok(Some(last)));
}

#[test]
fn an_index_out_of_order_is_passed_over(rt: HostRuntime) {
    let mut index = PAGES;
    index[33] = 0x80;
    assert!(rt; !is_increasing(&index));
    let unsorted = UnwindInfo::new(&index);
    let sorted = UnwindInfo::new(&PAGES);
    assert!(rt; unsorted.lookup(0x1000) == Ok(None));
    for address in [0x2010, 0x2fff, 0x3000, 0x4000] {
        assert!(rt;
            unsorted.lookup(address) == sorted.lookup(address),
            "{address:x}"
        );
    }
}
