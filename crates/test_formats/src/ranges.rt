ghost use Rattle.framehop_ranges.specs.Ranges.{Sound};

use framehop_ranges::{RangeTable, Ranges, SameValue};
use std::alloc::{AllocError, Global};

// A value of a range.
#[derive(Clone, Copy)]
struct Letter(u8);

impl SameValue for Letter {
    fn is_same(self, other: Self) -> bool {
        self.0 == other.0
    }
}

// A table whose ranges from 8 on end at these addresses and have these letters.
fn table_of(alloc: Global, ends: &[(u32, u8)]) -> Result<RangeTable<Letter>, AllocError> {
    let mut ranges = Ranges::new(alloc, 8, Letter(b'-'));
    'ends: for (end, letter) in ends {
        ranges.extend(u64::from(*end), Letter(*letter))?;
    }
    RangeTable::try_new(alloc, ranges)
}

// Ends of ranges: two are at or below the one before, and the third letter that counts is again the first.
static ENDS: [(u32, u8); 6] = [
    (16, b'a'),
    (16, b'b'),
    (12, b'c'),
    (32, b'a'),
    (48, b'b'),
    (0x1000, b'-'),
];

// Addresses and their letters.
static LETTERS: [(u32, u8); 10] = [
    (0, b'-'),
    (7, b'-'),
    (8, b'a'),
    (16, b'a'),
    (31, b'a'),
    (32, b'b'),
    (47, b'b'),
    (48, b'-'),
    (0x1000, b'-'),
    (0xffff_ffff, b'-'),
];

#[test]
fn addresses_have_the_letters_of_their_ranges(rt: HostRuntime) {
    let table = table_of(rt.alloc(), &ENDS).expect(&rt, "memory");
    for (address, letter) in &LETTERS {
        assert!(rt;
            table.look_up(*address).value.0 == *letter,
            "at {address:#x}"
        );
    }
    assert!(rt; table.look_up(0x1000).starts_read == 0);
    // a table without ranges has one letter
    let empty = table_of(rt.alloc(), &[]).expect(&rt, "memory");
    for address in [0, 8, 0xffff_ffff] {
        let found = empty.look_up(address);
        assert!(rt; found.value.0 == b'-' && found.starts_read == 0);
    }
}

#[test]
fn few_starts_are_read_of_many(rt: HostRuntime) {
    let mut ends = Vec::new(rt.alloc());
    for i in 0..1_000u32 {
        ends.push((8 + 16 * (i + 1), (i % 7) as u8))
            .expect(&rt, "memory");
    }
    let table = table_of(rt.alloc(), &ends).expect(&rt, "memory");
    for i in 0..1_000u32 {
        let (first, last) = (8 + 16 * i, 23 + 16 * i);
        for address in [first, last] {
            let found = table.look_up(address);
            assert!(rt;
                found.value.0 == (i % 7) as u8 && found.starts_read <= 5,
                "at {address:#x}"
            );
        }
    }
}
