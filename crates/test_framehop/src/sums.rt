//! Sums with signed numbers.
use framehop_rules::{AddSigned, checked_add_signed, wrapping_add_signed};

/// Whether both sums are these.
fn are_sums(number: u64, signed: i64, wrapped: u64, checked: Option<u64>) -> bool {
    wrapping_add_signed(number, signed) == wrapped
        && checked_add_signed(number, signed) == checked
        && AddSigned::checked_add_signed(number, signed) == checked
}

/// The same of short numbers.
fn are_short_sums(number: u32, signed: i32, wrapped: u32, checked: Option<u32>) -> bool {
    wrapping_add_signed(number, signed) == wrapped && checked_add_signed(number, signed) == checked
}

static SHORT_SUMS: [(u32, i32, u32, Option<u32>); 5] = [
    (5, -5, 0, Some(0)),
    (1, -2, u32::MAX, None),
    (u32::MAX, 1, 0, None),
    (0, i32::MIN, 1 << 31, None),
    (1 << 31, i32::MIN, 0, Some(0)),
];

static SUMS: [(u64, i64, u64, Option<u64>); 8] = [
    (5, -5, 0, Some(0)),
    (1, -2, u64::MAX, None),
    (u64::MAX, 1, 0, None),
    (u64::MAX, -1, u64::MAX - 1, Some(u64::MAX - 1)),
    (0, i64::MIN, 1 << 63, None),
    (1 << 63, i64::MIN, 0, Some(0)),
    (u64::MAX, i64::MAX, (1 << 63) - 2, None),
    (1 << 63, i64::MAX, u64::MAX, Some(u64::MAX)),
];

#[test]
fn adds_signed_numbers(rt: HostRuntime) {
    for &(number, signed, wrapped, checked) in &SUMS {
        assert!(rt;
            are_sums(number, signed, wrapped, checked),
            "{number} {signed}"
        );
    }
    for &(number, signed, wrapped, checked) in &SHORT_SUMS {
        assert!(rt;
            are_short_sums(number, signed, wrapped, checked),
            "{number} {signed}"
        );
    }
}
