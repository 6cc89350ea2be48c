//! The cache of rules, and its counts.
ghost use Rattle.std.specs.Prelude.{IfSome};
ghost use Rattle.framehop_rules.specs.RuleMeaning.{IsValid};

use framehop_rules::aarch64::UnwindRuleAarch64;
use framehop_rules::x86_64::UnwindRuleX86_64;
use framehop_rules::{CacheResult, CacheStats, RuleCache, SlotCount, UnwindRule};
use std::alloc::{AllocError, Global};
use std::process::Abort;

/// An address, whether a frame there is a first one, and the generation of the modules.
type Key = (u64, bool, u64);

/// A look-up in a cache: its key, the number of the rule that is found, that of the rule that is kept after a miss, and the counts then.
#[derive(Clone, Copy)]
struct LookUp {
    key: Key,
    found: Option<u16>,
    kept: Option<u16>,
    counts: CacheStats,
}

// Hits, empty slots, wrong modules and wrong addresses.
macro_rules! counts {
    ($hits:expr, $empty:expr, $modules:expr, $addresses:expr) => {
        CacheStats {
            hit_count: $hits,
            miss_empty_slot_count: $empty,
            miss_wrong_modules_count: $modules,
            miss_wrong_address_count: $addresses,
        }
    };
}

// A look-up that finds a rule.
macro_rules! hit {
    ($key:expr, $found:expr, $counts:expr) => {
        LookUp {
            key: $key,
            found: Some($found),
            kept: None,
            counts: $counts,
        }
    };
}

// A look-up that finds none, after which one may be kept.
macro_rules! miss {
    ($key:expr, $kept:expr, $counts:expr) => {
        LookUp {
            key: $key,
            found: None,
            kept: $kept,
            counts: $counts,
        }
    };
}

static LOOK_UPS: [LookUp; 23] = [
    miss!((0, true, 0), Some(1), counts!(0, 1, 0, 0)),
    hit!((0, true, 0), 1, counts!(1, 1, 0, 0)),
    miss!((509, true, 0), None, counts!(1, 1, 0, 1)),
    hit!((0, true, 0), 1, counts!(2, 1, 0, 1)),
    miss!((0, false, 0), None, counts!(2, 1, 0, 2)),
    miss!((0, true, 1), None, counts!(2, 1, 1, 2)),
    miss!((509, false, 1), None, counts!(2, 1, 2, 2)),
    miss!((509, true, 0), Some(2), counts!(2, 1, 2, 3)),
    miss!((0, true, 0), None, counts!(2, 1, 2, 4)),
    hit!((509, true, 0), 2, counts!(3, 1, 2, 4)),
    miss!((509, false, 0), Some(3), counts!(3, 1, 2, 5)),
    miss!((509, true, 0), None, counts!(3, 1, 2, 6)),
    hit!((509, false, 0), 3, counts!(4, 1, 2, 6)),
    miss!((509, false, u64::MAX), Some(4), counts!(4, 1, 3, 6)),
    miss!((509, false, 0), None, counts!(4, 1, 4, 6)),
    hit!((509, false, u64::MAX), 4, counts!(5, 1, 4, 6)),
    miss!((508, true, 0), Some(5), counts!(5, 2, 4, 6)),
    miss!((1017, true, 0), None, counts!(5, 2, 4, 7)),
    hit!((508, true, 0), 5, counts!(6, 2, 4, 7)),
    miss!((507, true, 0), None, counts!(6, 3, 4, 7)),
    miss!((u64::MAX, true, 0), Some(6), counts!(6, 4, 4, 7)),
    hit!((u64::MAX, true, 0), 6, counts!(7, 4, 4, 7)),
    hit!((509, false, u64::MAX), 4, counts!(8, 4, 4, 7)),
];

/// One slot alone.
static AGAIN: [LookUp; 2] = [
    miss!((0x1000, false, 3), Some(5), counts!(0, 1, 0, 0)),
    hit!((0x1000, false, 3), 5, counts!(1, 1, 0, 0)),
];

/// Four slots, which are two pairs. The addresses 0, 8 and 16 have the first.
static PAIRS: [LookUp; 15] = [
    miss!((0, true, 0), Some(1), counts!(0, 1, 0, 0)),
    hit!((0, true, 0), 1, counts!(1, 1, 0, 0)),
    miss!((8, true, 0), Some(2), counts!(1, 2, 0, 0)),
    hit!((0, true, 0), 1, counts!(2, 2, 0, 0)),
    hit!((8, true, 0), 2, counts!(3, 2, 0, 0)),
    miss!((16, true, 0), Some(3), counts!(3, 2, 0, 1)),
    miss!((0, true, 0), None, counts!(3, 2, 0, 2)),
    hit!((8, true, 0), 2, counts!(4, 2, 0, 2)),
    hit!((16, true, 0), 3, counts!(5, 2, 0, 2)),
    miss!((8, true, 1), Some(4), counts!(5, 2, 1, 2)),
    hit!((16, true, 0), 3, counts!(6, 2, 1, 2)),
    miss!((8, true, 0), None, counts!(6, 2, 1, 3)),
    miss!((4, false, 0), Some(5), counts!(6, 3, 1, 3)),
    miss!((5, false, 0), None, counts!(6, 4, 1, 3)),
    hit!((4, false, 0), 5, counts!(7, 4, 1, 3)),
];

/// Numbers of slots, and whether a cache can have so many.
static SLOT_COUNTS: [(usize, bool); 14] = [
    (0, false),
    (1, false),
    (2, true),
    (3, false),
    (4, true),
    (508, false),
    (509, true),
    (510, false),
    (512, true),
    (16384, true),
    (16385, false),
    (0x100000, true),
    (0x200000, false),
    (usize::MAX, false),
];

/// A rule that a number tells from others.
fn rule(number: u16) -> UnwindRuleX86_64
    ensures { IsValid result }
{
    UnwindRuleX86_64::OffsetSp {
        sp_offset_by_8: number,
    }
}

/// A cache of so many slots, or of as many as the original's. It makes one allocation, and no call makes more. If that fails, as
/// `scripts/refuse-allocations` has it fail, there is no cache, and the next try makes one.
fn cache_of<R: UnwindRule>(
    alloc: Global,
    slots: Option<SlotCount>,
) -> Result<RuleCache<R>, AllocError> {
    match slots {
        Some(slots) => match RuleCache::with_slots(alloc, slots) {
            Ok(cache) => Ok(cache),
            Err(_) => RuleCache::with_slots(alloc, slots),
        },
        None => match RuleCache::new(alloc) {
            Ok(cache) => Ok(cache),
            Err(_) => RuleCache::new(alloc),
        },
    }
}

/// The rule that a look-up finds. If it finds none, the other is kept.
fn find_or_keep<R: UnwindRule>(cache: &mut RuleCache<R>, key: Key, kept: Option<R>) -> Option<R>
    requires { IfSome kept R.is_valid }
{
    let (address, is_first, generation) = key;
    match cache.lookup(address, is_first, generation) {
        CacheResult::Hit(hit) => Some(hit),
        CacheResult::Miss(handle) => {
            if let Some(rule) = kept {
                cache.insert(handle, rule);
            }
            None
        }
    }
}

/// Wants what a look-up finds in a cache and counts.
fn check(rt: &impl Abort, cache: &mut RuleCache<UnwindRuleX86_64>, look_up: LookUp) {
    let LookUp {
        key,
        found,
        kept,
        counts,
    } = look_up;
    let wanted = match found {
        Some(number) => Some(rule(number)),
        None => None,
    };
    let given = match kept {
        Some(number) => find_or_keep(cache, key, Some(rule(number))),
        None => find_or_keep(cache, key, None),
    };
    let stats = cache.stats();
    assert!(rt;
        given == wanted && stats == counts,
        "{key:?}: {given:?}, {stats:?}"
    );
}

/// Of a pair the older rule falls out.
#[test]
fn finds_what_was_kept_last(rt: HostRuntime) {
    for (slots, look_ups) in [
        (None, LOOK_UPS.as_slice()),
        (None, AGAIN.as_slice()),
        (SlotCount::new(4), PAIRS.as_slice()),
    ] {
        let mut cache = cache_of(rt.alloc(), slots).expect(&rt, "memory");
        assert!(rt; cache.stats() == counts!(0, 0, 0, 0));
        for look_up in look_ups {
            check(&rt, &mut cache, *look_up);
        }
    }
}

#[test]
fn counts_of_slots_are_checked(rt: HostRuntime) {
    for (slots, is_count) in SLOT_COUNTS {
        let given = match SlotCount::new(slots) {
            Some(count) => Some(count.get()),
            None => None,
        };
        assert!(rt; given == is_count.then_some(slots), "{slots}: {given:?}");
    }
}

/// Each slot keeps its own rule: of 509, and of pairs two rules each.
#[test]
fn keeps_a_rule_in_each_slot(rt: HostRuntime) {
    for (count, first, distance) in [(509u16, 0x100000u64, 1u64), (16384, 0x100003, 4)] {
        let slots = SlotCount::new(usize::from(count));
        let mut cache = cache_of(rt.alloc(), slots).expect(&rt, "memory");
        for is_kept in [false, true] {
            for number in 0..count {
                let rule = UnwindRuleAarch64::OffsetSp {
                    sp_offset_by_16: number,
                };
                let place = distance.wrapping_mul(u64::from(number));
                let key = (first.wrapping_add(place), false, 7);
                let found = find_or_keep(&mut cache, key, Some(rule));
                assert!(rt; found == is_kept.then_some(rule), "{number}");
            }
        }
        let all = u64::from(count);
        assert!(rt; cache.stats() == counts!(all, all, 0, 0));
    }
}

/// Counts, with all misses and all look-ups.
static SUMS: [(CacheStats, u64, u64); 6] = [
    (counts!(1, 2, 3, 4), 9, 10),
    (counts!(0, u64::MAX, 0, 0), u64::MAX, u64::MAX),
    (counts!(u64::MAX, 1, 0, 0), 1, u64::MAX),
    (counts!(1, u64::MAX, u64::MAX, u64::MAX), u64::MAX, u64::MAX),
    (counts!(1, u64::MAX - 2, 1, 1), u64::MAX, u64::MAX),
    (counts!(1, u64::MAX - 3, 1, 1), u64::MAX - 1, u64::MAX),
];

#[test]
fn counts_up_to_the_greatest_number(rt: HostRuntime) {
    let none = CacheStats::new();
    assert!(rt; none == CacheStats::default());
    for &(stats, misses, total) in &SUMS {
        let given = (stats.hits(), stats.misses(), stats.total());
        assert!(rt; given == (stats.hit_count, misses, total));
    }
    let text = format!(in rt.alloc(); "{none:?}").expect(&rt, "memory");
    assert!(rt;
        text.as_str()
            == "CacheStats { hit_count: 0, miss_empty_slot_count: 0, miss_wrong_modules_count: 0, miss_wrong_address_count: 0 }"
    );
}
