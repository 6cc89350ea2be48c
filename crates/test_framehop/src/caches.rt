//! Caches of any size.
use crate::modules::{Data, X86_64, module_with, shared_section};
use crate::steps::{BY_WORD, FIRST, try_step, unwinder_of};
use framehop::aarch64::CacheAarch64;
use framehop::x86_64::{CacheX86_64, SlotCount, UnwindRegsX86_64};
use framehop::{
    AllocationPolicy, Cache, MayAllocateDuringUnwind, ModuleUnwinding, MustNotAllocateDuringUnwind,
};
use std::alloc::{AllocError, Global};
use std::process::Abort;
use test_readers::WORKED;

/// Wants the caller of two equal steps.
fn step_twice<A: ModuleUnwinding<UnwindRegs = UnwindRegsX86_64, UnwindData = Data>>(
    rt: &impl Abort,
    alloc: Global,
    cache: &mut Cache<A::UnwindRule, A::UnwindContext>,
) {
    let section = shared_section(alloc, &WORKED).expect(rt, "memory");
    let module = module_with(alloc, section).expect(rt, "memory");
    let unwinder = unwinder_of::<A>(rt, alloc, module);
    for _ in 0..2 {
        assert!(rt; try_step(&unwinder, cache, FIRST) == (Ok(Some(0x100300)), BY_WORD));
    }
}

/// A cache has the slots that it is made with, and lends its rules to steps.
#[test]
fn caches_have_the_slots_that_they_are_made_with(rt: HostRuntime) {
    for count in [2, 16, 509, 16384] {
        let slots = SlotCount::new(count).expect(&rt, "slots");
        let mut cache = CacheX86_64::with_slots(rt.alloc(), slots).expect(&rt, "memory");
        step_twice::<X86_64<MayAllocateDuringUnwind>>(&rt, rt.alloc(), cache.rules());
        let kept = cache.occupancy();
        assert!(rt; (kept.slot_count, kept.rule_count, cache.stats().hits()) == (count, 1, 1));
    }
}

/// Wants so many slots of a cache, and no count.
fn check_new<P: AllocationPolicy>(
    rt: &impl Abort,
    made: Result<CacheAarch64<P>, AllocError>,
    slots: usize,
) {
    let cache = made.expect(rt, "memory");
    assert!(rt; cache.occupancy().slot_count == slots && cache.stats().total() == 0);
}

/// On aarch64 under either policy.
#[test]
fn new_caches_have_counted_nothing(rt: HostRuntime) {
    let cache = CacheX86_64::new(rt.alloc()).expect(&rt, "memory");
    assert!(rt; cache.occupancy().slot_count == 509 && cache.stats().total() == 0);
    let slots = SlotCount::new(16).expect(&rt, "slots");
    let of_16 = CacheAarch64::<MustNotAllocateDuringUnwind>::with_slots_in(rt.alloc(), slots);
    check_new(&rt, of_16, 16);
    check_new(&rt, CacheAarch64::new(rt.alloc()), 509);
    let must = CacheAarch64::<MustNotAllocateDuringUnwind>::new_in(rt.alloc());
    check_new(&rt, must, 509);
}
