//! What steps keep and reuse.

ghost use Rattle.std.specs.Prelude.{◌≡◌, IfOk};
ghost use Rattle.framehop_rules.specs.Occupancy.{occupancy_of};
ghost use Rattle.framehop_rules.specs.Slots.{new_kept};
ghost use Rattle.framehop_unwinder.specs.CacheViews.{rules_of};

use framehop_rules::{CacheOccupancy, CacheStats, RuleCache, SlotCount, UnwindRule};
use std::alloc::{AllocError, Global};

/// The unwind rules that steps kept, and the room that attempts reuse. One cache serves any number
/// of unwinders whose generations come from one counter.
#[derive(Drop)]
pub struct Cache<R: UnwindRule, C> {
    pub(crate) rule_cache: RuleCache<R>,
    pub(crate) unwind_context: C,
}

impl<R: UnwindRule, C: Drop> Cache<R, C> {
    /// A cache without a rule, of 509 slots, with this room. Its slots are one allocation, the only one
    /// that it takes beside the room.
    pub fn new(alloc: Global, unwind_context: C) -> Result<Self, AllocError>
        ensures { IfOk result (λ cache. rules_of cache ≡ new_kept 509) }
    {
        let rule_cache = RuleCache::new(alloc)?;
        Ok(Cache {
            rule_cache,
            unwind_context,
        })
    }

    /// A cache without a rule, of so many slots, with this room. Its slots are one allocation, the only
    /// one that it takes beside the room.
    pub fn with_slots(
        alloc: Global,
        unwind_context: C,
        slots: SlotCount,
    ) -> Result<Self, AllocError>
        ensures { IfOk result (λ cache. rules_of cache ≡ new_kept slots) }
    {
        let rule_cache = RuleCache::with_slots(alloc, slots)?;
        Ok(Cache {
            rule_cache,
            unwind_context,
        })
    }
}

impl<R: UnwindRule, C> Cache<R, C> {
    /// How many look-ups found a rule so far, and why the others didn't.
    pub fn stats(&self) -> CacheStats
        ensures { result ≡ (rules_of self.now).counts }
    {
        self.rule_cache.stats()
    }

    /// How many slots there are, and in how many of them a rule is kept. This goes over all slots.
    pub fn occupancy(&self) -> CacheOccupancy
        ensures { result ≡ occupancy_of (rules_of self.now) }
    {
        self.rule_cache.occupancy()
    }
}
