//! Caches, for C.

ghost use Rattle.std.specs.Prelude.{◌≡◌, None};
ghost use Rattle.framehop_rules.specs.Slots.{IsSlotCount};
ghost use Rattle.framehop_calls.specs.Calls.{AddsCache, RemovesCache, TellsCounts};
ghost use Rattle.framehop_calls.specs.Statuses.{bad_argument, no_value};
ghost use Rattle.framehop_c.specs.Caches.{counts_of, stats_of};
ghost use Rattle.framehop_c.specs.Sessions.{DoesIn};

use crate::handle::SessionHandle;
use crate::session::{LentData, SessionCall};
use framehop::{CacheStats, ModuleUnwinding};
use framehop_calls::CountedSession;
use framehop_calls::status::BAD_ARGUMENT;
use framehop_rules::SlotCount;
use std::alloc::Global;

/// How many look-ups in a cache found a rule, and why the others didn't.
#[repr(C)]
#[derive(Clone, Copy)]
pub struct Counts {
    pub hit_count: u64,
    pub miss_empty_slot_count: u64,
    pub miss_wrong_modules_count: u64,
    pub miss_wrong_address_count: u64,
}

impl Counts {
    // The counts as the library has them.
    fn stats(&self) -> CacheStats
        ensures { result ≡ stats_of self.now }
    {
        CacheStats {
            hit_count: self.hit_count,
            miss_empty_slot_count: self.miss_empty_slot_count,
            miss_wrong_modules_count: self.miss_wrong_modules_count,
            miss_wrong_address_count: self.miss_wrong_address_count,
        }
    }

    // The counts as C has them.
    fn of(stats: CacheStats) -> Self
        ensures { result ≡ counts_of stats }
    {
        Counts {
            hit_count: stats.hit_count,
            miss_empty_slot_count: stats.miss_empty_slot_count,
            miss_wrong_modules_count: stats.miss_wrong_modules_count,
            miss_wrong_address_count: stats.miss_wrong_address_count,
        }
    }
}

// Makes a cache of so many slots, and writes its number.
#[derive(Clone, Copy)]
struct AddCache {
    alloc: Global,
    slots: SlotCount,
    cache: u64,
}

impl SessionCall for AddCache {
    ghost does = { λ old new status R. AddsCache status old.slots old.cache new.cache };

    fn make<A: ModuleUnwinding<UnwindData = LentData>>(
        &mut self,
        session: &mut CountedSession<A>,
    ) -> u32 {
        session.add_cache(self.alloc, self.slots, &mut self.cache)
    }
}

// Lets a cache go.
#[derive(Clone, Copy)]
struct RemoveCache {
    cache: u64,
}

impl SessionCall for RemoveCache {
    ghost does = { λ old new status R. RemovesCache status old.cache };

    fn make<A: ModuleUnwinding<UnwindData = LentData>>(
        &mut self,
        session: &mut CountedSession<A>,
    ) -> u32 {
        session.remove_cache(self.cache)
    }
}

// Writes the counts of a cache.
#[derive(Clone, Copy)]
struct TellCounts {
    cache: u64,
    counts: CacheStats,
}

impl SessionCall for TellCounts {
    ghost does = { λ old new status R. TellsCounts status old.cache old.counts new.counts };

    fn make<A: ModuleUnwinding<UnwindData = LentData>>(
        &mut self,
        session: &mut CountedSession<A>,
    ) -> u32 {
        session.counts(self.cache, &mut self.counts)
    }
}

/// Makes a cache of so many slots, and writes its id.
#[unsafe(no_mangle)]
pub extern "C" fn framehop_add_cache(
    alloc: Global,
    session: &mut SessionHandle,
    slots: u64,
    cache: &mut u64,
) -> u32
    ensures adds { IsSlotCount slots → DoesIn (λ R. AddsCache result slots cache.old cache.new) session.old.value session.new.value }
    ensures none { IsSlotCount slots → session.old.value ≡ None → (result ≡ no_value) × (cache.new ≡ cache.old) }
    ensures number { ¬ IsSlotCount slots → (result ≡ bad_argument) × (cache.new ≡ cache.old) }
    ensures refused { ¬ IsSlotCount slots → session.new.value ≡ session.old.value }
{
    let Some(slots) = SlotCount::new(slots as usize) else {
        return BAD_ARGUMENT;
    };
    let mut call = AddCache {
        alloc,
        slots,
        cache: *cache,
    };
    let status = session.call(alloc, &mut call);
    *cache = call.cache;
    status
}

/// Lets a cache go, and frees it.
#[unsafe(no_mangle)]
pub extern "C" fn framehop_remove_cache(
    alloc: Global,
    session: &mut SessionHandle,
    cache: u64,
) -> u32
    ensures removes { DoesIn (λ R. RemovesCache result cache) session.old.value session.new.value }
    ensures none { session.old.value ≡ None → result ≡ no_value }
{
    session.call(alloc, &mut RemoveCache { cache })
}

/// Writes the counts of a cache.
#[unsafe(no_mangle)]
pub extern "C" fn framehop_stats(
    alloc: Global,
    session: &mut SessionHandle,
    cache: u64,
    stats: &mut Counts,
) -> u32
    ensures tells { DoesIn (λ R. TellsCounts result cache (stats_of stats.old) (stats_of stats.new)) session.old.value session.new.value }
    ensures none { session.old.value ≡ None → (result ≡ no_value) × (stats.new ≡ stats.old) }
{
    let mut call = TellCounts {
        cache,
        counts: stats.stats(),
    };
    let status = session.call(alloc, &mut call);
    *stats = Counts::of(call.counts);
    status
}
