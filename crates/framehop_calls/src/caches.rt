//! Caches by their numbers.

ghost use Rattle.framehop_calls.specs.Calls.{AddsCache, RemovesCache, TellsCounts};

use crate::session::CountedSession;
use crate::status::{NO_CACHE, OK, OUT_OF_MEMORY};
use framehop_rules::{CacheStats, SlotCount};
use framehop_unwinder::{CacheId, ModuleUnwinding};
use std::alloc::Global;

impl<A: ModuleUnwinding> CountedSession<A> {
    /// Makes a cache of so many slots, and writes its number.
    pub fn add_cache(&mut self, alloc: Global, slots: SlotCount, number: &mut u64) -> u32
        ensures { AddsCache result slots number.old number.new self.old self.new }
    {
        if self.caches == usize::MAX {
            return OUT_OF_MEMORY;
        }
        match self.session.add_cache_with_slots(alloc, slots) {
            Ok(_) => {
                *number = self.caches as u64;
                self.caches += 1;
                OK
            }
            Err(_) => OUT_OF_MEMORY,
        }
    }

    /// Lets a cache go, and frees it.
    pub fn remove_cache(&mut self, cache: u64) -> u32
        ensures { RemovesCache result cache self.old self.new }
    {
        let cache = CacheId::numbered(cache as usize);
        match self.session.remove_cache(cache) {
            Ok(()) => OK,
            Err(_) => NO_CACHE,
        }
    }

    /// Writes how many look-ups in a cache found a rule, and why the others didn't.
    pub fn counts(&self, cache: u64, counts: &mut CacheStats) -> u32
        ensures { TellsCounts result cache counts.old counts.new self.now self.now }
    {
        let cache = CacheId::numbered(cache as usize);
        match self.session.stats(cache) {
            Ok(found) => {
                *counts = found;
                OK
            }
            Err(_) => NO_CACHE,
        }
    }
}
