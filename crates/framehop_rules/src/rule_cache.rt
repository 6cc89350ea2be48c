//! The cache of unwind rules.

ghost use Rattle.std.specs.Prelude.{◌≡◌, ◌+◌, ◌-◌, ◌^◌, ◌/◌, ◌%◌, ◌<◌, min, IfOk};
ghost use Rattle.framehop_rules.specs.Slots.{IsPowerOfTwo};

use crate::unwind_rule::UnwindRule;
use std::alloc::{AllocError, Global};
use std::marker::Model;

const CACHE_ENTRY_COUNT: usize = 509;

/// How many slots a cache has: 509, as the original's, or a power of two from 2 to 2^20.
#[derive(Clone, Copy, Debug)]
pub struct SlotCount {
    slots: usize,
}

impl Model for SlotCount {
    ghost use Rattle.std.specs.Prelude.{ℕ};
    ghost use Rattle.framehop_rules.specs.Slots.{IsSlotCount};

    ghost Value = { ℕ };

    ghost view = { λ count. count.slots };

    ghost invariant = { λ count. IsSlotCount count.slots };

    ghost inverse = { λ slots. record { slots = slots } };
}

impl SlotCount {
    ghost use Rattle.std.specs.Prelude.{◌↔◌, IsSome, IfSome};
    ghost use Rattle.framehop_rules.specs.Slots.{IsSlotCount};

    /// So many slots, if a cache can have so many.
    pub fn new(slots: usize) -> Option<Self>
        ensures counted { IsSome result ↔ IsSlotCount slots }
        ensures slots { IfSome result (λ count. count ≡ slots) }
    {
        if slots == CACHE_ENTRY_COUNT {
            return Some(SlotCount { slots });
        }
        for exponent in 1..=20u32 {
            if slots == 1usize << exponent {
                return Some(SlotCount { slots });
            }
        }
        None
    }

    /// 509 slots, each for the addresses of one remainder, as the original has them.
    pub fn original() -> Self
        ensures { result ≡ 509 }
    {
        SlotCount {
            slots: CACHE_ENTRY_COUNT,
        }
    }

    /// The number of slots.
    pub fn get(self) -> usize
        ensures slots { result ≡ self }
        ensures counted { IsSlotCount result }
    {
        self.slots
    }
}

/// A rule that was kept, and what for, but the kind of its frame.
#[derive(Clone, Copy, Debug, Drop)]
struct CacheEntry<R> {
    address: u64,
    modules_generation: u64,
    unwind_rule: R,
}

/// What a look-up finds, in one slot or in a set of them.
#[derive(Clone, Copy, Debug, Drop)]
enum Finding<R> {
    Hits(R),
    EmptySlot,
    OtherModules,
    OtherAddress,
}

/// What is in a slot. The variant says the kind of the frame too, so that a slot of 32 bytes has all, and a new cache
/// leaves room in the processor's first cache.
#[derive(Clone, Copy, Debug, Drop)]
enum CacheSlot<R> {
    Empty,
    FirstFrame(CacheEntry<R>),
    LaterFrame(CacheEntry<R>),
}

impl<R: Copy> CacheSlot<R> {
    ghost use Rattle.std.specs.Prelude.{Some, is_some, map};
    ghost use Rattle.framehop_rules.specs.Occupancy.{rules_in};
    ghost use Rattle.framehop_rules.specs.Slots.{finding_for, key_of};
    ghost use Rattle.framehop_rules.specs.CacheViews.{entry_shown, finding_shown, single_shown, slot_shown};

    // The slot of a frame of this kind with an entry.
    fn with(is_first_frame: bool, entry: CacheEntry<R>) -> Self
        ensures { slot_shown result ≡ Some (entry_shown is_first_frame entry) }
    {
        if is_first_frame {
            CacheSlot::FirstFrame(entry)
        } else {
            CacheSlot::LaterFrame(entry)
        }
    }

    // Whether a rule is kept here.
    fn is_taken(&self) -> bool
        ensures { result ≡ is_some (slot_shown self.now) }
    {
        !matches!(self, CacheSlot::Empty)
    }

    // In how many slots a rule is kept.
    #[tactic(auto, using(crate::proofs::Occupancy::singles_taken))]
    fn count_taken(slots: &[CacheSlot<R>]) -> usize
        ensures { result ≡ rules_in (map single_shown slots.now) }
    {
        slots.iter().filter(|slot| slot.is_taken()).count()
    }

    // What a look-up finds in this slot alone.
    #[inline(always)]
    fn find(&self, address: u64, is_first_frame: bool, modules_generation: u64) -> Finding<R>
        ensures { finding_shown result
            ≡ finding_for (key_of address is_first_frame modules_generation) (slot_shown self.now) }
    {
        let (of_first, entry) = match self {
            CacheSlot::Empty => return Finding::EmptySlot,
            CacheSlot::FirstFrame(entry) => (true, entry),
            CacheSlot::LaterFrame(entry) => (false, entry),
        };
        if entry.modules_generation != modules_generation {
            Finding::OtherModules
        } else if entry.address != address || of_first != is_first_frame {
            Finding::OtherAddress
        } else {
            Finding::Hits(entry.unwind_rule)
        }
    }
}

/// The two slots that addresses of one remainder have. They lie side by side, in 64 bytes.
#[derive(Clone, Copy, Debug, Drop)]
struct SlotPair<R> {
    newer: CacheSlot<R>,
    older: CacheSlot<R>,
}

impl<R: Copy> SlotPair<R> {
    ghost use Rattle.std.specs.Prelude.{◌∷◌, ◌≤◌, count_by, is_some, length, take};
    ghost use Rattle.framehop_rules.specs.Slots.{finding_among, key_of};
    ghost use Rattle.framehop_rules.specs.CacheViews.{finding_shown, pair_shown, slot_shown};

    // What a look-up finds in the newer slot, and else in the older.
    #[inline(always)]
    fn find(&self, address: u64, is_first_frame: bool, modules_generation: u64) -> Finding<R>
        ensures { finding_shown result
            ≡ finding_among (key_of address is_first_frame modules_generation) (pair_shown self.now) }
    {
        match self.newer.find(address, is_first_frame, modules_generation) {
            Finding::Hits(rule) => Finding::Hits(rule),
            _ => self.older.find(address, is_first_frame, modules_generation),
        }
    }

    // In how many newer slots a rule is kept.
    #[tactic(auto, using(crate::proofs::Occupancy::counts_few))]
    fn count_newer(pairs: &[SlotPair<R>]) -> usize
        ensures counted { result ≡ count_by (λ pair. is_some (slot_shown pair.newer)) pairs.now }
        ensures few { result ≤ length pairs.now }
    {
        pairs.iter().filter(|pair| pair.newer.is_taken()).count()
    }

    // In how many older slots a rule is kept.
    #[tactic(auto, using(crate::proofs::Occupancy::counts_few))]
    fn count_older(pairs: &[SlotPair<R>]) -> usize
        ensures counted { result ≡ count_by (λ pair. is_some (slot_shown pair.older)) pairs.now }
        ensures few { result ≤ length pairs.now }
    {
        pairs.iter().filter(|pair| pair.older.is_taken()).count()
    }

    // Keeps what is in a slot as the newer. The older falls out.
    fn keep(&mut self, slot: CacheSlot<R>)
        ensures { pair_shown self.new ≡ take 2 (slot_shown slot ∷ pair_shown self.old) }
    {
        self.older = self.newer;
        self.newer = slot;
    }
}

// The slot of an address, of 509.
#[inline(always)]
fn single_of(address: u64) -> usize
    ensures { result ≡ address % 509 }
{
    (address % (CACHE_ENTRY_COUNT as u64)) as usize
}

// The pair of an address. Four neighbouring addresses have one pair: so each pair has its share of the
// instructions of aarch64.
#[inline(always)]
fn pair_of(address: u64, pairs: usize) -> usize
    requires { IsPowerOfTwo pairs }
    ensures place { result ≡ address / 4 % pairs }
    ensures within { result < pairs }
{
    (address >> 2) as usize & (pairs - 1)
}

/// The slots of a cache.
#[derive(Drop)]
enum CacheSlots<R> {
    /// One for each remainder of the address by 509.
    Singles(Vec<CacheSlot<R>>),
    /// Two for each remainder of a quarter of the address by their number, which is a power of two.
    Pairs(Vec<SlotPair<R>>),
}

impl<R: Copy> CacheSlots<R> {
    ghost use Rattle.std.specs.Prelude.{IfOk};
    ghost use Rattle.framehop_rules.specs.Slots.{IsSlotCount, empty_sets, key_of, layout_of};
    ghost use Rattle.framehop_rules.specs.CacheViews.{IsLaidOut, entry_shown, finding_shown, found_shown, layout_shown, sets_shown, with_shown};
    ghost use Rattle.framehop_rules.specs.Occupancy.{rules_in, slots_in};

    // So many slots, with nothing in them, in one allocation.
    fn new(alloc: Global, slots: usize) -> Result<Self, AllocError>
        requires { IsSlotCount slots }
        ensures layout { IfOk result (λ made. layout_shown made ≡ layout_of slots) }
        ensures sets { IfOk result (λ made. sets_shown made ≡ empty_sets (layout_of slots)) }
        ensures laid_out { IfOk result IsLaidOut }
    {
        if slots == CACHE_ENTRY_COUNT {
            return Ok(CacheSlots::Singles(vec![in alloc; CacheSlot::Empty; CACHE_ENTRY_COUNT]?));
        }
        let pair = SlotPair {
            newer: CacheSlot::Empty,
            older: CacheSlot::Empty,
        };
        Ok(CacheSlots::Pairs(vec![in alloc; pair; slots / 2]?))
    }

    // How many there are.
    #[tactic(auto, using(crate::proofs::Occupancy::pairs_slots))]
    fn count(&self) -> usize
        requires { IsLaidOut self.now }
        ensures { result ≡ slots_in (layout_shown self.now) }
    {
        match self {
            CacheSlots::Singles(_) => CACHE_ENTRY_COUNT,
            CacheSlots::Pairs(pairs) => 2 * pairs.len(),
        }
    }

    // In how many a rule is kept.
    #[tactic(auto, using(crate::proofs::Occupancy::pairs_taken))]
    fn count_taken(&self) -> usize
        ensures { result ≡ rules_in (sets_shown self.now) }
    {
        match self {
            CacheSlots::Singles(singles) => CacheSlot::count_taken(singles),
            CacheSlots::Pairs(pairs) => SlotPair::count_newer(pairs) + SlotPair::count_older(pairs),
        }
    }

    // What a look-up finds in the slots of its address.
    #[inline(always)]
    fn find(&self, address: u64, is_first_frame: bool, modules_generation: u64) -> Finding<R>
        requires { IsLaidOut self.now }
        ensures { finding_shown result
            ≡ found_shown self.now (key_of address is_first_frame modules_generation) }
    {
        match self {
            CacheSlots::Singles(singles) => {
                singles[single_of(address)].find(address, is_first_frame, modules_generation)
            }
            CacheSlots::Pairs(pairs) => {
                let pair = &pairs[pair_of(address, pairs.len())];
                pair.find(address, is_first_frame, modules_generation)
            }
        }
    }

    // Keeps an entry as the newest of its set.
    fn keep(&mut self, is_first_frame: bool, entry: CacheEntry<R>)
        requires { IsLaidOut self.old }
        ensures sets { sets_shown self.new
            ≡ with_shown self.old (entry_shown is_first_frame entry) }
        ensures layout { layout_shown self.new ≡ layout_shown self.old }
        ensures laid_out { IsLaidOut self.new }
    {
        let address = entry.address;
        let slot = CacheSlot::with(is_first_frame, entry);
        match self {
            CacheSlots::Singles(singles) => singles[single_of(address)] = slot,
            CacheSlots::Pairs(pairs) => {
                let place = pair_of(address, pairs.len());
                pairs[place].keep(slot);
            }
        }
    }
}

/// How many look-ups found a rule, and why the others didn't. Each count stops at 2^64 - 1.
#[derive(Clone, Copy, Debug, Default, PartialEq, Eq)]
pub struct CacheStats {
    /// The look-ups that found a rule.
    pub hit_count: u64,
    /// Those that found nothing in the slot.
    pub miss_empty_slot_count: u64,
    /// Those that found a rule for another generation of the modules.
    pub miss_wrong_modules_count: u64,
    /// Those that found a rule for another address or another kind of frame.
    pub miss_wrong_address_count: u64,
}

impl CacheStats {
    ghost use Rattle.framehop_rules.specs.Slots.{no_counts, misses_of};

    /// No look-up.
    pub fn new() -> Self
        ensures { result ≡ no_counts }
    {
        CacheStats::default()
    }

    /// All look-ups, up to 2^64 - 1.
    pub fn total(&self) -> u64
        ensures { result ≡ min (self.now.hit_count + misses_of self.now) (2 ^ 64 - 1) }
    {
        self.hits().saturating_add(self.misses())
    }

    /// The look-ups that found a rule.
    pub fn hits(&self) -> u64
        ensures { result ≡ self.now.hit_count }
    {
        self.hit_count
    }

    /// The look-ups that found none, up to 2^64 - 1.
    pub fn misses(&self) -> u64
        ensures { result ≡ min (misses_of self.now) (2 ^ 64 - 1) }
    {
        self.miss_empty_slot_count
            .saturating_add(self.miss_wrong_modules_count)
            .saturating_add(self.miss_wrong_address_count)
    }
}

/// How many rules a cache keeps, and how many it has room for.
#[derive(Clone, Copy, Debug, PartialEq, Eq)]
pub struct CacheOccupancy {
    /// The slots.
    pub slot_count: usize,
    /// The slots in which a rule is kept.
    pub rule_count: usize,
}

/// The key of a failed look-up: pass it to `insert` with the rule to keep.
#[derive(Drop)]
pub struct CacheHandle {
    is_first_frame: bool,
    address: u64,
    modules_generation: u64,
}

impl Model for CacheHandle {
    ghost use Rattle.framehop_rules.specs.Slots.{Key, key_of};

    ghost Value = { Key };

    ghost view = { λ handle.
        key_of handle.address handle.is_first_frame handle.modules_generation };
}

/// What a look-up returns.
#[derive(Drop)]
pub enum CacheResult<R> {
    /// No rule. One may be inserted with the handle.
    Miss(CacheHandle),
    /// The rule.
    Hit(R),
}

/// The unwind rules that were kept last: of the addresses of each remainder, as many as a set has slots.
#[derive(Drop)]
pub struct RuleCache<R: UnwindRule> {
    slots: CacheSlots<R>,
    stats: CacheStats,
}

impl<R: UnwindRule> Model for RuleCache<R> {
    ghost use Rattle.framehop_rules.specs.Slots.{Kept};
    ghost use Rattle.framehop_rules.specs.CacheViews.{layout_shown, sets_shown, AllValid, IsLaidOut};

    ghost Value = { Kept R };

    ghost view = { λ cache. record {
      layout = layout_shown cache.slots;
      sets = sets_shown cache.slots;
      counts = cache.stats;
    } };

    ghost invariant = { λ cache. IsLaidOut cache.slots
        × AllValid R.is_valid (sets_shown cache.slots) };
}

// Counts one more, up to 2^64 - 1.
fn count(number: &mut u64)
    ensures { number.new ≡ min (number.old + 1) (2 ^ 64 - 1) }
{
    *number = number.saturating_add(1);
}

impl<R: UnwindRule> RuleCache<R> {
    ghost use Rattle.framehop_rules.specs.Slots.{key_of, with_kept, found_by, counts_after_lookup, new_kept};
    ghost use Rattle.framehop_rules.specs.Occupancy.{occupancy_of};
    ghost use Rattle.framehop_rules.specs.CacheViews.{result_of, IfHit};

    /// A cache without a rule, of 509 slots, each for the addresses of one remainder. Its slots are one
    /// allocation, and nothing else of the cache takes memory.
    pub fn new(alloc: Global) -> Result<Self, AllocError>
        ensures { IfOk result (λ cache. cache ≡ new_kept 509) }
    {
        RuleCache::with_slots(alloc, SlotCount::original())
    }

    /// A cache without a rule, of so many slots: pairs of them, but for 509. Its slots are one
    /// allocation, and nothing else of the cache takes memory.
    pub fn with_slots(alloc: Global, slots: SlotCount) -> Result<Self, AllocError>
        ensures { IfOk result (λ cache. cache ≡ new_kept slots) }
    {
        let slots = CacheSlots::new(alloc, slots.get())?;
        Ok(RuleCache {
            slots,
            stats: CacheStats::new(),
        })
    }

    /// The rule that was kept last for an address of this remainder, where it was kept for this
    /// address, this kind of frame and this generation of the modules.
    #[inline(always)]
    pub fn lookup(
        &mut self,
        address: u64,
        is_first_frame: bool,
        modules_generation: u64,
    ) -> CacheResult<R>
        ensures found { let key = key_of address is_first_frame modules_generation in
            result ≡ result_of key (found_by self.old key) }
        ensures valid { IfHit result R.is_valid }
        ensures layout { self.new.layout ≡ self.old.layout }
        ensures sets { self.new.sets ≡ self.old.sets }
        ensures counts { let key = key_of address is_first_frame modules_generation in
            self.new.counts ≡ counts_after_lookup key self.old }
    {
        let finding = self.slots.find(address, is_first_frame, modules_generation);
        match finding {
            Finding::Hits(unwind_rule) => {
                count(&mut self.stats.hit_count);
                return CacheResult::Hit(unwind_rule);
            }
            Finding::EmptySlot => count(&mut self.stats.miss_empty_slot_count),
            Finding::OtherModules => count(&mut self.stats.miss_wrong_modules_count),
            Finding::OtherAddress => count(&mut self.stats.miss_wrong_address_count),
        }
        CacheResult::Miss(CacheHandle {
            is_first_frame,
            address,
            modules_generation,
        })
    }

    /// Keeps a rule for what a look-up found none for. It is the newest of its set, and the oldest falls
    /// out.
    pub fn insert(&mut self, handle: CacheHandle, unwind_rule: R)
        requires { R.is_valid unwind_rule }
        ensures layout { self.new.layout ≡ self.old.layout }
        ensures sets { self.new.sets
            ≡ with_kept self.old.layout self.old.sets handle unwind_rule }
        ensures counts { self.new.counts ≡ self.old.counts }
    {
        let CacheHandle {
            is_first_frame,
            address,
            modules_generation,
        } = handle;
        let entry = CacheEntry {
            address,
            modules_generation,
            unwind_rule,
        };
        self.slots.keep(is_first_frame, entry);
    }

    /// How many look-ups found a rule so far, and why the others didn't.
    pub fn stats(&self) -> CacheStats
        ensures { result ≡ self.now.counts }
    {
        self.stats
    }

    /// How many slots there are, and in how many of them a rule is kept. This goes over all slots.
    pub fn occupancy(&self) -> CacheOccupancy
        ensures { result ≡ occupancy_of self.now }
    {
        CacheOccupancy {
            slot_count: self.slots.count(),
            rule_count: self.slots.count_taken(),
        }
    }
}

impl<R: UnwindRule> RuleCache<R> {
    ghost use Rattle.std.specs.Prelude.{[], ℕ, List};
    ghost use Rattle.framehop_rules.specs.Slots.{Key, KeptRule, Layout, Hits, empty_sets, finding_among};
    ghost use Rattle.framehop_rules.specs.LastKept.{HasLast};
    ghost use Rattle.framehop_rules.specs.KeptLaws.{SetsOf, SlotsOf, KeepsLast, KeysAreLast, HaveKeysAlike, IsKeptUnder, CountAlike};

    /// Laws of the slots, of every layout; the function does nothing when the program runs. Each set has the
    /// last of what was kept for it. A rule is found only if it was kept under the very key of the look-up,
    /// and what is counted is decided by the keys in the set.
    pub fn slots_have_the_last()
        ensures new { (layout : Layout) → HasLast {Rule = R} layout [] (empty_sets layout) }
        ensures kept { (layout : Layout) (kept : List (KeptRule R)) (sets : SetsOf R)
            (entry : KeptRule R) → KeepsLast layout kept sets entry }
        ensures keys { (layout : Layout) (kept : List (KeptRule R)) (set : ℕ)
            → KeysAreLast layout kept set }
        ensures hits { (key : Key) (slots : SlotsOf R) (rule : R)
            → finding_among key slots ≡ Hits rule → IsKeptUnder key rule slots }
        ensures counts { (key : Key) (a b : SlotsOf R) (counts : CacheStats)
            → HaveKeysAlike a b → CountAlike key a b counts }
    {}
}
