//! The unwinder of x86_64.

ghost use Rattle.std.specs.Prelude.{◌≡◌, IfOk, OnOk, OnErr, []};
ghost use Rattle.std.specs.List.{All};
ghost use Rattle.framehop_histories.specs.CommandViews.{OfCallback};
ghost use Rattle.framehop_rules.specs.Occupancy.{occupancy_of};
ghost use Rattle.framehop_rules.specs.Slots.{new_kept};
ghost use Rattle.framehop_unwinder.specs.CacheViews.{rules_of};
ghost use Rattle.framehop.specs.Performances.{PerformsX86_64};

use crate::arch::BySections;
use crate::histories::{self, Answer, Command};
pub use framehop_analysis::x86_64::{
    unwind_rule_from_detected_epilogue, unwind_rule_from_detected_prologue,
};
use framehop_loads::{
    AllocationPolicy, DwarfUnwindContext, MayAllocateDuringUnwind, ModuleUnwindData,
};
use framehop_modules::SectionBytes;
pub use framehop_rows::x86_64::rule_answers_as_its_row;
pub use framehop_rules::SlotCount;
pub use framehop_rules::x86_64::{
    ArchX86_64, OffsetOrPop, PopList, Reg, UnwindRegsX86_64, UnwindRuleX86_64, decode, encode,
};
use framehop_rules::{CacheOccupancy, CacheStats};
use framehop_unwinder::{Cache, Session, UnwinderInternal};
use std::alloc::{AllocError, Global};
use std::collections::VecDeque;

/// The unwinder of a process on x86_64. Its modules are unwound by their sections, which are values of
/// `D`; `P` says whether a step may allocate.
pub type UnwinderX86_64<D, P = MayAllocateDuringUnwind> = UnwinderInternal<
    BySections<ArchX86_64, D, P>,
>;

/// Unwinders and caches of processes on x86_64, which share what they keep. The modules of unwinders are
/// unwound as those of an [`UnwinderX86_64`].
pub type SessionX86_64<D, P = MayAllocateDuringUnwind> = Session<BySections<ArchX86_64, D, P>>;

/// What steps on x86_64 keep and reuse: a cache of unwind rules, and storage that steps evaluate rows in.
/// A step or a walk takes the [`Cache`] in it, which `rules` lends.
#[derive(Drop)]
pub struct CacheX86_64<P: AllocationPolicy = MayAllocateDuringUnwind>(
    pub Cache<UnwindRuleX86_64, DwarfUnwindContext<P>>,
);

impl CacheX86_64<MayAllocateDuringUnwind> {
    /// A new cache of 509 slots, for steps that may allocate. Fails if it fails to allocate.
    pub fn new(alloc: Global) -> Result<Self, AllocError>
        ensures { IfOk result (λ cache. rules_of cache.0 ≡ new_kept 509) }
    {
        CacheX86_64::new_in(alloc)
    }

    /// A new cache of so many slots, for steps that may allocate. Fails if it fails to allocate.
    pub fn with_slots(alloc: Global, slots: SlotCount) -> Result<Self, AllocError>
        ensures { IfOk result (λ cache. rules_of cache.0 ≡ new_kept slots) }
    {
        CacheX86_64::with_slots_in(alloc, slots)
    }
}

impl<P: AllocationPolicy> CacheX86_64<P> {
    /// A new cache of 509 slots, for steps under the policy `P`. Fails if it fails to allocate.
    pub fn new_in(alloc: Global) -> Result<Self, AllocError>
        ensures { IfOk result (λ cache. rules_of cache.0 ≡ new_kept 509) }
    {
        let unwind_context = DwarfUnwindContext::new(alloc)?;
        Ok(CacheX86_64(Cache::new(alloc, unwind_context)?))
    }

    /// A new cache of so many slots, for steps under the policy `P`. Fails if it fails to allocate.
    pub fn with_slots_in(alloc: Global, slots: SlotCount) -> Result<Self, AllocError>
        ensures { IfOk result (λ cache. rules_of cache.0 ≡ new_kept slots) }
    {
        let unwind_context = DwarfUnwindContext::new(alloc)?;
        Ok(CacheX86_64(Cache::with_slots(alloc, unwind_context, slots)?))
    }

    /// The cache as a step or a walk takes it. No clause says what it is afterwards: a proof about that takes field 0.
    pub fn rules(&mut self) -> &mut Cache<UnwindRuleX86_64, DwarfUnwindContext<P>>
        ensures { result.now ≡ self.old.0 }
    {
        &mut self.0
    }

    /// How many look-ups found a rule so far, and why the others found none.
    pub fn stats(&self) -> CacheStats
        ensures { result ≡ (rules_of self.now.0).counts }
    {
        self.0.stats()
    }

    /// How many slots there are, and in how many of them a rule is kept. This goes over all slots.
    pub fn occupancy(&self) -> CacheOccupancy
        ensures { result ≡ occupancy_of (rules_of self.now.0) }
    {
        self.0.occupancy()
    }
}

/// Does what the commands ask, one after the other, and answers each, as
/// [`histories::perform`](crate::histories::perform) does, on x86_64: each step and each move of a
/// walk is answered from the bytes of the modules that are loaded then, whatever the commands before it did
/// and through any of the caches. `limits` of the policy are those of
/// [`policies_set_limits`](crate::policies_set_limits).
pub fn perform<
    D: SectionBytes + Drop,
    P: AllocationPolicy,
    F: FnMut(u64) -> Result<u64, ()> + Drop,
>(
    alloc: Global,
    session: &mut Session<BySections<ArchX86_64, D, P>>,
    commands: &mut VecDeque<
        Command<ModuleUnwindData<D>, DwarfUnwindContext<P>, UnwindRegsX86_64, F>,
    >,
) -> Result<Vec<Answer<UnwindRegsX86_64>>, AllocError>
    requires { All (OfCallback F.IsAlwaysCallable) commands.old.items }
    ensures performs { IfOk result (λ all. PerformsX86_64 F.step P.may_allocate P.limits
        session.old commands.old.items session.new all.items) }
    ensures performed { OnOk result (commands.new.items ≡ []) }
    ensures refused { OnErr result (session.new ≡ session.old) }
    ensures waiting { OnErr result (commands.new ≡ commands.old) }
{
    histories::perform(alloc, session, commands)
}
