//! Many unwinders, which share caches under one counter of generations.

ghost use Rattle.std.specs.Prelude.{◌≡◌, ◌≤◌, ◌+◌, ◌^◌, ◌-◌, ◌∷◌, ◌++◌, [], true, false, Ok, Err, None, Some, length, IfOk, IfErr, IfNone, IfSome, IsErr, OnOk, OnErr};
ghost use Rattle.framehop_registers.specs.Callback.{OverWords};
ghost use Rattle.framehop_modules.specs.LoadErrors.{module_returned, is_exhausted};
ghost use Rattle.framehop_rules.specs.Occupancy.{occupancy_of};
ghost use Rattle.framehop_unwinder.specs.Frames.{frame_of};
ghost use Rattle.framehop_unwinder.specs.History.{CountsByHistory, GainNewHistory, OccupiedByHistory};
ghost use Rattle.framehop_unwinder.specs.HitReads.{MoveReads, ReadsIfKnown, reads_by};
ghost use Rattle.framehop_unwinder.specs.IdViews.{FindsHeld, MovesBy, StepsBy, cache_number, has_both, has_cache, has_module_at, has_unwinder, modules_by, unwinder_number, with_module_in, without_module_in};
ghost use Rattle.framehop_unwinder.specs.Judge.{judge};
ghost use Rattle.framehop_unwinder.specs.Modules.{last_end, module_found};
ghost use Rattle.framehop_unwinder.specs.Moves.{MoveWants, MovesOn, StepWants};
ghost use Rattle.framehop_unwinder.specs.Runs.{RunWants, RunsIfHeld, StepsIn, WritesIfHeld, point};
ghost use Rattle.framehop_unwinder.specs.State.{cache_at, empty_state, with_cache, with_clone, with_unwinder, without_cache, without_unwinder};
ghost use Rattle.framehop_unwinder.specs.Trials.{StaysUnlessStepped, StepsAs, wants_memory};
ghost use Rattle.framehop_unwinder.specs.WalkViews.{MovesAs, walk_from, walk_of};

use crate::cache::Cache;
use crate::ids::{CacheId, StaleId, UnwinderId};
use crate::iterator::{StackWalk, UnwindIteratorState};
use crate::module::Module;
use crate::numbered::Numbered;
use crate::runs::{Run, run_steps};
use crate::session_iterator::SessionUnwindIterator;
use crate::unwinder::UnwinderInternal;
use crate::unwinders::Unwinder;
use crate::unwinding::ModuleUnwinding;
use framehop_modules::{Generations, GenerationsExhausted, LoadError};
use framehop_rules::{CacheOccupancy, CacheStats, Error, FrameAddress, SlotCount};
use std::alloc::{AllocError, Global};
use std::marker::Model;

/// Unwinders and caches under one counter of generations. Any cache serves any of the unwinders, after
/// any loads, unloads and clones, and after others were let go: each step is the one that the modules
/// loaded now give without a cache.
///
/// A call with the id of an unwinder or a cache that was let go, or was never made, returns `StaleId`,
/// and changes nothing.
#[derive(Drop)]
pub struct Session<A: ModuleUnwinding> {
    unwinders: Numbered<UnwinderInternal<A>>,
    caches: Numbered<Cache<A::UnwindRule, A::UnwindContext>>,
    generations: Generations,
}

impl<A: ModuleUnwinding> Model for Session<A> {
    ghost use Rattle.framehop_unwinder.specs.NumberedViews.{by_number};
    ghost use Rattle.framehop_unwinder.specs.SessionViews.{IsInOrder, caches_by_number};
    ghost use Rattle.framehop_unwinder.specs.State.{SessionState};

    ghost Value = { SessionState A.UnwindData A.UnwindRule };

    ghost view = { λ session. record {
      unwinders = by_number session.unwinders;
      next = session.generations;
      caches = caches_by_number session.caches;
    } };

    ghost invariant = { λ session.
        IsInOrder A.meanings session.generations session.unwinders session.caches };
}

/// Why an unwinder was not made.
#[derive(Debug, Clone, Copy, PartialEq, Eq)]
pub enum AddUnwinderError {
    /// The counter gave all its numbers.
    GenerationsExhausted,
    /// There is no memory for the list of unwinders.
    OutOfMemory,
}

impl<A: ModuleUnwinding> Session<A> {
    /// No unwinder and no cache, and a counter of which no number was taken yet.
    pub fn new(alloc: Global, generations: Generations) -> Self
        ensures { result ≡ empty_state generations }
    {
        Session {
            unwinders: Numbered::new(alloc),
            caches: Numbered::new(alloc),
            generations,
        }
    }

    /// No unwinder and no cache, and a counter from 0 on.
    pub fn empty(alloc: Global) -> Self
        ensures { result ≡ empty_state 0 }
    {
        Session::new(alloc, Generations::new())
    }

    /// Whether the session has an unwinder.
    pub fn has_unwinder(&self, unwinder: UnwinderId) -> bool
        ensures { result ≡ has_unwinder self.now unwinder }
    {
        self.unwinders.holds(unwinder.place)
    }

    /// Whether the session has a cache.
    pub fn has_cache(&self, cache: CacheId) -> bool
        ensures { result ≡ has_cache self.now cache }
    {
        self.caches.holds(cache.place)
    }

    /// Whether the session has an unwinder and a cache.
    pub fn has(&self, unwinder: UnwinderId, cache: CacheId) -> bool
        ensures { result ≡ has_both self.now unwinder cache }
    {
        self.has_unwinder(unwinder) && self.has_cache(cache)
    }

    /// Makes a new cache of 509 slots.
    pub fn add_cache(&mut self, alloc: Global) -> Result<CacheId, AllocError>
        ensures number { IfOk result (λ id. cache_number id ≡ length self.old.caches) }
        ensures ok { OnOk result (self.new ≡ with_cache self.old 509) }
        ensures histories { OnOk result
            (GainNewHistory 509 self.old.caches self.new.caches) }
        ensures refused { OnErr result (self.new ≡ self.old) }
    {
        self.add_cache_with_slots(alloc, SlotCount::original())
    }

    /// Makes a new cache of so many slots.
    pub fn add_cache_with_slots(
        &mut self,
        alloc: Global,
        slots: SlotCount,
    ) -> Result<CacheId, AllocError>
        ensures number { IfOk result (λ id. cache_number id ≡ length self.old.caches) }
        ensures ok { OnOk result (self.new ≡ with_cache self.old slots) }
        ensures histories { OnOk result
            (GainNewHistory slots self.old.caches self.new.caches) }
        ensures refused { OnErr result (self.new ≡ self.old) }
    {
        let unwind_context = A::unwind_context(alloc)?;
        self.add_cache_with_context(alloc, unwind_context, slots)
    }

    /// Makes a new cache of so many slots, with room for attempts that the caller made.
    pub fn add_cache_with_context(
        &mut self,
        alloc: Global,
        unwind_context: A::UnwindContext,
        slots: SlotCount,
    ) -> Result<CacheId, AllocError>
        ensures number { IfOk result (λ id. cache_number id ≡ length self.old.caches) }
        ensures ok { OnOk result (self.new ≡ with_cache self.old slots) }
        ensures histories { OnOk result
            (GainNewHistory slots self.old.caches self.new.caches) }
        ensures refused { OnErr result (self.new ≡ self.old) }
    {
        let cache = Cache::with_slots(alloc, unwind_context, slots)?;
        let place = self.caches.add(cache)?;
        Ok(CacheId { place })
    }

    /// Makes a new unwinder without a module.
    pub fn add_unwinder(&mut self, alloc: Global) -> Result<UnwinderId, AddUnwinderError>
        ensures number { IfOk result (λ id. unwinder_number id ≡ length self.old.unwinders) }
        ensures ok { OnOk result (self.new ≡ with_unwinder self.old) }
        ensures exhausted { 2 ^ 64 - 1 ≤ self.old.next
            → result ≡ Err AddUnwinderError.GenerationsExhausted }
        ensures only { result ≡ Err AddUnwinderError.GenerationsExhausted
            → self.old.next ≡ 2 ^ 64 - 1 }
        ensures refused { OnErr result (self.new ≡ self.old) }
    {
        let left = self.generations.left();
        if left == 0 {
            return Err(AddUnwinderError::GenerationsExhausted);
        }
        let unwinder = UnwinderInternal::with_generation(alloc, u64::MAX - left);
        match self.unwinders.add(unwinder) {
            Ok(place) => {
                self.generations.take();
                Ok(UnwinderId { place })
            }
            Err(_) => Err(AddUnwinderError::OutOfMemory),
        }
    }

    /// Makes an unwinder with the modules and the generation of another.
    pub fn clone_unwinder(
        &mut self,
        alloc: Global,
        unwinder: UnwinderId,
    ) -> Result<Result<UnwinderId, AllocError>, StaleId>
        ensures found { FindsHeld (has_unwinder self.old unwinder) result self.old self.new }
        ensures number { IfOk result (λ made. IfOk made (λ id.
            unwinder_number id ≡ length self.old.unwinders)) }
        ensures ok { IfOk result (λ made. OnOk made
            (self.new ≡ with_clone self.old (unwinder_number unwinder))) }
        ensures refused { IfOk result (λ made. OnErr made (self.new ≡ self.old)) }
    {
        let Some(unwinder) = self.unwinders.get(unwinder.place) else {
            return Err(StaleId);
        };
        let Ok(clone) = unwinder.try_clone(alloc) else {
            return Ok(Err(AllocError));
        };
        let Ok(place) = self.unwinders.add(clone) else {
            return Ok(Err(AllocError));
        };
        Ok(Ok(UnwinderId { place }))
    }

    /// Lets an unwinder go, with its modules: what no other unwinder has of them is freed.
    pub fn remove_unwinder(&mut self, unwinder: UnwinderId) -> Result<(), StaleId>
        ensures found { FindsHeld (has_unwinder self.old unwinder) result self.old self.new }
        ensures ok { OnOk result
            (self.new ≡ without_unwinder self.old (unwinder_number unwinder)) }
    {
        if !self.unwinders.remove(unwinder.place) {
            return Err(StaleId);
        }
        Ok(())
    }

    /// Lets a cache go, and frees it.
    pub fn remove_cache(&mut self, cache: CacheId) -> Result<(), StaleId>
        ensures found { FindsHeld (has_cache self.old cache) result self.old self.new }
        ensures ok { OnOk result (self.new ≡ without_cache self.old (cache_number cache)) }
    {
        if !self.caches.remove(cache.place) {
            return Err(StaleId);
        }
        Ok(())
    }

    /// Loads a module in an unwinder.
    pub fn load(
        &mut self,
        unwinder: UnwinderId,
        module: Module<A::UnwindData>,
    ) -> Result<Result<(), LoadError<Module<A::UnwindData>>>, StaleId>
        ensures found { FindsHeld (has_unwinder self.old unwinder) result self.old self.new }
        ensures ok { IfOk result (λ loaded. OnOk loaded
            (self.new ≡ with_module_in self.old unwinder «module»)) }
        ensures exhausted { IfOk result (λ loaded. 2 ^ 64 - 1 ≤ self.old.next
            → loaded ≡ Err (LoadError.GenerationsExhausted «module»)) }
        ensures only { IfOk result (λ loaded. IfErr loaded (λ error. is_exhausted error ≡ true
            → self.old.next ≡ 2 ^ 64 - 1)) }
        ensures returned { IfOk result (λ loaded. IfErr loaded (λ error.
            module_returned error ≡ «module»)) }
        ensures refused { IfOk result (λ loaded. OnErr loaded (self.new ≡ self.old)) }
    {
        let Some(slot) = self.unwinders.slot_of(unwinder.place) else {
            return Err(StaleId);
        };
        match &mut self.unwinders.values[slot] {
            Some(unwinder) => Ok(unwinder.add_module(&mut self.generations, module)),
            None => Err(StaleId),
        }
    }

    /// Unloads the last of the modules of an unwinder that start at an address, if one does.
    pub fn unload(
        &mut self,
        unwinder: UnwinderId,
        start: u64,
    ) -> Result<Result<(), GenerationsExhausted>, StaleId>
        ensures found { FindsHeld (has_unwinder self.old unwinder) result self.old self.new }
        ensures unknown { IfOk result (λ unloaded.
            has_module_at self.old unwinder start ≡ false
            → (unloaded ≡ Ok tt) × (self.new ≡ self.old)) }
        ensures ok { IfOk result (λ unloaded.
            has_module_at self.old unwinder start ≡ true
            → OnOk unloaded (self.new ≡ without_module_in self.old unwinder start)) }
        ensures exhausted { IfOk result (λ unloaded.
            has_module_at self.old unwinder start ≡ true
            → 2 ^ 64 - 1 ≤ self.old.next → IsErr unloaded) }
        ensures only { IfOk result (λ unloaded. OnErr unloaded (self.old.next ≡ 2 ^ 64 - 1)) }
        ensures refused { IfOk result (λ unloaded. OnErr unloaded (self.new ≡ self.old)) }
    {
        let Some(slot) = self.unwinders.slot_of(unwinder.place) else {
            return Err(StaleId);
        };
        match &mut self.unwinders.values[slot] {
            Some(unwinder) => Ok(unwinder.remove_module(&mut self.generations, start)),
            None => Err(StaleId),
        }
    }

    /// The end of the last module of an unwinder, else 0.
    pub fn max_known_code_address(&self, unwinder: UnwinderId) -> Result<u64, StaleId>
        ensures found { FindsHeld (has_unwinder self.now unwinder) result self.now self.now }
        ensures address { IfOk result (λ address. address
            ≡ last_end (λ module_. module_.end) (modules_by self.now unwinder)) }
    {
        match self.unwinders.get(unwinder.place) {
            Some(unwinder) => Ok(unwinder.max_known_code_address()),
            None => Err(StaleId),
        }
    }

    /// The module of an unwinder that an address is in, and the address relative to the module's base.
    pub fn module_at(
        &self,
        unwinder: UnwinderId,
        address: u64,
    ) -> Result<Option<(&Module<A::UnwindData>, u32)>, StaleId>
        ensures found { FindsHeld (has_unwinder self.now unwinder) result self.now self.now }
        ensures none { IfOk result (λ it. IfNone it
            (module_found (modules_by self.now unwinder) address ≡ None)) }
        ensures module_ { IfOk result (λ it. IfSome it (λ found.
            module_found (modules_by self.now unwinder) address ≡ Some found.0.now)) }
        ensures relative { IfOk result (λ it. IfSome it (λ found.
            found.1 ≡ address - found.0.now.base)) }
    {
        match self.unwinders.get(unwinder.place) {
            Some(unwinder) => Ok(unwinder.module_at(address)),
            None => Err(StaleId),
        }
    }

    /// How many look-ups in a cache found a rule so far, and why the others didn't.
    pub fn stats(&self, cache: CacheId) -> Result<CacheStats, StaleId>
        ensures found { FindsHeld (has_cache self.now cache) result self.now self.now }
        ensures counts { IfOk result (λ stats.
            stats ≡ (cache_at self.now.caches (cache_number cache)).counts) }
        ensures histories { IfOk result (λ stats.
            CountsByHistory stats self.now.caches (cache_number cache)) }
    {
        match self.caches.get(cache.place) {
            Some(cache) => Ok(cache.stats()),
            None => Err(StaleId),
        }
    }

    /// How many slots a cache has, and in how many of them a rule is kept. This goes over all its slots.
    pub fn occupancy(&self, cache: CacheId) -> Result<CacheOccupancy, StaleId>
        ensures found { FindsHeld (has_cache self.now cache) result self.now self.now }
        ensures occupancy { IfOk result (λ occupancy.
            occupancy ≡ occupancy_of (cache_at self.now.caches (cache_number cache))) }
        ensures histories { IfOk result (λ occupancy.
            OccupiedByHistory occupancy self.now.caches (cache_number cache)) }
    {
        match self.caches.get(cache.place) {
            Some(cache) => Ok(cache.occupancy()),
            None => Err(StaleId),
        }
    }

    /// Makes the step of an unwinder from a frame with these registers, with any of the caches.
    #[inline(always)]
    pub fn step<F: FnMut(u64) -> Result<u64, ()>>(
        &mut self,
        unwinder: UnwinderId,
        cache: CacheId,
        address: FrameAddress,
        regs: &mut A::UnwindRegs,
        read_stack: &mut F,
    ) -> Result<Result<Option<u64>, Error>, StaleId>
        requires { F.IsAlwaysCallable read_stack.old }
        ensures callable { F.IsAlwaysCallable read_stack.new }
        ensures found { FindsHeld (has_both self.old unwinder cache) result self.old self.new }
        ensures unchanged { OnErr result (regs.new ≡ regs.old) }
        ensures step { OverWords F.step read_stack.old read_stack.new (λ words. IfOk result (λ answer.
            StepsAs answer regs.old regs.new (judge A.meanings (modules_by self.old unwinder)
            (frame_of address) regs.old words))) }
        ensures order { OnOk result (ReadsIfKnown F.step read_stack.old read_stack.new
            (reads_by A.UnwindRule.reads self.old unwinder cache (frame_of address) regs.old)) }
        ensures caches { IfOk result (λ answer. StepsBy A.meanings answer
            (frame_of address) unwinder cache self.old self.new) }
        ensures stays { IfOk result (λ answer. StaysUnlessStepped answer regs.old regs.new) }
        ensures memory { IfOk result (λ answer. StepWants A.takes_memory A.asks_memory
            (modules_by self.old unwinder) address answer) }
    {
        let Some(unwinder) = self.unwinders.get(unwinder.place) else {
            return Err(StaleId);
        };
        let Some(slot) = self.caches.slot_of(cache.place) else {
            return Err(StaleId);
        };
        let Some(cache) = &mut self.caches.values[slot] else {
            return Err(StaleId);
        };
        Ok(unwinder.unwind_frame(address, regs, cache, read_stack))
    }

    /// Makes steps of an unwinder, one after the other, with any of the caches: from the frame at an
    /// address with these registers, up to one that gives no caller, or as many as there is room for.
    /// Writes the return addresses. The address and the registers are then those of the last frame that was
    /// written; but after `ReturnAddressIsNull` the registers are the caller's. The unwinder and the cache are
    /// looked up once for all steps.
    #[inline(always)]
    pub fn run_steps<F: FnMut(u64) -> Result<u64, ()>>(
        &mut self,
        unwinder: UnwinderId,
        cache: CacheId,
        at: &mut FrameAddress,
        regs: &mut A::UnwindRegs,
        read_stack: &mut F,
        frames: &mut [u64],
    ) -> Result<Run, StaleId>
        requires { F.IsAlwaysCallable read_stack.old }
        ensures callable { F.IsAlwaysCallable read_stack.new }
        ensures found { FindsHeld (has_both self.old unwinder cache) result self.old self.new }
        ensures runs { RunsIfHeld (StepsIn F.step A.UnwindRule.reads A.meanings unwinder cache)
            (point at.old regs.old read_stack.old self.old) result frames.new
            (point at.new regs.new read_stack.new self.new) }
        ensures written { WritesIfHeld result frames.old frames.new }
        ensures memory { IfOk result (λ run. RunWants A.takes_memory A.asks_memory
            (modules_by self.old unwinder) at.new run) }
    {
        let Some(unwinder) = self.unwinders.get(unwinder.place) else {
            return Err(StaleId);
        };
        let Some(slot) = self.caches.slot_of(cache.place) else {
            return Err(StaleId);
        };
        let Some(cache) = &mut self.caches.values[slot] else {
            return Err(StaleId);
        };
        Ok(run_steps(unwinder, cache, at, regs, read_stack, frames))
    }

    /// Makes the next move of a walk over an unwinder's frames, with any of the caches: returns the
    /// next frame, or `None` at the end of the stack and from then on. The first frame is the
    /// instruction pointer. After an error the walk is where it was, but after `ReturnAddressIsNull` it
    /// has the caller's registers there, and must not be continued.
    pub fn next_frame<F: FnMut(u64) -> Result<u64, ()>>(
        &mut self,
        unwinder: UnwinderId,
        cache: CacheId,
        walk: &mut StackWalk<A::UnwindRegs>,
        read_stack: &mut F,
    ) -> Result<Result<Option<FrameAddress>, Error>, StaleId>
        requires { F.IsAlwaysCallable read_stack.old }
        ensures callable { F.IsAlwaysCallable read_stack.new }
        ensures found { FindsHeld (has_both self.old unwinder cache) result self.old self.new }
        ensures unchanged { OnErr result (walk.new ≡ walk.old) }
        ensures moved { OverWords F.step read_stack.old read_stack.new (λ words. IfOk result (λ answer.
            MovesAs (judge A.meanings (modules_by self.old unwinder)) words
            (walk_of walk.old) answer (walk_of walk.new))) }
        ensures order { OnOk result (MoveReads F.step read_stack.old read_stack.new
            (reads_by A.UnwindRule.reads self.old unwinder cache) walk.old) }
        ensures walk { IfOk result (λ answer. MovesOn (walk_of walk.old) answer (walk_of walk.new)) }
        ensures caches { IfOk result (λ answer. MovesBy A.meanings answer
            (walk_of walk.old).position unwinder cache self.old self.new) }
        ensures memory { IfOk result (λ answer. MoveWants A.takes_memory A.asks_memory
            (modules_by self.old unwinder) (walk_of walk.old).position
            (wants_memory answer)) }
    {
        if let UnwindIteratorState::Unwinding(address) = walk.state {
            return match self.step(unwinder, cache, address, &mut walk.regs, read_stack)? {
                Ok(step) => Ok(walk.state.go_on(step)),
                Err(error) => Ok(Err(error)),
            };
        }
        if !self.has(unwinder, cache) {
            return Err(StaleId);
        }
        match walk.state {
            UnwindIteratorState::Initial(pc) => Ok(Ok(Some(walk.state.begin(pc)))),
            UnwindIteratorState::Unwinding(_) | UnwindIteratorState::Done => Ok(Ok(None)),
        }
    }

    /// A walk over an unwinder's frames, with any of the caches, from a frame at the instruction pointer
    /// `pc` with these registers. The session has to have both: `has` is the test.
    pub fn iter_frames<'s, 'r, F: FnMut(u64) -> Result<u64, ()>>(
        &'s mut self,
        unwinder: UnwinderId,
        cache: CacheId,
        pc: u64,
        regs: A::UnwindRegs,
        read_stack: &'r mut F,
    ) -> SessionUnwindIterator<'s, 'r, A, F>
        requires { has_both self.old unwinder cache ≡ true }
        ensures session { result.session ≡ self.entry }
        ensures ids { (result.on.unwinder ≡ unwinder) × (result.on.cache ≡ cache) }
        ensures walk { walk_of result.on.walk ≡ walk_from pc regs }
        ensures stack { result.stack ≡ read_stack.entry }
    {
        SessionUnwindIterator::new(self, unwinder, cache, pc, regs, read_stack)
    }
}
