//! The modules of a process, and the step of a stack walk.

ghost use Rattle.std.specs.Prelude.{◌≡◌, ◌+◌, ◌-◌, ◌^◌, ◌<◌, ◌≤◌, refl, [], true, false, Some, None, Ok, Err, List, length, insert, remove, IfOk, IfErr, IsErr, OnOk, OnErr, IfNone, IfSome};
ghost use Rattle.std.specs.List.Sorted.{IsNonDecreasingBy};
ghost use Rattle.framehop_registers.specs.Callback.{OverWords};
ghost use Rattle.framehop_rules.specs.Outcome.{IsStep, StaysUnlessAnswered};
ghost use Rattle.framehop_rules.specs.Slots.{found_by, key_of};
ghost use Rattle.framehop_unwinder.specs.Attempt.{Attempt, attempt_at};
ghost use Rattle.framehop_unwinder.specs.CacheViews.{rules_of};
ghost use Rattle.framehop_unwinder.specs.Frames.{frame_of};
ghost use Rattle.framehop_unwinder.specs.HitReads.{StepsReading, reads_of_finding, reads_on_hit};
ghost use Rattle.framehop_unwinder.specs.LoadLaws.{asks_alike, fits_alike};
ghost use Rattle.framehop_unwinder.specs.Judge.{by_attempt, judge, judge_at, judged_at};
ghost use Rattle.framehop_unwinder.specs.Memory.{AsksMemory, WantsAt};
ghost use Rattle.framehop_unwinder.specs.Modules.{Loaded, nearest_module, module_found, is_loaded_at, with_loaded, without_loaded};
ghost use Rattle.framehop_unwinder.specs.RulesKept.{FitsLoads, MissKeeps, StepsCache, StepsCacheAt, rule_kept, key_for, with_any};
ghost use Rattle.framehop_rules.specs.UnwindResults.{HasValidRule, KeepsUnlessDirect};
ghost use Rattle.framehop_unwinder.specs.Trials.{AnswersAttempt, StaysUnlessStepped, StepsAs, StepsOver, trial, has_wanted, rule_of_result, wants_memory, IsOfStep};

use crate::cache::Cache;
use crate::module::Module;
use crate::unwinders::Unwinder;
use crate::unwinding::{ModuleUnwinding, UnwindFailure};
use framehop_modules::{Generations, GenerationsExhausted, LoadError};
use framehop_rules::{
    CacheHandle, CacheResult, Error, FrameAddress, RuleCache, UnwindResult, UnwindRule,
};
use std::alloc::{AllocError, Global};
use std::marker::Model;

/// The modules of a process, in the order of their starts. Of modules of equal starts the
/// last loaded comes first.
#[derive(Drop)]
pub struct UnwinderInternal<A: ModuleUnwinding> {
    modules: Vec<Module<A::UnwindData>>,
    generation: u64,
}

impl<A: ModuleUnwinding> Model for UnwinderInternal<A> {
    ghost use Rattle.std.specs.List.Sorted.{IsNonDecreasingBy};
    ghost use Rattle.framehop_unwinder.specs.Modules.{Loaded, Loads};

    ghost Value = { Loads (Loaded A.UnwindData) };

    ghost view = { λ unwinder. record {
      modules = unwinder.modules.items;
      generation = unwinder.generation;
    } };

    ghost invariant = { λ unwinder. IsNonDecreasingBy (λ module_. module_.start)
        unwinder.modules.items };
}

// The last of the modules that start at or below an address.
fn nearest_module<D>(modules: &[Module<D>], address: u64) -> Option<&Module<D>>
    requires { IsNonDecreasingBy (λ module_. module_.start) modules.now }
    ensures none { IfNone result (nearest_module modules.now address ≡ None) }
    ensures some { IfSome result
        (λ module_. nearest_module modules.now address ≡ Some module_.now) }
{
    let index = modules
        .partition_point(|module| module.start() <= address)
        .checked_sub(1)?;
    Some(&modules[index])
}

// The module that an address is in, and the address relative to its base.
fn module_for_address<D>(modules: &[Module<D>], address: u64) -> Option<(&Module<D>, u32)>
    requires { IsNonDecreasingBy (λ module_. module_.start) modules.now }
    ensures none { IfNone result (module_found modules.now address ≡ None) }
    ensures module_ { IfSome result (λ found. module_found modules.now address ≡ Some found.0.now) }
    ensures relative { IfSome result (λ found. found.1 ≡ address - found.0.now.base) }
{
    let module = nearest_module(modules, address)?;
    let relative_address = module.relative_address(address)?;
    Some((module, relative_address))
}

// Where a module with this start goes: before those of an equal or a greater one.
fn place_for<D>(modules: &[Module<D>], start: u64) -> usize
    requires { IsNonDecreasingBy (λ module_. module_.start) modules.now }
    ensures inside { result ≤ length modules.now }
    ensures place { (module_ : Loaded D) → module_.start ≡ start
        → insert modules.now result module_ ≡ with_loaded module_ modules.now }
    ensures order { (module_ : Loaded D) → module_.start ≡ start
        → IsNonDecreasingBy (λ m. m.start) (insert modules.now result module_) }
{
    modules.partition_point(|other| other.start() < start)
}

// Where the last of the modules with this start is.
fn last_with_start<D>(modules: &[Module<D>], start: u64) -> Option<usize>
    requires { IsNonDecreasingBy (λ module_. module_.start) modules.now }
    ensures none { IfNone result (is_loaded_at start modules.now ≡ false) }
    ensures some { IfSome result (λ _. is_loaded_at start modules.now ≡ true) }
    ensures inside { IfSome result (λ index. index < length modules.now) }
    ensures without { IfSome result (λ index. remove modules.now index
        ≡ without_loaded start modules.now) }
    ensures order { IfSome result
        (λ index. IsNonDecreasingBy (λ m. m.start) (remove modules.now index)) }
{
    let index = modules
        .partition_point(|module| module.start() <= start)
        .checked_sub(1)?;
    if modules[index].start() == start {
        Some(index)
    } else {
        None
    }
}

// Clones of the modules, which share what they have.
fn clones_of<D: Drop>(alloc: Global, modules: &[Module<D>]) -> Result<Vec<Module<D>>, AllocError>
    ensures { IfOk result (λ clones. clones.items ≡ modules.now) }
{
    let mut clones = Vec::with_capacity(alloc, modules.len())?;
    for module in modules {
        clones.push(module.try_clone()?)?;
    }
    Ok(clones)
}

// Keeps the rule that a module's answer gives to be kept, if it gives one.
#[inline(always)]
fn keep<R: UnwindRule>(
    cache: &mut RuleCache<R>,
    handle: CacheHandle,
    answer: Result<UnwindResult<R>, UnwindFailure>,
)
    requires { HasValidRule R.is_valid answer }
    ensures layout { cache.new.layout ≡ cache.old.layout }
    ensures sets { cache.new.sets ≡ with_any cache.old.layout cache.old.sets handle
        (rule_of_result R.fallback answer) }
    ensures counts { cache.new.counts ≡ cache.old.counts }
{
    match answer {
        Ok(UnwindResult::ExecRule(rule)) => cache.insert(handle, rule),
        Err(UnwindFailure::OfModule) => cache.insert(handle, R::fallback_rule()),
        Ok(UnwindResult::Uncacheable(_)) => {}
        Err(UnwindFailure::OfFrame | UnwindFailure::OutOfMemory) => {}
    }
}

// Makes the step that a module's answer gives.
#[inline(never)]
#[tactic(auto, using(crate::proofs::Steps::rules_want_none))]
fn execute<A: ModuleUnwinding, F: FnMut(u64) -> Result<u64, ()>>(
    answer: Result<UnwindResult<A::UnwindRule>, UnwindFailure>,
    is_first_frame: bool,
    regs: &mut A::UnwindRegs,
    read_stack: &mut F,
) -> Result<Option<u64>, Error>
    requires valid { HasValidRule A.UnwindRule.is_valid answer }
    requires callable { F.IsAlwaysCallable read_stack.old }
    ensures callable { F.IsAlwaysCallable read_stack.new }
    ensures step { OverWords F.step read_stack.old read_stack.new (λ words. (before : A.UnwindRegs)
        → (attempt : Attempt A.UnwindRule A.UnwindRegs) → has_wanted answer ≡ false
        → (answer, regs.old) ≡ trial before words attempt
        → IsStep result before regs.new (by_attempt A.meanings is_first_frame before words attempt)) }
    ensures stays { (before : A.UnwindRegs) → KeepsUnlessDirect answer before regs.old
        → StaysUnlessAnswered result before regs.new }
    ensures refusals { IfErr result IsOfStep }
    ensures wanted { wants_memory result ≡ has_wanted answer }
{
    match answer {
        Ok(UnwindResult::ExecRule(rule)) => rule.exec(is_first_frame, regs, read_stack),
        Ok(UnwindResult::Uncacheable(return_address)) => Ok(Some(return_address)),
        Err(UnwindFailure::OfModule | UnwindFailure::OfFrame) => {
            A::UnwindRule::fallback_rule().exec(is_first_frame, regs, read_stack)
        }
        Err(UnwindFailure::OutOfMemory) => Err(Error::OutOfMemory),
    }
}

impl<A: ModuleUnwinding> UnwinderInternal<A> {
    /// An unwinder without a module. Takes a generation, and fails if none is left.
    pub fn new(alloc: Global, generations: &mut Generations) -> Result<Self, GenerationsExhausted>
        ensures ok { IfOk result (λ unwinder.
            unwinder ≡ record { modules = []; generation = generations.old }) }
        ensures taken { OnOk result (generations.new ≡ generations.old + 1) }
        ensures refused { OnErr result (generations.old ≡ 2 ^ 64 - 1) }
        ensures same { OnErr result (generations.new ≡ generations.old) }
    {
        let generation = generations.try_take()?;
        Ok(UnwinderInternal::with_generation(alloc, generation))
    }

    /// An unwinder without a module, with this generation.
    pub(crate) fn with_generation(alloc: Global, generation: u64) -> Self
        ensures { result ≡ record { modules = []; generation = generation } }
    {
        UnwinderInternal {
            modules: Vec::new(alloc),
            generation,
        }
    }

    /// The module that an address is in, and the address relative to the module's base.
    pub fn module_at(&self, address: u64) -> Option<(&Module<A::UnwindData>, u32)>
        ensures none { IfNone result (module_found self.now.modules address ≡ None) }
        ensures module_ { IfSome result (λ found.
            module_found self.now.modules address ≡ Some found.0.now) }
        ensures relative { IfSome result (λ found. found.1 ≡ address - found.0.now.base) }
    {
        module_for_address(&self.modules, address)
    }

    // The number that the list of modules is told by.
    fn generation(&self) -> u64
        ensures { result ≡ self.now.generation }
    {
        self.generation
    }

    // What the module that an address is in says of a frame that is looked up by it. Without a
    // module nothing is said.
    fn attempt<F: FnMut(u64) -> Result<u64, ()>>(
        &self,
        address: u64,
        is_first_frame: bool,
        regs: &mut A::UnwindRegs,
        unwind_context: &mut A::UnwindContext,
        read_stack: &mut F,
    ) -> Result<UnwindResult<A::UnwindRule>, UnwindFailure>
        requires { F.IsAlwaysCallable read_stack.old }
        ensures callable { F.IsAlwaysCallable read_stack.new }
        ensures answers { AnswersAttempt F.step read_stack.old read_stack.new regs.old regs.new
            result (attempt_at A.meanings self.now.modules is_first_frame address) }
        ensures valid { HasValidRule A.UnwindRule.is_valid result }
        ensures memory { WantsAt A.takes_memory A.asks_memory self.now.modules is_first_frame
            address (has_wanted result) }
    {
        match self.module_at(address) {
            Some((module, relative_address)) => A::unwind_frame(
                module.unwind_data(),
                relative_address,
                is_first_frame,
                regs,
                unwind_context,
                read_stack,
            ),
            None => Err(UnwindFailure::OfModule),
        }
    }

    // Makes the step from a frame whose rule the cache hasn't, by what the module says that its address is in. It isn't in line with the
    // steps by rules that are found, which are then quicker.
    #[inline(never)]
    fn step_by_module<F: FnMut(u64) -> Result<u64, ()>>(
        &self,
        handle: CacheHandle,
        address: u64,
        is_first: bool,
        regs: &mut A::UnwindRegs,
        cache: &mut Cache<A::UnwindRule, A::UnwindContext>,
        read_stack: &mut F,
    ) -> Result<Option<u64>, Error>
        requires { F.IsAlwaysCallable read_stack.old }
        ensures callable { F.IsAlwaysCallable read_stack.new }
        ensures step { StepsOver F.step read_stack.old read_stack.new
            (judged_at A.meanings self.now is_first address) result regs.old regs.new }
        ensures cache { MissKeeps A.meanings self.now is_first address handle (wants_memory result)
            (rules_of cache.old) (rules_of cache.new) }
        ensures stays { StaysUnlessStepped result regs.old regs.new }
        ensures memory { WantsAt A.takes_memory A.asks_memory self.now.modules is_first
            address (wants_memory result) }
    {
        let unwind_context = &mut cache.unwind_context;
        let answer = self.attempt(address, is_first, regs, unwind_context, read_stack);
        keep(&mut cache.rule_cache, handle, answer);
        execute::<A, F>(answer, is_first, regs, read_stack)
    }

    // Makes the step from a frame that is looked up by an address.
    #[inline(always)]
    #[tactic(auto, using(crate::proofs::Steps::rules_want_none))]
    fn step<F: FnMut(u64) -> Result<u64, ()>>(
        &self,
        address: u64,
        is_first_frame: bool,
        regs: &mut A::UnwindRegs,
        cache: &mut Cache<A::UnwindRule, A::UnwindContext>,
        read_stack: &mut F,
    ) -> Result<Option<u64>, Error>
        requires { F.IsAlwaysCallable read_stack.old }
        ensures callable { F.IsAlwaysCallable read_stack.new }
        ensures step { StepsReading F.step read_stack.old read_stack.new (λ words.
            FitsLoads A.meanings self.now (rules_of cache.old) → StepsAs result regs.old regs.new
            (judge_at A.meanings self.now.modules is_first_frame address regs.old words))
            (reads_of_finding A.UnwindRule.reads is_first_frame regs.old (found_by (rules_of cache.old)
            (key_of address is_first_frame self.now.generation))) }
        ensures cache { StepsCacheAt A.meanings self.now is_first_frame address (wants_memory result)
            (rules_of cache.old) (rules_of cache.new) }
        ensures stays { StaysUnlessStepped result regs.old regs.new }
        ensures memory { WantsAt A.takes_memory A.asks_memory self.now.modules is_first_frame
            address (wants_memory result) }
    {
        match cache
            .rule_cache
            .lookup(address, is_first_frame, self.generation())
        {
            CacheResult::Hit(rule) => rule.exec(is_first_frame, regs, read_stack),
            CacheResult::Miss(handle) => {
                self.step_by_module(handle, address, is_first_frame, regs, cache, read_stack)
            }
        }
    }
}

impl<A: ModuleUnwinding> Unwinder for UnwinderInternal<A> {
    type UnwindRegs = A::UnwindRegs;

    type Cache = Cache<A::UnwindRule, A::UnwindContext>;

    type Module = Module<A::UnwindData>;

    ghost loads = { λ unwinder. unwinder };

    ghost start = { λ module_. module_.start };

    ghost end = { λ module_. module_.end };

    ghost judgment = { λ unwinder.
        judge A.meanings unwinder.modules };

    ghost judge = { judge A.meanings };

    ghost fits = { λ unwinder cache.
        FitsLoads A.meanings unwinder (rules_of cache) };

    ghost reads = { λ unwinder cache.
        reads_on_hit A.UnwindRule.reads unwinder.generation (rules_of cache) };

    ghost takes_memory = { A.takes_memory };

    ghost asks_memory = { λ unwinder frame. AsksMemory A.asks_memory unwinder.modules frame };

    ghost steps_cache = { λ unwinder wanted frame old new.
        StepsCache (rule_kept A.meanings unwinder.modules) (key_for frame unwinder.generation)
        wanted (rules_of old) (rules_of new) };

    ghost judges_loads = { λ unwinder. refl };

    ghost fits_by_loads = { λ one other cache. fits_alike A.meanings one other (rules_of cache) };

    ghost asks_by_loads = { λ one other. asks_alike A.asks_memory one.modules other.modules };

    fn try_clone(&self, alloc: Global) -> Result<Self, AllocError> {
        Ok(UnwinderInternal {
            modules: clones_of(alloc, &self.modules)?,
            generation: self.generation,
        })
    }

    fn add_module(
        &mut self,
        generations: &mut Generations,
        module: Module<A::UnwindData>,
    ) -> Result<(), LoadError<Module<A::UnwindData>>> {
        if generations.left() == 0 {
            return Err(LoadError::GenerationsExhausted(module));
        }
        let index = place_for(&self.modules, module.start());
        match self.modules.insert(index, module) {
            Ok(()) => {
                self.generation = generations.take();
                Ok(())
            }
            Err(failed) => Err(LoadError::OutOfMemory(failed.value)),
        }
    }

    fn remove_module(
        &mut self,
        generations: &mut Generations,
        module_avma_range_start: u64,
    ) -> Result<(), GenerationsExhausted> {
        let Some(index) = last_with_start(&self.modules, module_avma_range_start) else {
            return Ok(());
        };
        self.generation = generations.try_take()?;
        self.modules.remove(index);
        Ok(())
    }

    fn max_known_code_address(&self) -> u64 {
        match self.modules.last() {
            Some(module) => module.end(),
            None => 0,
        }
    }

    #[inline(always)]
    fn unwind_frame<F: FnMut(u64) -> Result<u64, ()>>(
        &self,
        address: FrameAddress,
        regs: &mut A::UnwindRegs,
        cache: &mut Cache<A::UnwindRule, A::UnwindContext>,
        read_stack: &mut F,
    ) -> Result<Option<u64>, Error> {
        let lookup_address = address.address_for_lookup();
        let is_first_frame = !address.is_return_address();
        self.step(lookup_address, is_first_frame, regs, cache, read_stack)
    }
}
