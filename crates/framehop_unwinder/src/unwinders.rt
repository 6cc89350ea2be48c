//! What the unwinders of all architectures have.

ghost use Rattle.std.specs.Prelude.{◌≡◌, ◌≤◌, ◌+◌, ◌-◌, ◌^◌, ℕ, Bool, true, false, List, Option, Ok, Err, None, IfOk, IfErr, IsErr, OnOk, OnErr};
ghost use Rattle.framehop_registers.specs.Callback.{Words, OverWords};
ghost use Rattle.framehop_rules.specs.Outcome.{Outcome, Caller};
ghost use Rattle.framehop_modules.specs.LoadErrors.{module_returned, is_exhausted};
ghost use Rattle.framehop_unwinder.specs.Frames.{Frame, frame_of};
ghost use Rattle.framehop_unwinder.specs.HitReads.{ReadsIfKnown};
ghost use Rattle.framehop_unwinder.specs.Memory.{WantsMemoryOnlyIf};
ghost use Rattle.framehop_unwinder.specs.Modules.{AreOneBook, ChangesNothing, Loads, TakesNumber, with_module, without_module, has_start, last_end};
ghost use Rattle.framehop_unwinder.specs.Trials.{StaysUnlessStepped, StepsAs, wants_memory};
ghost use Rattle.framehop_unwinder.specs.WalkViews.{walk_from, walk_of};

use crate::iterator::UnwindIterator;
use framehop_modules::{Generations, GenerationsExhausted, LoadError};
use framehop_rules::{Error, FrameAddress};
use std::alloc::{AllocError, Global};
use std::fmt::Debug;

/// An unwinder: the modules of a process, and the steps and walks over its stacks.
pub trait Unwinder {
    /// The registers that a step carries.
    type UnwindRegs: Copy + Debug;

    /// What steps keep and reuse.
    type Cache;

    /// A module.
    type Module;

    ghost loads: { Self → Loads Self.Module };

    ghost start: { Self.Module → ℕ };

    ghost end: { Self.Module → ℕ };

    /// What is judged of a step, from the frame, its registers and the words of the stack.
    ghost judgment: { Self → Frame → Self.UnwindRegs → Words → Outcome (Caller Self.UnwindRegs) };

    /// What is judged of a step by modules alone.
    ghost judge: { List Self.Module → Frame → Self.UnwindRegs → Words → Outcome (Caller Self.UnwindRegs) };

    /// The cache holds what the unwinder would keep.
    ghost fits: { Self → Self.Cache → Type 0 };

    /// What a step from a frame with these registers reads, by the words of the stack, if the cache has
    /// its rule.
    ghost reads: { Self → Self.Cache → Frame → Self.UnwindRegs → Option (Words → List ℕ) };

    /// Whether a step may take memory.
    ghost takes_memory: { Bool };

    /// The frames from which one may.
    ghost asks_memory: { Self → Frame → Type 0 };

    /// What a step from a frame leaves in the cache: from whether the step is out of memory, the
    /// frame, and the cache before and after it.
    ghost steps_cache: { Self → Bool → Frame → Self.Cache → Self.Cache → Type 0 };

    /// Loads a module, and takes a generation. An error has the module, and nothing changes then.
    fn add_module(
        &mut self,
        generations: &mut Generations,
        module: Self::Module,
    ) -> Result<(), LoadError<Self::Module>>
        ensures modules { OnOk result ((loads self.new).modules
            ≡ with_module start «module» (loads self.old).modules) }
        ensures number { TakesNumber result (loads self.new) generations.old generations.new }
        ensures exhausted { 2 ^ 64 - 1 ≤ generations.old
            → result ≡ Err (LoadError.GenerationsExhausted «module») }
        ensures only { IfErr result (λ error. is_exhausted error ≡ true
            → generations.old ≡ 2 ^ 64 - 1) }
        ensures returned { IfErr result (λ error. module_returned error ≡ «module») }
        ensures failure { ChangesNothing result self.old self.new
            generations.old generations.new };

    /// Unloads the last of the modules that start at an address, and takes a generation. If none
    /// starts there, or if it fails, nothing changes.
    fn remove_module(
        &mut self,
        generations: &mut Generations,
        module_avma_range_start: u64,
    ) -> Result<(), GenerationsExhausted>
        ensures unknown { has_start start module_avma_range_start (loads self.old).modules ≡ false
            → (result ≡ Ok tt) × (self.new ≡ self.old) × (generations.new ≡ generations.old) }
        ensures modules { OnOk result ((loads self.new).modules
            ≡ without_module start module_avma_range_start (loads self.old).modules) }
        ensures number { has_start start module_avma_range_start (loads self.old).modules ≡ true
            → TakesNumber result (loads self.new) generations.old generations.new }
        ensures exhausted { has_start start module_avma_range_start (loads self.old).modules ≡ true
            → 2 ^ 64 - 1 ≤ generations.old → IsErr result }
        ensures refused { OnErr result (generations.old ≡ 2 ^ 64 - 1) }
        ensures failure { ChangesNothing result self.old self.new
            generations.old generations.new };

    /// The end of the last module, else 0.
    fn max_known_code_address(&self) -> u64
        ensures { result ≡ last_end end (loads self.now).modules };

    /// An unwinder with the same modules and the same generation.
    fn try_clone(&self, alloc: Global) -> Result<Self, AllocError>
    where
        Self: Sized,
        ensures { IfOk result (λ unwinder. unwinder ≡ self.now) };

    /// Makes the step from a frame with these registers: returns the return address and leaves the
    /// caller's registers, or returns `None` at the end of the stack. `None` and an error leave the
    /// registers as they were. `read_stack` reads a word of the stack at an address.
    ///
    /// Through a cache that fits the unwinder the step is the one without a cache. The cache goes on
    /// fitting all unwinders that it fitted, if those of the generation of this one have its modules.
    /// Where the cache has the rule of the step, no word is read but those that the rule names, each once.
    fn unwind_frame<F: FnMut(u64) -> Result<u64, ()>>(
        &self,
        address: FrameAddress,
        regs: &mut Self::UnwindRegs,
        cache: &mut Self::Cache,
        read_stack: &mut F,
    ) -> Result<Option<u64>, Error>
        requires { F.IsAlwaysCallable read_stack.old }
        ensures callable { F.IsAlwaysCallable read_stack.new }
        ensures step { OverWords F.step read_stack.old read_stack.new (λ words.
            fits self.now cache.old → StepsAs result regs.old regs.new
            (judgment self.now (frame_of address) regs.old words)) }
        ensures order { ReadsIfKnown F.step read_stack.old read_stack.new
            (reads self.now cache.old (frame_of address) regs.old) }
        ensures cache { steps_cache self.now (wants_memory result) (frame_of address)
            cache.old cache.new }
        ensures fits { (other : Self) → AreOneBook (loads self.now) (loads other)
            → fits other cache.old → fits other cache.new }
        ensures stays { StaysUnlessStepped result regs.old regs.new }
        ensures memory { WantsMemoryOnlyIf takes_memory (wants_memory result)
            (asks_memory self.now (frame_of address)) };

    /// What is judged of a step depends on the modules that are loaded alone.
    ghost judges_loads: { (unwinder : Self) → judgment unwinder ≡ judge (loads unwinder).modules };

    /// Which caches fit depends on the modules and their generation alone.
    ghost fits_by_loads: { (one other : Self) (cache : Self.Cache) → loads one ≡ loads other
        → fits one cache → fits other cache };

    /// The frames from which a step may take memory depend on the modules alone.
    ghost asks_by_loads: { (one other : Self) (frame : Frame) → (loads one).modules ≡ (loads other).modules
        → asks_memory one frame → asks_memory other frame };

    /// A walk from a frame at the instruction pointer `pc` with these registers.
    final fn iter_frames<'u, 'c, 'r, F: FnMut(u64) -> Result<u64, ()>>(
        &'u self,
        pc: u64,
        regs: Self::UnwindRegs,
        cache: &'c mut Self::Cache,
        read_stack: &'r mut F,
    ) -> UnwindIterator<'u, 'c, 'r, Self, F>
    where
        Self: Sized,
        ensures unwinder { result.unwinder.now ≡ self.now }
        ensures walk { walk_of result.walk ≡ walk_from pc regs }
        ensures cache { result.cache ≡ cache.entry }
        ensures stack { result.stack ≡ read_stack.entry }
    {
        UnwindIterator::new(self, pc, regs, cache, read_stack)
    }
}
