//! What the modules of an architecture say of a frame.

ghost use Rattle.std.specs.Prelude.{◌≡◌, ℕ, Bool};
ghost use Rattle.framehop_unwinder.specs.Attempt.{Meanings};
ghost use Rattle.framehop_unwinder.specs.Memory.{WantsMemoryOnlyIf};
ghost use Rattle.framehop_rules.specs.UnwindResults.{HasValidRule};
ghost use Rattle.framehop_unwinder.specs.Trials.{AnswersAttempt, has_wanted};

use framehop_rules::{Arch, UnwindResult};
use std::alloc::{AllocError, Global};
use std::fmt::Debug;

/// Why a module says nothing of a frame. The fallback rule is executed then, unless the step is out
/// of memory.
#[derive(Debug, Clone, Copy, PartialEq, Eq)]
pub enum UnwindFailure {
    /// The module says nothing of the address, for all registers and words of the stack. The
    /// fallback rule is kept.
    OfModule,
    /// What the module says gives nothing for these registers and words. Nothing is kept.
    OfFrame,
    /// Out of memory, and so is the step.
    OutOfMemory,
}

/// An architecture, and what its modules are unwound by.
pub trait ModuleUnwinding: Arch {
    /// What a module has to be unwound by: sections, tables, indexes.
    type UnwindData: Drop;

    /// Room that attempts reuse from step to step. No answer depends on what was left in it.
    type UnwindContext: Drop;

    /// What steps go by: the meanings of the rules, the fallback rule, and what a module with this
    /// data says of a frame.
    ghost meanings: { Meanings Self.UnwindData Self.UnwindRule Self.UnwindRegs };

    /// Whether an attempt may take memory.
    ghost takes_memory: { Bool };

    /// The modules' data, relative addresses and kinds of frames for which one may.
    ghost asks_memory: { Self.UnwindData → ℕ → Bool → Type 0 };

    /// New room for attempts. Fails if it fails to allocate.
    fn unwind_context(alloc: Global) -> Result<Self::UnwindContext, AllocError>;

    /// What a module says of a frame at an address relative to the module's base: a rule, or the
    /// return address, with the registers of the caller; or why it says nothing, with the registers
    /// as they were.
    fn unwind_frame<F: FnMut(u64) -> Result<u64, ()>>(
        unwind_data: &Self::UnwindData,
        relative_address: u32,
        is_first_frame: bool,
        regs: &mut Self::UnwindRegs,
        unwind_context: &mut Self::UnwindContext,
        read_stack: &mut F,
    ) -> Result<UnwindResult<Self::UnwindRule>, UnwindFailure>
        requires { F.IsAlwaysCallable read_stack.old }
        ensures callable { F.IsAlwaysCallable read_stack.new }
        ensures answers { AnswersAttempt F.step read_stack.old read_stack.new regs.old regs.new
            result (meanings.attempt unwind_data.now relative_address is_first_frame) }
        ensures valid { HasValidRule Self.UnwindRule.is_valid result }
        ensures memory { WantsMemoryOnlyIf takes_memory (has_wanted result)
            (asks_memory unwind_data.now relative_address is_first_frame) };

    ghost meaning_is: { meanings.meaning ≡ Self.UnwindRule.meaning };

    ghost fallback_is: { meanings.fallback ≡ Self.UnwindRule.fallback };
}
