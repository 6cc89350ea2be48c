//! Architectures, by how cores state the registers of their threads.

ghost use Rattle.std.specs.Prelude.{◌≡◌};
ghost use Rattle.backtrace_files.specs.Results.{IfOkAre};
ghost use Rattle.backtrace_text.specs.FrameViews.{register_view};
ghost use Rattle.core_files.specs.MemoryViews.{word_of};
ghost use Rattle.backtrace_walks.specs.StackMeanings.{StackMeanings};
ghost use Rattle.framehop_whole_steps.specs.declared.registers.WholeRegs.{WholeRegs};
ghost use Rattle.framehop_whole_steps.specs.declared.rule.WholeRule.{WholeRule};

use crate::calls::{CallSite, called_aarch64, called_x86_64};
use crate::registers::{ThreadStart, shown_aarch64, shown_x86_64, whole_aarch64, whole_x86_64};
use crate::signals::{interrupted_aarch64, interrupted_x86_64};
use backtrace_text::RegisterValue;
use core_files::{Memory, Thread, ThreadRegisters};
use framehop::{ModuleUnwinding, MustNotAllocateDuringUnwind, Unwinding};
use framehop_registers::aarch64::UnwindRegsAarch64;
use framehop_registers::x86_64::UnwindRegsX86_64;
use framehop_rules::aarch64::ArchAarch64;
use framehop_rules::x86_64::ArchX86_64;
use framehop_whole_modules::{ByWholeRows, CarriesRegisters, WholeRegs};
use std::alloc::{AllocError, Global};

/// An architecture, by how a core states the registers of its threads, and by which of a frame's are shown.
pub trait ThreadArch: Unwinding + CarriesRegisters {
    /// What the stacks of its threads mean.
    ghost stacks: { StackMeanings (WholeRule Self.UnwindRule) (WholeRegs Self.UnwindRegs) };

    /// Where the walk over a thread's stack begins, if the thread's registers are this architecture's.
    fn start_of(thread: &Thread) -> Option<ThreadStart<WholeRegs<Self::UnwindRegs>>>
        ensures { result ≡ stacks.start thread.now };

    /// Where a thread was that a signal interrupted, by a frame's code address and registers: `None` if its code isn't what
    /// handlers return to.
    fn interrupted(
        memory: &Memory<'_, '_>,
        code: u64,
        registers: &WholeRegs<Self::UnwindRegs>,
    ) -> Option<ThreadStart<WholeRegs<Self::UnwindRegs>>>
        ensures { result ≡ stacks.interrupted (word_of memory.now) code registers.now };

    /// Where the call was made that led to a frame whose function has done nothing yet.
    fn called(
        memory: &Memory<'_, '_>,
        registers: &WholeRegs<Self::UnwindRegs>,
    ) -> Option<CallSite<WholeRegs<Self::UnwindRegs>>>
        ensures { result ≡ stacks.called (word_of memory.now) registers.now };

    /// The registers of a frame that are shown.
    fn shown_registers(
        alloc: Global,
        registers: &WholeRegs<Self::UnwindRegs>,
    ) -> Result<Vec<RegisterValue>, AllocError>
        ensures { IfOkAre register_view result (stacks.shown registers.now) };

    /// Steps go by what the sections of files mean, and don't allocate.
    ghost steps_are: { stacks.steps ≡ ⟦<FileModules<'static, Self> as ModuleUnwinding>⟧.meanings };
}

impl ThreadArch for ArchX86_64 {
    ghost use Rattle.std.specs.Prelude.{refl};
    ghost use Rattle.backtrace_walks.specs.StackMeanings.{stacks_x86_64};

    ghost stacks = { stacks_x86_64 };

    fn start_of(thread: &Thread) -> Option<ThreadStart<WholeRegs<UnwindRegsX86_64>>> {
        match &thread.registers {
            ThreadRegisters::X86_64(user) => Some(ThreadStart {
                pc: user.rip,
                registers: whole_x86_64(user),
            }),
            ThreadRegisters::Aarch64(_) => None,
        }
    }

    fn interrupted(
        memory: &Memory<'_, '_>,
        code: u64,
        registers: &WholeRegs<UnwindRegsX86_64>,
    ) -> Option<ThreadStart<WholeRegs<UnwindRegsX86_64>>> {
        interrupted_x86_64(memory, code, registers)
    }

    fn called(
        memory: &Memory<'_, '_>,
        registers: &WholeRegs<UnwindRegsX86_64>,
    ) -> Option<CallSite<WholeRegs<UnwindRegsX86_64>>> {
        called_x86_64(memory, registers)
    }

    fn shown_registers(
        alloc: Global,
        registers: &WholeRegs<UnwindRegsX86_64>,
    ) -> Result<Vec<RegisterValue>, AllocError> {
        shown_x86_64(alloc, &registers.regs)
    }

    ghost steps_are = { refl };
}

impl ThreadArch for ArchAarch64 {
    ghost use Rattle.std.specs.Prelude.{refl};
    ghost use Rattle.backtrace_walks.specs.StackMeanings.{stacks_aarch64};

    ghost stacks = { stacks_aarch64 };

    fn start_of(thread: &Thread) -> Option<ThreadStart<WholeRegs<UnwindRegsAarch64>>> {
        match &thread.registers {
            ThreadRegisters::Aarch64(user) => Some(ThreadStart {
                pc: user.pc,
                registers: whole_aarch64(user, thread.pointer_authentication_masks),
            }),
            ThreadRegisters::X86_64(_) => None,
        }
    }

    fn interrupted(
        memory: &Memory<'_, '_>,
        code: u64,
        registers: &WholeRegs<UnwindRegsAarch64>,
    ) -> Option<ThreadStart<WholeRegs<UnwindRegsAarch64>>> {
        interrupted_aarch64(memory, code, registers)
    }

    fn called(
        _memory: &Memory<'_, '_>,
        registers: &WholeRegs<UnwindRegsAarch64>,
    ) -> Option<CallSite<WholeRegs<UnwindRegsAarch64>>> {
        called_aarch64(registers)
    }

    fn shown_registers(
        alloc: Global,
        registers: &WholeRegs<UnwindRegsAarch64>,
    ) -> Result<Vec<RegisterValue>, AllocError> {
        shown_aarch64(alloc, &registers.regs)
    }

    ghost steps_are = { refl };
}

/// Modules of an architecture that are unwound by the sections of files, which are read in place, and whose rows say what DWARF says. No
/// step allocates.
pub type FileModules<'a, A> = ByWholeRows<A, &'a [u8], MustNotAllocateDuringUnwind>;
