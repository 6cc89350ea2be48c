//! Architectures, by the registers that samples have.

ghost use Rattle.std.specs.Prelude.{◌≡◌, ◌<◌};
ghost use Rattle.sample_stacks.specs.StackCopies.{copied_words};
ghost use Rattle.sample_stacks.specs.SampleMeanings.{SampleMeanings, pointer_by, register_or_0, registers_aarch64, registers_x86_64, start_of_aarch64, start_of_x86_64, with_lettered, with_numbered};

use crate::signals::{
    has_context_aarch64, has_context_x86_64, interrupted_aarch64, interrupted_x86_64,
};
use crate::stack_copy::StackCopy;
use framehop::{BySections, ModuleUnwinding, MustNotAllocateDuringUnwind, Unwinding};
use framehop_registers::aarch64::{PtrAuthMask, UnwindRegsAarch64};
use framehop_registers::x86_64::{Reg, UnwindRegsX86_64};
use framehop_rules::aarch64::ArchAarch64;
use framehop_rules::x86_64::ArchX86_64;
use perf_files::{RegisterAbi, SavedRegisters};

/// Where the walk of a sample begins.
#[derive(Clone, Copy, Debug)]
pub struct SampleStart<R> {
    /// The instruction pointer.
    pub instruction_pointer: u64,
    /// The stack pointer, where the copied part of the stack begins.
    pub stack_pointer: u64,
    /// The registers there.
    pub registers: R,
}

/// Modules of an architecture that are unwound by sections that are read in place. No step allocates.
pub type SampleModules<'a, A> = BySections<A, &'a [u8], MustNotAllocateDuringUnwind>;

/// An architecture, by the registers that samples have.
pub trait SampleArch: Unwinding {
    /// What the samples mean.
    ghost samples: { SampleMeanings Self.UnwindRule Self.UnwindRegs };

    /// Where the walk of a sample begins: none if its registers aren't those of code of 64 bits, or have no instruction or stack
    /// pointer. Registers that weren't recorded are 0.
    fn start_of(registers: &SavedRegisters<'_>) -> Option<SampleStart<Self::UnwindRegs>>
        ensures { result ≡ samples.start registers.now };

    /// The instruction pointer of code of 32 bits: none if the registers are of other code, or have none.
    fn pointer_of_32_bits(registers: &SavedRegisters<'_>) -> Option<u64>
        ensures { result ≡ samples.pointer_of_32_bits registers.now };

    /// Whether there may be, at the stack pointer, what the kernel pushes for a signal.
    fn has_context(copy: &StackCopy<'_>, registers: &Self::UnwindRegs) -> bool
        ensures { result ≡ samples.has_context (copied_words copy.now) registers.now };

    /// Where a thread was that a signal interrupted, by the code of a frame from its address on, and by its registers: none if handlers
    /// don't return to such code.
    fn interrupted(
        copy: &StackCopy<'_>,
        code: &[u8],
        registers: &Self::UnwindRegs,
    ) -> Option<SampleStart<Self::UnwindRegs>>
        ensures { result ≡ samples.interrupted (copied_words copy.now) code.now registers.now };

    /// Steps go by what the sections of files mean, and don't allocate.
    ghost steps_are: { samples.steps ≡ ⟦<SampleModules<'static, Self> as ModuleUnwinding>⟧.meanings };
}

// A register by the kernel's number, and 0 if it wasn't recorded.
fn register_or_0(registers: &SavedRegisters<'_>, number: u32) -> u64
    requires { number < 64 }
    ensures { result ≡ register_or_0 registers.now number }
{
    registers.register(number).unwrap_or(0)
}

// The instruction pointer of code of 32 bits, by the kernel's number.
fn pointer_by(registers: &SavedRegisters<'_>, number: u32) -> Option<u64>
    requires { number < 64 }
    ensures { result ≡ pointer_by number registers.now }
{
    let RegisterAbi::Bits32 = registers.abi else {
        return None;
    };
    registers.register(number)
}

// Sets RAX, RDX, RCX, RBX, RSI and RDI to those of a sample.
fn set_lettered(registers: &mut UnwindRegsX86_64, saved: &SavedRegisters<'_>)
    ensures { registers.new ≡ with_lettered registers.old saved.now }
{
    registers.set(Reg::RAX, register_or_0(saved, 0));
    registers.set(Reg::RDX, register_or_0(saved, 3));
    registers.set(Reg::RCX, register_or_0(saved, 2));
    registers.set(Reg::RBX, register_or_0(saved, 1));
    registers.set(Reg::RSI, register_or_0(saved, 4));
    registers.set(Reg::RDI, register_or_0(saved, 5));
}

// Sets R8 to R15 to those of a sample.
fn set_numbered(registers: &mut UnwindRegsX86_64, saved: &SavedRegisters<'_>)
    ensures { registers.new ≡ with_numbered registers.old saved.now }
{
    registers.set(Reg::R8, register_or_0(saved, 16));
    registers.set(Reg::R9, register_or_0(saved, 17));
    registers.set(Reg::R10, register_or_0(saved, 18));
    registers.set(Reg::R11, register_or_0(saved, 19));
    registers.set(Reg::R12, register_or_0(saved, 20));
    registers.set(Reg::R13, register_or_0(saved, 21));
    registers.set(Reg::R14, register_or_0(saved, 22));
    registers.set(Reg::R15, register_or_0(saved, 23));
}

// The registers of a sample on x86_64.
fn registers_x86_64(
    saved: &SavedRegisters<'_>,
    instruction_pointer: u64,
    stack_pointer: u64,
) -> UnwindRegsX86_64
    ensures { result ≡ registers_x86_64 saved.now instruction_pointer stack_pointer }
{
    let frame_pointer = register_or_0(saved, 6);
    let mut registers = UnwindRegsX86_64::new(instruction_pointer, stack_pointer, frame_pointer);
    set_lettered(&mut registers, saved);
    set_numbered(&mut registers, saved);
    registers
}

// The bits of a code address of user code on Linux: pointer authentication codes are above them.
const ADDRESS_BITS: u64 = 0xffff_ffff_ffff;

// The registers of a sample on aarch64.
fn registers_aarch64(saved: &SavedRegisters<'_>, stack_pointer: u64) -> UnwindRegsAarch64
    ensures { result ≡ registers_aarch64 saved.now stack_pointer }
{
    let mask = PtrAuthMask(ADDRESS_BITS);
    let link_register = register_or_0(saved, 30);
    let frame_pointer = register_or_0(saved, 29);
    UnwindRegsAarch64::new_with_ptr_auth_mask(mask, link_register, stack_pointer, frame_pointer)
}

impl SampleArch for ArchX86_64 {
    ghost use Rattle.std.specs.Prelude.{refl};
    ghost use Rattle.sample_stacks.specs.SampleMeanings.{samples_x86_64};

    ghost samples = { samples_x86_64 };

    fn start_of(registers: &SavedRegisters<'_>) -> Option<SampleStart<UnwindRegsX86_64>> {
        match registers.start_x86_64() {
            Some(start) => Some(SampleStart {
                instruction_pointer: start.instruction_pointer,
                stack_pointer: start.stack_pointer,
                registers: registers_x86_64(
                    registers,
                    start.instruction_pointer,
                    start.stack_pointer,
                ),
            }),
            None => None,
        }
    }

    fn pointer_of_32_bits(registers: &SavedRegisters<'_>) -> Option<u64> {
        pointer_by(registers, 8)
    }

    fn has_context(copy: &StackCopy<'_>, registers: &UnwindRegsX86_64) -> bool {
        has_context_x86_64(copy, registers)
    }

    fn interrupted(
        copy: &StackCopy<'_>,
        code: &[u8],
        registers: &UnwindRegsX86_64,
    ) -> Option<SampleStart<UnwindRegsX86_64>> {
        interrupted_x86_64(copy, code, registers)
    }

    ghost steps_are = { refl };
}

impl SampleArch for ArchAarch64 {
    ghost use Rattle.std.specs.Prelude.{refl};
    ghost use Rattle.sample_stacks.specs.SampleMeanings.{samples_aarch64};

    ghost samples = { samples_aarch64 };

    fn start_of(registers: &SavedRegisters<'_>) -> Option<SampleStart<UnwindRegsAarch64>> {
        match registers.start_aarch64() {
            Some(start) => Some(SampleStart {
                instruction_pointer: start.instruction_pointer,
                stack_pointer: start.stack_pointer,
                registers: registers_aarch64(registers, start.stack_pointer),
            }),
            None => None,
        }
    }

    fn pointer_of_32_bits(registers: &SavedRegisters<'_>) -> Option<u64> {
        pointer_by(registers, 32)
    }

    fn has_context(copy: &StackCopy<'_>, registers: &UnwindRegsAarch64) -> bool {
        has_context_aarch64(copy, registers)
    }

    fn interrupted(
        copy: &StackCopy<'_>,
        code: &[u8],
        registers: &UnwindRegsAarch64,
    ) -> Option<SampleStart<UnwindRegsAarch64>> {
        interrupted_aarch64(copy, code, registers)
    }

    ghost steps_are = { refl };
}
