//! Where a signal interrupted a thread, on Linux.

ghost use Rattle.std.specs.Prelude.{◌≡◌};
ghost use Rattle.core_files.specs.MemoryViews.{word_of};
ghost use Rattle.backtrace_walks.specs.Signals.{context_aarch64, context_x86_64, has_low_byte, interrupted_aarch64, interrupted_x86_64, is_word, returns_x86_64, saved_word, with_saved_lettered, with_saved_numbered, word_above};

use crate::registers::ThreadStart;
use crate::saved::{saved_aarch64, saved_x86_64};
use core_files::Memory;
use framehop_registers::aarch64::{PtrAuthMask, UnwindRegsAarch64};
use framehop_registers::x86_64::{Reg, UnwindRegsX86_64};
use framehop_whole_modules::WholeRegs;

/// The word at a distance above an address.
pub(crate) fn word_above(memory: &Memory<'_, '_>, address: u64, distance: u64) -> Option<u64>
    ensures { result ≡ word_above (word_of memory.now) address distance }
{
    match address.checked_add(distance) {
        Some(at) => memory.word(at),
        None => None,
    }
}

// A register that was pushed at a distance above an address, and 0 if it can't be read.
fn saved_word(memory: &Memory<'_, '_>, address: u64, distance: u64) -> u64
    ensures { result ≡ saved_word (word_of memory.now) address distance }
{
    word_above(memory, address, distance).unwrap_or(0)
}

// Whether a word is known, and is this one.
fn is_word(value: u64, word: Option<u64>) -> bool
    ensures { result ≡ is_word value word }
{
    match word {
        Some(word) => word == value,
        None => false,
    }
}

// Whether a word is known, and has this lowest byte.
fn has_low_byte(value: u64, word: Option<u64>) -> bool
    ensures { result ≡ has_low_byte value word }
{
    match word {
        Some(word) => word % 256 == value,
        None => false,
    }
}

// Whether the code at an address is what handlers return to on x86_64.
fn returns_x86_64(memory: &Memory<'_, '_>, code: u64) -> bool
    ensures { result ≡ returns_x86_64 (word_of memory.now) code }
{
    is_word(0x0f00_0000_0fc0_c748, memory.word(code))
        && has_low_byte(5, word_above(memory, code, 8))
}

// Sets R8 to R15 to those that the kernel pushed.
fn set_saved_numbered(registers: &mut UnwindRegsX86_64, memory: &Memory<'_, '_>, sp: u64)
    ensures { registers.new ≡ with_saved_numbered registers.old (word_of memory.now) sp }
{
    registers.set(Reg::R8, saved_word(memory, sp, 40));
    registers.set(Reg::R9, saved_word(memory, sp, 48));
    registers.set(Reg::R10, saved_word(memory, sp, 56));
    registers.set(Reg::R11, saved_word(memory, sp, 64));
    registers.set(Reg::R12, saved_word(memory, sp, 72));
    registers.set(Reg::R13, saved_word(memory, sp, 80));
    registers.set(Reg::R14, saved_word(memory, sp, 88));
    registers.set(Reg::R15, saved_word(memory, sp, 96));
}

// Sets RDI, RSI, RBX, RDX, RAX and RCX to those that the kernel pushed.
fn set_saved_lettered(registers: &mut UnwindRegsX86_64, memory: &Memory<'_, '_>, sp: u64)
    ensures { registers.new ≡ with_saved_lettered registers.old (word_of memory.now) sp }
{
    registers.set(Reg::RDI, saved_word(memory, sp, 104));
    registers.set(Reg::RSI, saved_word(memory, sp, 112));
    registers.set(Reg::RBX, saved_word(memory, sp, 128));
    registers.set(Reg::RDX, saved_word(memory, sp, 136));
    registers.set(Reg::RAX, saved_word(memory, sp, 144));
    registers.set(Reg::RCX, saved_word(memory, sp, 152));
}

// The registers that the kernel pushed on x86_64.
fn context_x86_64(memory: &Memory<'_, '_>, sp: u64, pc: u64) -> UnwindRegsX86_64
    ensures { result ≡ context_x86_64 (word_of memory.now) sp pc }
{
    let stack_pointer = saved_word(memory, sp, 160);
    let mut registers = UnwindRegsX86_64::new(pc, stack_pointer, saved_word(memory, sp, 120));
    set_saved_numbered(&mut registers, memory, sp);
    set_saved_lettered(&mut registers, memory, sp);
    registers
}

/// Where a thread was that a signal interrupted, by a frame's code address and registers, on x86_64: `None` if its code isn't what
/// handlers return to.
pub(crate) fn interrupted_x86_64(
    memory: &Memory<'_, '_>,
    code: u64,
    registers: &WholeRegs<UnwindRegsX86_64>,
) -> Option<ThreadStart<WholeRegs<UnwindRegsX86_64>>>
    ensures { result ≡ interrupted_x86_64 (word_of memory.now) code registers.now }
{
    if !returns_x86_64(memory, code) {
        return None;
    }
    let sp = registers.regs.sp();
    match word_above(memory, sp, 168) {
        Some(pc) => Some(ThreadStart {
            pc,
            registers: WholeRegs::with_others(
                context_x86_64(memory, sp, pc),
                saved_x86_64(memory, sp),
            ),
        }),
        None => None,
    }
}

// The registers that the kernel pushed on aarch64.
fn context_aarch64(memory: &Memory<'_, '_>, sp: u64, mask: PtrAuthMask) -> UnwindRegsAarch64
    ensures { result ≡ context_aarch64 (word_of memory.now) sp mask }
{
    UnwindRegsAarch64::new_with_ptr_auth_mask(
        mask,
        saved_word(memory, sp, 552),
        saved_word(memory, sp, 560),
        saved_word(memory, sp, 544),
    )
}

/// The same on aarch64.
pub(crate) fn interrupted_aarch64(
    memory: &Memory<'_, '_>,
    code: u64,
    registers: &WholeRegs<UnwindRegsAarch64>,
) -> Option<ThreadStart<WholeRegs<UnwindRegsAarch64>>>
    ensures { result ≡ interrupted_aarch64 (word_of memory.now) code registers.now }
{
    if !is_word(0xd400_0001_d280_1168, memory.word(code)) {
        return None;
    }
    let sp = registers.regs.sp();
    match word_above(memory, sp, 568) {
        Some(pc) => Some(ThreadStart {
            pc,
            registers: WholeRegs::with_others(
                context_aarch64(memory, sp, registers.regs.lr_mask()),
                saved_aarch64(memory, sp),
            ),
        }),
        None => None,
    }
}
