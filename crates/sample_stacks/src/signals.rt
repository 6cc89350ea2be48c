//! Where a signal interrupted a thread, on Linux.

ghost use Rattle.std.specs.Prelude.{◌≡◌, ◌<◌};
ghost use Rattle.sample_stacks.specs.Signals.{context_x86_64, has_context_aarch64, has_context_above, has_context_x86_64, interrupted_aarch64, interrupted_start_aarch64, interrupted_start_x86_64, interrupted_x86_64, is_word_below, returns_aarch64, returns_x86_64, saved_word, with_saved_lettered, with_saved_numbered, word_above};
ghost use Rattle.sample_stacks.specs.StackCopies.{copied_words};

use crate::arch::SampleStart;
use crate::stack_copy::StackCopy;
use framehop_registers::aarch64::UnwindRegsAarch64;
use framehop_registers::x86_64::{Reg, UnwindRegsX86_64};

// The word at a distance above an address.
fn word_above(copy: &StackCopy<'_>, address: u64, distance: u64) -> Option<u64>
    ensures { result ≡ word_above (copied_words copy.now) address distance }
{
    match address.checked_add(distance) {
        Some(at) => copy.word(at),
        None => None,
    }
}

// A register that was pushed at a distance above an address, and 0 if it can't be read.
fn saved_word(copy: &StackCopy<'_>, address: u64, distance: u64) -> u64
    ensures { result ≡ saved_word (copied_words copy.now) address distance }
{
    word_above(copy, address, distance).unwrap_or(0)
}

// Whether a word is known, and is below this number.
fn is_word_below(most: u64, word: Option<u64>) -> bool
    ensures { result ≡ is_word_below most word }
{
    match word {
        Some(word) => word < most,
        None => false,
    }
}

// Whether what is so far above an address may be a context that the kernel pushed.
fn has_context_above(copy: &StackCopy<'_>, address: u64, distance: u64) -> bool
    requires { distance < 1000 }
    ensures { result ≡ has_context_above (copied_words copy.now) address distance }
{
    is_word_below(8, word_above(copy, address, distance))
        && is_word_below(1, word_above(copy, address, distance + 8))
}

/// Whether what is at the stack pointer may be a context that the kernel pushed, on x86_64.
pub(crate) fn has_context_x86_64(copy: &StackCopy<'_>, registers: &UnwindRegsX86_64) -> bool
    ensures { result ≡ has_context_x86_64 (copied_words copy.now) registers.now }
{
    has_context_above(copy, registers.sp(), 0)
}

/// The same on aarch64, behind what it says of the signal.
pub(crate) fn has_context_aarch64(copy: &StackCopy<'_>, registers: &UnwindRegsAarch64) -> bool
    ensures { result ≡ has_context_aarch64 (copied_words copy.now) registers.now }
{
    has_context_above(copy, registers.sp(), 128)
}

// Whether handlers return to this code on x86_64.
fn returns_x86_64(code: &[u8]) -> bool
    ensures { result ≡ returns_x86_64 code.now }
{
    code.starts_with(&[0x48, 0xc7, 0xc0, 0x0f, 0, 0, 0, 0x0f, 0x05])
}

// Sets R8 to R15 to those that the kernel pushed.
fn set_saved_numbered(registers: &mut UnwindRegsX86_64, copy: &StackCopy<'_>, sp: u64)
    ensures { registers.new ≡ with_saved_numbered registers.old (copied_words copy.now) sp }
{
    registers.set(Reg::R8, saved_word(copy, sp, 40));
    registers.set(Reg::R9, saved_word(copy, sp, 48));
    registers.set(Reg::R10, saved_word(copy, sp, 56));
    registers.set(Reg::R11, saved_word(copy, sp, 64));
    registers.set(Reg::R12, saved_word(copy, sp, 72));
    registers.set(Reg::R13, saved_word(copy, sp, 80));
    registers.set(Reg::R14, saved_word(copy, sp, 88));
    registers.set(Reg::R15, saved_word(copy, sp, 96));
}

// Sets RDI, RSI, RBX, RDX, RAX and RCX to those that the kernel pushed.
fn set_saved_lettered(registers: &mut UnwindRegsX86_64, copy: &StackCopy<'_>, sp: u64)
    ensures { registers.new ≡ with_saved_lettered registers.old (copied_words copy.now) sp }
{
    registers.set(Reg::RDI, saved_word(copy, sp, 104));
    registers.set(Reg::RSI, saved_word(copy, sp, 112));
    registers.set(Reg::RBX, saved_word(copy, sp, 128));
    registers.set(Reg::RDX, saved_word(copy, sp, 136));
    registers.set(Reg::RAX, saved_word(copy, sp, 144));
    registers.set(Reg::RCX, saved_word(copy, sp, 152));
}

// The registers that the kernel pushed on x86_64.
fn context_x86_64(copy: &StackCopy<'_>, sp: u64, ip: u64) -> UnwindRegsX86_64
    ensures { result ≡ context_x86_64 (copied_words copy.now) sp ip }
{
    let frame_pointer = saved_word(copy, sp, 120);
    let mut registers = UnwindRegsX86_64::new(ip, saved_word(copy, sp, 160), frame_pointer);
    set_saved_numbered(&mut registers, copy, sp);
    set_saved_lettered(&mut registers, copy, sp);
    registers
}

// Where a walk begins anew on x86_64, at this instruction pointer.
fn interrupted_start_x86_64(copy: &StackCopy<'_>, sp: u64, ip: u64) -> SampleStart<UnwindRegsX86_64>
    ensures { result ≡ interrupted_start_x86_64 (copied_words copy.now) sp ip }
{
    SampleStart {
        instruction_pointer: ip,
        stack_pointer: saved_word(copy, sp, 160),
        registers: context_x86_64(copy, sp, ip),
    }
}

/// Where a thread was that a signal interrupted, by the code of a frame and its registers, on x86_64: `None` if handlers don't return
/// to such code.
pub(crate) fn interrupted_x86_64(
    copy: &StackCopy<'_>,
    code: &[u8],
    registers: &UnwindRegsX86_64,
) -> Option<SampleStart<UnwindRegsX86_64>>
    ensures { result ≡ interrupted_x86_64 (copied_words copy.now) code.now registers.now }
{
    if !returns_x86_64(code) {
        return None;
    }
    let sp = registers.sp();
    match word_above(copy, sp, 168) {
        Some(ip) => Some(interrupted_start_x86_64(copy, sp, ip)),
        None => None,
    }
}

// Whether handlers return to this code on aarch64.
fn returns_aarch64(code: &[u8]) -> bool
    ensures { result ≡ returns_aarch64 code.now }
{
    code.starts_with(&[0x68, 0x11, 0x80, 0xd2, 0x01, 0, 0, 0xd4])
}

// Where a walk begins anew on aarch64, at this instruction pointer.
fn interrupted_start_aarch64(
    copy: &StackCopy<'_>,
    registers: &UnwindRegsAarch64,
    ip: u64,
) -> SampleStart<UnwindRegsAarch64>
    ensures { result ≡ interrupted_start_aarch64 (copied_words copy.now) registers.now ip }
{
    let sp = registers.sp();
    let stack_pointer = saved_word(copy, sp, 560);
    SampleStart {
        instruction_pointer: ip,
        stack_pointer,
        registers: UnwindRegsAarch64::new_with_ptr_auth_mask(
            registers.lr_mask(),
            saved_word(copy, sp, 552),
            stack_pointer,
            saved_word(copy, sp, 544),
        ),
    }
}

/// The same on aarch64.
pub(crate) fn interrupted_aarch64(
    copy: &StackCopy<'_>,
    code: &[u8],
    registers: &UnwindRegsAarch64,
) -> Option<SampleStart<UnwindRegsAarch64>>
    ensures { result ≡ interrupted_aarch64 (copied_words copy.now) code.now registers.now }
{
    if !returns_aarch64(code) {
        return None;
    }
    match word_above(copy, registers.sp(), 568) {
        Some(ip) => Some(interrupted_start_aarch64(copy, registers, ip)),
        None => None,
    }
}
