//! One code undone.

ghost use Rattle.std.specs.Prelude.{◌≡◌, ◌+◌, Some, None, IfErr, ℕ};
ghost use Rattle.framehop_errors.specs.declared.pe.PeUnwinderError.TheVariants.{MissingStackData};
ghost use Rattle.framehop_registers.specs.Callback.{OverWords};
ghost use Rattle.framehop_pe_codes.specs.Machine.{above, below, word_or, by_frame, save_base, raised, popped, framed, restored, error_code_size, interrupted, undone, returned};
ghost use Rattle.framehop_pe_codes.specs.MachineViews.{LeavesAs, ReturnsAs, UndoesAs, registers_seen};
ghost use Rattle.framehop_pe_codes.specs.Refusals.{IsOfStack};

use crate::operation::UnwindOperation;
use framehop_errors::PeUnwinderError;
use framehop_registers::x86_64::{Reg, UnwindRegsX86_64};

/// The base of a frame: what offsets of saved registers are counted from.
#[derive(Clone, Copy, Debug)]
pub struct FrameBase {
    /// The frame register of the first info, if it names one.
    pub register: Option<Reg>,
    /// How far the frame register is above the stack pointer that the prolog leaves, in bytes.
    pub offset: u8,
    /// Whether the prolog set the frame register. If it didn't, offsets are counted from the stack pointer.
    pub is_set: bool,
}

// The address a number of bytes above another.
#[inline(always)]
fn above(base: u64, bytes: u64) -> Result<u64, PeUnwinderError>
    ensures sum { result ≡ above base bytes }
    ensures refusal { IfErr result IsOfStack }
{
    base.checked_add(bytes)
        .ok_or(PeUnwinderError::MissingStackData(None))
}

// The address a number of bytes below another.
#[inline(always)]
fn below(base: u64, bytes: u64) -> Result<u64, PeUnwinderError>
    ensures difference { result ≡ below base bytes }
    ensures refusal { IfErr result IsOfStack }
{
    base.checked_sub(bytes)
        .ok_or(PeUnwinderError::MissingStackData(None))
}

// The word at an address, or else an error that tells this address of the word, or none.
#[inline(always)]
fn read_word<F: FnMut(u64) -> Result<u64, ()>>(
    read_stack: &mut F,
    at: u64,
    told: Option<u64>,
) -> Result<u64, PeUnwinderError>
    requires { F.IsAlwaysCallable read_stack.old }
    ensures callable { F.IsAlwaysCallable read_stack.new }
    ensures word { OverWords F.step read_stack.old read_stack.new (λ words.
        result ≡ word_or (MissingStackData told) words at) }
    ensures refusal { IfErr result IsOfStack }
{
    match read_stack(at) {
        Ok(word) => Ok(word),
        Err(()) => Err(PeUnwinderError::MissingStackData(told)),
    }
}

// The stack pointer that the prolog left, by the frame register.
fn by_frame(frame: &FrameBase, regs: &UnwindRegsX86_64) -> Result<u64, PeUnwinderError>
    ensures pointer { result ≡ by_frame frame.now regs.now }
    ensures refusal { IfErr result IsOfStack }
{
    match frame.register {
        Some(register) => below(regs.get(register), u64::from(frame.offset)),
        None => Err(PeUnwinderError::MissingStackData(None)),
    }
}

// What offsets of saved registers are counted from.
fn save_base(frame: &FrameBase, regs: &UnwindRegsX86_64) -> Result<u64, PeUnwinderError>
    ensures base { result ≡ save_base frame.now regs.now }
    ensures refusal { IfErr result IsOfStack }
{
    if frame.is_set {
        by_frame(frame, regs)
    } else {
        Ok(regs.sp())
    }
}

// The stack pointer goes up.
pub(crate) fn raise(regs: &mut UnwindRegsX86_64, bytes: u64) -> Result<(), PeUnwinderError>
    ensures raised { registers_seen result regs.new ≡ raised regs.old bytes }
    ensures refusal { IfErr result IsOfStack }
{
    let sp = above(regs.sp(), bytes)?;
    regs.set_sp(sp);
    Ok(())
}

// A register takes the word at the stack pointer, which then goes up by 8.
pub(crate) fn pop<F: FnMut(u64) -> Result<u64, ()>>(
    told: Option<u64>,
    register: Reg,
    regs: &mut UnwindRegsX86_64,
    read_stack: &mut F,
) -> Result<(), PeUnwinderError>
    requires { F.IsAlwaysCallable read_stack.old }
    ensures callable { F.IsAlwaysCallable read_stack.new }
    ensures popped { LeavesAs F.step read_stack.old read_stack.new result regs.new
        (popped (MissingStackData told) register regs.old) }
    ensures refusal { IfErr result IsOfStack }
{
    let sp = regs.sp();
    let value = read_word(read_stack, sp, told)?;
    let next = above(sp, 8)?;
    regs.set(register, value);
    regs.set_sp(next);
    Ok(())
}

// A register takes the word where the prolog saved it.
fn restore<F: FnMut(u64) -> Result<u64, ()>>(
    frame: &FrameBase,
    register: Reg,
    offset: u32,
    regs: &mut UnwindRegsX86_64,
    read_stack: &mut F,
) -> Result<(), PeUnwinderError>
    requires { F.IsAlwaysCallable read_stack.old }
    ensures callable { F.IsAlwaysCallable read_stack.new }
    ensures restored { LeavesAs F.step read_stack.old read_stack.new result regs.new
        (restored frame.now register offset regs.old) }
    ensures refusal { IfErr result IsOfStack }
{
    let base = save_base(frame, regs)?;
    let at = above(base, u64::from(offset))?;
    let value = read_word(read_stack, at, None)?;
    regs.set(register, value);
    Ok(())
}

// How many bytes an error code has, if there is one.
fn error_code_size(has_error_code: bool) -> u64
    ensures { result ≡ error_code_size has_error_code }
{
    if has_error_code { 8 } else { 0 }
}

// Takes the stack pointer of the code that was interrupted, and answers its address.
fn interrupt<F: FnMut(u64) -> Result<u64, ()>>(
    has_error_code: bool,
    regs: &mut UnwindRegsX86_64,
    read_stack: &mut F,
) -> Result<u64, PeUnwinderError>
    requires { F.IsAlwaysCallable read_stack.old }
    ensures callable { F.IsAlwaysCallable read_stack.new }
    ensures interrupted { ReturnsAs F.step read_stack.old read_stack.new result regs.new
        (interrupted has_error_code regs.old) }
    ensures refusal { IfErr result IsOfStack }
{
    let at = above(regs.sp(), error_code_size(has_error_code))?;
    let to = read_word(read_stack, at, None)?;
    let sp_at = above(at, 24)?;
    let sp = read_word(read_stack, sp_at, None)?;
    regs.set_sp(sp);
    Ok(to)
}

// Sets the stack pointer back by the frame register.
fn set_frame(frame: &FrameBase, regs: &mut UnwindRegsX86_64) -> Result<(), PeUnwinderError>
    ensures framed { registers_seen result regs.new ≡ framed frame.now regs.old }
    ensures refusal { IfErr result IsOfStack }
{
    let sp = by_frame(frame, regs)?;
    regs.set_sp(sp);
    Ok(())
}

// A return: answers the word at the stack pointer, which then goes up by 8.
pub(crate) fn return_to_caller<F: FnMut(u64) -> Result<u64, ()>>(
    regs: &mut UnwindRegsX86_64,
    read_stack: &mut F,
) -> Result<u64, PeUnwinderError>
    requires { F.IsAlwaysCallable read_stack.old }
    ensures callable { F.IsAlwaysCallable read_stack.new }
    ensures returned { ReturnsAs F.step read_stack.old read_stack.new result regs.new
        (returned regs.old) }
    ensures refusal { IfErr result IsOfStack }
{
    let sp = regs.sp();
    let to = read_word(read_stack, sp, Some(sp))?;
    let next = above(sp, 8)?;
    regs.set_sp(next);
    Ok(to)
}

// Undoes one code; answers the address of the code that was interrupted, or `None` to go on.
#[inline(always)]
pub(crate) fn undo<F: FnMut(u64) -> Result<u64, ()>>(
    frame: &FrameBase,
    operation: UnwindOperation,
    regs: &mut UnwindRegsX86_64,
    read_stack: &mut F,
) -> Result<Option<u64>, PeUnwinderError>
    requires { F.IsAlwaysCallable read_stack.old }
    ensures callable { F.IsAlwaysCallable read_stack.new }
    ensures undone { UndoesAs F.step read_stack.old read_stack.new result regs.new
        (undone frame.now operation regs.old) }
    ensures refusal { IfErr result IsOfStack }
{
    match operation {
        UnwindOperation::Push(register) => {
            pop(None, register, regs, read_stack)?;
            Ok(None)
        }
        UnwindOperation::Allocate(bytes) => {
            raise(regs, u64::from(bytes))?;
            Ok(None)
        }
        UnwindOperation::SetFrame => {
            set_frame(frame, regs)?;
            Ok(None)
        }
        UnwindOperation::Save(register, offset) => {
            restore(frame, register, offset, regs, read_stack)?;
            Ok(None)
        }
        UnwindOperation::SaveVector => Ok(None),
        UnwindOperation::MachineFrame(has_error_code) => {
            let to = interrupt(has_error_code, regs, read_stack)?;
            Ok(Some(to))
        }
    }
}
