//! Runs of epilogs.

ghost use Rattle.std.specs.Prelude.{◌≡◌, ◌≤◌, ◌<◌, pos, ◌+ℤ◌, true, false, [], length, Some, None, IfSome, IsSome, IfErr, OnErr};
ghost use Rattle.framehop_registers.specs.Callback.{OverWords};
ghost use Rattle.framehop_pe_codes.specs.Epilogs.{is_empty, pops_of, pop_of};
ghost use Rattle.framehop_pe_codes.specs.EpilogRuns.{moved, adjusted};
ghost use Rattle.framehop_pe_codes.specs.EpilogViews.{IsPoppedFirst, OverPops};
ghost use Rattle.framehop_pe_codes.specs.MachineViews.{registers_seen};
ghost use Rattle.framehop_pe_codes.specs.Refusals.{IsOfStack};
ghost use Rattle.framehop_pe_codes.specs.StepViews.{RunsPops, StepsByEpilog};

use crate::code::bytes_after;
use crate::epilog::{Epilog, SpAdjustment, pop_of};
use crate::machine::{pop, raise, return_to_caller};
use framehop_errors::PeUnwinderError;
use framehop_registers::x86_64::{Reg, UnwindRegsX86_64};

// Whether no bytes are left.
fn is_empty(bytes: &[u8]) -> bool
    ensures { result ≡ is_empty bytes.now }
{
    bytes.is_empty()
}

// The pop that comes next, if bytes are left.
#[inline(always)]
fn next_pop(bytes: &[u8]) -> Option<(Reg, usize)>
    requires { IsSome (pops_of bytes.now) }
    ensures next { IfSome result (λ found. pop_of bytes.now ≡ Some found) }
    ensures more { IfSome result (λ found. is_empty bytes.now ≡ false) }
    ensures end { result ≡ None → is_empty bytes.now ≡ true }
    ensures within { IfSome result (λ found. found.1 ≤ length bytes.now) }
    ensures some { IfSome result (λ found. 0 < found.1) }
{
    if is_empty(bytes) { None } else { pop_of(bytes) }
}

// Pops the registers of an epilog one after the other, and returns.
fn run_pops<F: FnMut(u64) -> Result<u64, ()>>(
    bytes: &[u8],
    regs: &mut UnwindRegsX86_64,
    read_stack: &mut F,
) -> Result<u64, PeUnwinderError>
    requires callable { F.IsAlwaysCallable read_stack.old }
    requires pops { IsSome (pops_of bytes.now) }
    ensures callable { F.IsAlwaysCallable read_stack.new }
    ensures run { OverWords F.step read_stack.old read_stack.new
        (RunsPops bytes.now result regs.old regs.new) }
    ensures refusal { IfErr result IsOfStack }
{
    let mut rest = bytes;
    'pops: while let Some((register, size)) = next_pop(rest) {
        let sp = regs.sp();
        pop(Some(sp), register, regs, read_stack)?;
        rest = bytes_after(rest, size);
    }
    return_to_caller(regs, read_stack)
}

// An address plus a displacement.
fn moved(base: u64, displacement: i64) -> Result<u64, PeUnwinderError>
    ensures sum { result ≡ moved (pos base +ℤ displacement) }
    ensures refusal { IfErr result IsOfStack }
{
    base.checked_add_signed(displacement)
        .ok_or(PeUnwinderError::MissingStackData(None))
}

// Sets the stack pointer.
fn adjust(
    frame_register: Option<Reg>,
    adjustment: SpAdjustment,
    regs: &mut UnwindRegsX86_64,
) -> Result<(), PeUnwinderError>
    ensures adjusted { registers_seen result regs.new ≡ adjusted frame_register adjustment regs.old }
    ensures refusal { IfErr result IsOfStack }
{
    match adjustment {
        SpAdjustment::Stays => Ok(()),
        SpAdjustment::Add(bytes) => raise(regs, u64::from(bytes)),
        SpAdjustment::Lea(displacement) => {
            let Some(register) = frame_register else {
                return Err(PeUnwinderError::MissingStackData(None));
            };
            let sp = moved(regs.get(register), displacement)?;
            regs.set_sp(sp);
            Ok(())
        }
    }
}

/// The step out of an epilog, which is run one instruction at a time on a copy of the registers: an error leaves them as
/// they were. Fails with `MissingStackData`.
pub fn unwind_by_epilog<F: FnMut(u64) -> Result<u64, ()>>(
    frame_register: Option<Reg>,
    epilog: &Epilog<'_>,
    regs: &mut UnwindRegsX86_64,
    read_stack: &mut F,
) -> Result<u64, PeUnwinderError>
    requires callable { F.IsAlwaysCallable read_stack.old }
    requires pops { IsSome (pops_of epilog.now.rest.now) }
    ensures callable { F.IsAlwaysCallable read_stack.new }
    ensures step { OverWords F.step read_stack.old read_stack.new
        (StepsByEpilog frame_register epilog.now result regs.old regs.new) }
    ensures error_keeps { OnErr result (regs.new ≡ regs.old) }
    ensures refusal { IfErr result IsOfStack }
{
    let mut caller = *regs;
    adjust(frame_register, epilog.adjustment, &mut caller)?;
    let to = run_pops(epilog.rest, &mut caller, read_stack)?;
    *regs = caller;
    Ok(to)
}

/// The register that an epilog pops next, and the bytes after that pop; `None` at its end.
#[inline(always)]
pub fn next_popped(bytes: &[u8]) -> Option<(Reg, &[u8])>
    ensures end { result ≡ None → OverPops bytes.now (λ registers. registers ≡ []) }
    ensures pop { IfSome result (λ found.
        OverPops bytes.now (λ registers. IsPoppedFirst registers found.0 found.1.now)) }
    ensures less { IfSome result (λ found. length found.1.now < length bytes.now) }
{
    if is_empty(bytes) {
        return None;
    }
    let (register, size) = pop_of(bytes)?;
    Some((register, bytes_after(bytes, size)))
}
