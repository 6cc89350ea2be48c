//! How a function is left.
ghost use Rattle.std.specs.Prelude.{◌≡◌, ◌<◌, ◌≤◌, ◌^◌, ◌++◌};
ghost use Rattle.std.specs.List.{list_any};
ghost use Rattle.framehop_x86_ways.specs.Places.{IsInText};
ghost use Rattle.framehop_x86_ways.specs.Ways.{is_saved, pops_saved, is_higher, is_raised, restored, is_outside, leaves};
ghost use Rattle.framehop_x86_ways.specs.Values.{held_after_way};

use crate::executed::{Executed, instruction_at, place_branched_to};
use crate::values::{Held, Value};
use framehop_registers::x86_64::Reg;
use framehop_x86_instructions::{Base, Effect};

// Whether functions save a register by each calling convention.
fn is_saved(register: Reg) -> bool
    ensures { result ≡ is_saved register }
{
    match register {
        Reg::RBX | Reg::RBP | Reg::R12 | Reg::R13 | Reg::R14 | Reg::R15 => true,
        _ => false,
    }
}

// Whether an instruction pops such a register.
fn pops_saved(effect: Effect) -> bool
    ensures { result ≡ pops_saved effect }
{
    match effect {
        Effect::Pop(Some(register)) => is_saved(register),
        Effect::Leave => true,
        _ => false,
    }
}

// Whether RSP is higher than now, or was set by RBP.
fn is_higher(sp: Value) -> bool
    ensures { result ≡ is_higher sp }
{
    match sp {
        Value::Address {
            base: Base::StackPointer,
            bytes,
        } => bytes > 0,
        Value::Address {
            base: Base::FramePointer,
            ..
        } => true,
        _ => false,
    }
}

// The same after instructions.
fn is_raised(before: &[Executed]) -> bool
    ensures { result ≡ is_raised (held_after_way before.now) }
{
    match Held::after(before) {
        Some(held) => is_higher(held.values.sp),
        None => false,
    }
}

// Whether one of some instructions does.
fn has_popped(before: &[Executed]) -> bool
    ensures { result ≡ list_any (λ one. pops_saved one.instruction.effect) before.now }
{
    before.iter().any(|one| pops_saved(one.instruction.effect))
}

// Whether instructions restored something of the caller.
fn restored(before: &[Executed]) -> bool
    ensures { result ≡ restored before.now }
{
    has_popped(before) || is_raised(before)
}

// Whether a jump leads to no place of the text.
fn is_outside(text: &[u8], one: Executed) -> bool
    requires { IsInText one }
    ensures { result ≡ is_outside text.now one }
{
    match place_branched_to(one) {
        Some(place) => instruction_at(text, place).is_none(),
        None => true,
    }
}

/// Whether an instruction leaves the function, once others were executed.
pub fn leaves(text: &[u8], before: &[Executed], one: Executed) -> bool
    requires { IsInText one }
    ensures { result ≡ leaves text.now before.now one }
{
    match one.instruction.effect {
        Effect::Return { .. } => true,
        Effect::JumpAway => restored(before),
        Effect::Jump { .. } => is_outside(text, one) && restored(before),
        _ => false,
    }
}
