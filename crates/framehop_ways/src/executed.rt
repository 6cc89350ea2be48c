//! Places of code, in bytes from the start of a text, and where an instruction goes on.
ghost use Rattle.std.specs.Prelude.{◌≡◌, ◌<◌, ◌≤◌, ◌^◌, ◌+◌, ◌+ℤ◌, pos, length, IfSome};
ghost use Rattle.framehop_ways.specs.Places.{instruction_at, goes_through, place_after, place_of, place_of_branch, place_branched_to};
ghost use Rattle.framehop_ways.specs.Ways.{is_above_0, is_stack_pointer, raises_sp, restores, is_outside, leaves};

use crate::decoding::decode;
use crate::instruction::{Access, Base, Instruction};

/// Where a function begins and ends, in bytes from the start of the text. Execution doesn't go through from one word to
/// the next past either.
#[derive(Clone, Copy, Debug, PartialEq, Eq)]
pub struct Bounds {
    pub begin: usize,
    pub end: usize,
}

/// An instruction at a place, in bytes from the start of the text.
#[derive(Clone, Copy, Debug, PartialEq, Eq, Default)]
pub struct Executed {
    pub place: usize,
    pub instruction: Instruction,
}

/// The instruction at a place of a text; `None` where no whole word is.
pub fn instruction_at(text: &[u8], place: usize) -> Option<Instruction>
    ensures is { result ≡ instruction_at text.now place }
    ensures within { IfSome result (λ _. place + 4 ≤ length text.now) }
{
    if text.len() < place {
        return None;
    }
    let (_, rest) = text.split_at(place);
    let (word, _) = rest.split_first_chunk::<4>()?;
    Some(decode(u32::from_le_bytes(*word)))
}

// Whether execution can go on at the next word.
fn goes_through(instruction: Instruction) -> bool
    ensures { result ≡ goes_through instruction }
{
    match instruction {
        Instruction::Branch { .. }
        | Instruction::Return
        | Instruction::BranchAway
        | Instruction::Unknown => false,
        _ => true,
    }
}

/// The next place, where execution can go on there and no bound is.
pub fn place_after(bounds: Bounds, one: Executed) -> Option<usize>
    requires { one.place < 2 ^ 63 }
    ensures { result ≡ place_after bounds one }
{
    if !goes_through(one.instruction) {
        return None;
    }
    let next = one.place + 4;
    if next == bounds.begin || next == bounds.end {
        None
    } else {
        Some(next)
    }
}

// The place so many bytes from another, if it isn't before the text.
fn place_at_distance(place: usize, distance: i32) -> Option<usize>
    requires { place < 2 ^ 63 }
    ensures { result ≡ place_of (pos place +ℤ distance) }
{
    place.checked_add_signed(distance as isize)
}

/// The place that a branch leads to.
pub fn place_branched_to(one: Executed) -> Option<usize>
    requires { one.place < 2 ^ 63 }
    ensures { result ≡ place_branched_to one }
{
    match one.instruction {
        Instruction::Branch { distance } => place_at_distance(one.place, distance),
        Instruction::BranchIf { distance } => place_at_distance(one.place, distance),
        _ => None,
    }
}

// Whether the base is the stack pointer.
fn is_stack_pointer(base: Base) -> bool
    ensures { result ≡ is_stack_pointer base }
{
    match base {
        Base::StackPointer => true,
        Base::FramePointer => false,
    }
}

// Whether an access raises the stack pointer.
fn raises_sp(access: Access) -> bool
    ensures { result ≡ raises_sp access }
{
    is_stack_pointer(access.base) && access.raise > 0
}

/// Whether an instruction restores something of the caller.
pub fn restores(instruction: Instruction) -> bool
    ensures { result ≡ restores instruction }
{
    match instruction {
        Instruction::Load(access) => {
            raises_sp(access) || access.first == 30 || access.second == 30
        }
        Instruction::Store(access) => raises_sp(access),
        Instruction::Move { to, from, bytes } => match (to, from) {
            (Base::StackPointer, Base::StackPointer) => bytes > 0,
            (Base::StackPointer, Base::FramePointer) => true,
            _ => false,
        },
        _ => false,
    }
}

// Whether a branch leads to no place of the text.
fn is_outside(text: &[u8], one: Executed) -> bool
    requires { one.place < 2 ^ 63 }
    ensures { result ≡ is_outside text.now one }
{
    match place_branched_to(one) {
        Some(place) => instruction_at(text, place).is_none(),
        None => true,
    }
}

/// Whether an instruction leaves the function, once something was restored or not.
pub fn leaves(text: &[u8], one: Executed, restored: bool) -> bool
    requires { one.place < 2 ^ 63 }
    ensures { result ≡ leaves text.now one restored }
{
    match one.instruction {
        Instruction::Return => true,
        Instruction::BranchAway => restored,
        Instruction::Branch { .. } => restored && is_outside(text, one),
        _ => false,
    }
}
