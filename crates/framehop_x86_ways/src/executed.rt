//! Places of code, in bytes from the start of a text, and where an instruction goes on.
ghost use Rattle.std.specs.Prelude.{◌≡◌, ◌<◌, ◌≤◌, ◌^◌, ◌+◌, ◌+ℤ◌, pos, length, IfSome};
ghost use Rattle.framehop_x86_instructions.specs.declared.effect.Effect.TheVariants.{Unknown};
ghost use Rattle.framehop_x86_ways.specs.Places.{instruction_at, goes_through, IsInText, place_behind, is_passed, place_after, place_of, place_branched_to};

use framehop_ways::Bounds;
use framehop_x86_instructions::{Effect, Instruction};

/// An instruction at a place, in bytes from the start of the text.
#[derive(Clone, Copy, Debug, PartialEq, Eq)]
pub struct Executed {
    pub place: usize,
    pub instruction: Instruction,
}

/// One that isn't known, at the start.
impl Default for Executed {
    ghost is_default = { λ one. one ≡ record { place = 0; instruction = record { length = 0; effect = Unknown } } };

    fn default() -> Executed {
        Executed {
            place: 0,
            instruction: Instruction {
                length: 0,
                effect: Effect::Unknown,
            },
        }
    }
}

/// The instruction at a place of a text; `None` where none is that is there as a whole.
#[tactic(auto, unfolding(crate::specs::Places::instruction_at))]
pub fn instruction_at(text: &[u8], place: usize) -> Option<Instruction>
    ensures is { result ≡ instruction_at text.now place }
    ensures few { IfSome result (λ found. found.length ≤ 15) }
    ensures within { IfSome result (λ found. place + found.length ≤ length text.now) }
{
    if text.len() < place {
        return None;
    }
    let (_, rest) = text.split_at(place);
    Instruction::decode(rest).ok()
}

// Whether execution can go on at the next instruction.
fn goes_through(effect: Effect) -> bool
    ensures { result ≡ goes_through effect }
{
    match effect {
        Effect::Jump { .. } | Effect::JumpAway | Effect::Return { .. } | Effect::Unknown => false,
        _ => true,
    }
}

// Whether a bound is behind a place, and isn't behind the next one.
fn is_passed(place: usize, next: usize, bound: usize) -> bool
    ensures { result ≡ is_passed place next bound }
{
    place < bound && bound <= next
}

// The place behind an instruction.
fn place_behind(one: Executed) -> usize
    requires { IsInText one }
    ensures { result ≡ place_behind one }
{
    one.place + one.instruction.length
}

/// The next place, where execution can go on there and no bound is between.
pub fn place_after(bounds: Bounds, one: Executed) -> Option<usize>
    requires { IsInText one }
    ensures { result ≡ place_after bounds one }
{
    if !goes_through(one.instruction.effect) {
        return None;
    }
    let next = place_behind(one);
    if is_passed(one.place, next, bounds.begin) || is_passed(one.place, next, bounds.end) {
        None
    } else {
        Some(next)
    }
}

// The place so many bytes from another, if it isn't before the text, and has 64 bits.
fn place_at_distance(place: usize, distance: i64) -> Option<usize>
    ensures { result ≡ place_of (pos place +ℤ distance) }
{
    place.checked_add_signed(distance as isize)
}

/// The place that a jump leads to.
pub fn place_branched_to(one: Executed) -> Option<usize>
    requires { IsInText one }
    ensures { result ≡ place_branched_to one }
{
    let behind = place_behind(one);
    match one.instruction.effect {
        Effect::Jump { distance } => place_at_distance(behind, distance),
        Effect::JumpIf { distance } => place_at_distance(behind, distance),
        _ => None,
    }
}
