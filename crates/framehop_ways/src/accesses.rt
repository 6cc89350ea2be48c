//! Loads and stores relative to the stack pointer or the frame pointer.
ghost use Rattle.std.specs.Prelude.{◌≡◌, ◌<◌, ◌≤◌, ◌==◌, ◌||◌, ◌*ℤ◌, pos, IfSome};
ghost use Rattle.framehop_ways.specs.Words.{bits, signed};
ghost use Rattle.framehop_ways.specs.Accesses.{base_of, general_number, access_at, load_or_store, pair_scale, is_pair, pair_of, is_single, is_whole, unsigned_access, signed_access, single_of, access_of};

use crate::instruction::{Access, Base, Instruction};
use crate::word::{bits, rd, rn, rt2, signed};

/// The base with a number.
pub fn base_of(number: u32) -> Option<Base>
    ensures { result ≡ base_of number }
{
    match number {
        31 => Some(Base::StackPointer),
        29 => Some(Base::FramePointer),
        _ => None,
    }
}

// The number of a general register that is loaded or stored; 31 for a vector register.
fn general_number(word: u32, number: u32) -> u8
    requires { number < 32 }
    ensures { result ≡ general_number word number }
{
    if bits(word, 26, 1) == 0 {
        number as u8
    } else {
        31
    }
}

fn load_or_store(word: u32, access: Access) -> Instruction
    ensures { result ≡ load_or_store word access }
{
    if bits(word, 22, 1) == 1 {
        Instruction::Load(access)
    } else {
        Instruction::Store(access)
    }
}

// The size in bytes of each register of a pair.
fn pair_scale(word: u32) -> Option<u32>
    ensures is { result ≡ pair_scale word }
    ensures few { IfSome result (λ scale. scale ≤ 16) }
{
    match (bits(word, 26, 1), bits(word, 30, 2)) {
        (0, 2) => Some(8),
        (0, _) => None,
        (_, 0) => Some(4),
        (_, 1) => Some(8),
        (_, 2) => Some(16),
        _ => None,
    }
}

// An access of so many bytes by its mode: 1 if they are added to the base afterwards, 3 if before, else for the access alone.
fn with_mode(mode: u32, access: Access) -> Access
    ensures { result ≡ access_at mode access.base access.offset access.first access.second }
{
    let bytes = access.offset;
    let offset = if mode == 1 { 0 } else { bytes };
    let raise = if mode % 2 == 1 { bytes } else { 0 };
    Access {
        offset,
        raise,
        ..access
    }
}

// The bytes of a pair, whose registers have a size.
fn pair_bytes(word: u32, scale: u32) -> i16
    requires { scale ≤ 16 }
    ensures { result ≡ pos scale *ℤ signed (bits word 15 7) 64 }
{
    let words = signed(bits(word, 15, 7), 64) as i16;
    scale as i16 * words
}

fn is_pair(word: u32) -> bool
    ensures { result ≡ is_pair word }
{
    bits(word, 27, 3) == 5 && bits(word, 25, 1) == 0
}

fn pair_of(word: u32, base: Base) -> Option<Instruction>
    ensures { result ≡ pair_of word base }
{
    let mode = bits(word, 23, 2);
    if mode == 0 {
        return None;
    }
    let scale = pair_scale(word)?;
    let access = Access {
        base,
        offset: pair_bytes(word, scale),
        raise: 0,
        first: general_number(word, rd(word)),
        second: general_number(word, rt2(word)),
    };
    Some(load_or_store(word, with_mode(mode, access)))
}

fn is_single(word: u32) -> bool
    ensures { result ≡ is_single word }
{
    bits(word, 27, 3) == 7 && bits(word, 25, 1) == 0
}

// Whether one register, if it is, is a general one of 8 bytes.
fn is_whole(word: u32) -> bool
    ensures { result ≡ is_whole word }
{
    bits(word, 26, 1) == 0 && bits(word, 30, 2) == 3 && bits(word, 23, 1) == 0
}

// Whether it is such a one or a vector register.
fn is_whole_or_vector(word: u32) -> bool
    ensures { result ≡ (is_whole word || (bits word 26 1 == 1)) }
{
    is_whole(word) || bits(word, 26, 1) == 1
}

// The access of a word with an offset of 12 bits.
fn unsigned_access(word: u32, base: Base) -> Access
    ensures { result ≡ unsigned_access word base }
{
    let access = Access {
        base,
        offset: (8 * bits(word, 10, 12)) as i16,
        raise: 0,
        first: rd(word) as u8,
        second: 31,
    };
    with_mode(0, access)
}

// The access of a word with an offset of 9 bits and a mode.
fn signed_access(word: u32, base: Base) -> Access
    ensures { result ≡ signed_access word base }
{
    let access = Access {
        base,
        offset: signed(bits(word, 12, 9), 256) as i16,
        raise: 0,
        first: general_number(word, rd(word)),
        second: 31,
    };
    with_mode(bits(word, 10, 2), access)
}

fn single_of(word: u32, base: Base) -> Option<Instruction>
    ensures { result ≡ single_of word base }
{
    if is_whole(word) && bits(word, 24, 1) == 1 {
        return Some(load_or_store(word, unsigned_access(word, base)));
    }
    let mode = bits(word, 10, 2);
    if bits(word, 24, 1) == 1 || bits(word, 21, 1) == 1 || mode == 2 {
        return None;
    }
    if is_whole_or_vector(word) {
        Some(load_or_store(word, signed_access(word, base)))
    } else {
        None
    }
}

/// The access relative to a base that a word spells.
pub fn access_of(word: u32) -> Option<Instruction>
    ensures { result ≡ access_of word }
{
    let base = base_of(rn(word))?;
    if is_pair(word) {
        pair_of(word, base)
    } else if is_single(word) {
        single_of(word, base)
    } else {
        None
    }
}
