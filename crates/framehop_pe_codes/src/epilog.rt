//! Reading of epilogs.

ghost use Rattle.std.specs.Prelude.{◌≡◌, ◌≤◌, ◌<◌, None, length, IfSome};
ghost use Rattle.framehop_pe_codes.specs.EpilogEnds.{begins_with, is_end};
ghost use Rattle.framehop_pe_codes.specs.Epilogs.{short_add, long_add, short_lea, long_lea, lea, lea_spelling, lea_size, adjustment_of, number_of, is_pop, pop_of, pops_until, epilog_of};
ghost use Rattle.framehop_pe_codes.specs.EpilogViews.{AreFirstPops, IsEpilog};

use crate::code::{bytes_after, register_numbered, u32_at};
use crate::ends::{EpilogEnds, begins_with, signed_byte, signed_long};
use framehop_registers::x86_64::Reg;

/// How an epilog sets the stack pointer before its pops.
#[derive(Clone, Copy, Debug, PartialEq, Eq)]
pub enum SpAdjustment {
    /// It doesn't, or it did already.
    Stays,
    /// `add rsp`: it goes up by so many bytes.
    Add(u32),
    /// `lea rsp`: it becomes the frame register plus so many bytes.
    Lea(i64),
}

/// What is left of an epilog at an address.
#[derive(Clone, Copy, Debug)]
pub struct Epilog<'a> {
    /// How it sets the stack pointer.
    pub adjustment: SpAdjustment,
    /// The bytes of its pops.
    pub rest: &'a [u8],
}

// Whether a byte is a pop of one of the first eight registers.
fn is_pop(byte: u8) -> bool
    ensures { result ≡ is_pop byte }
{
    0x58 <= byte && byte < 0x60
}

// The pop that some bytes begin with, and how many bytes it has.
#[tactic(auto, unfolding(crate::specs::Epilogs::pop_of))]
#[inline(always)]
pub(crate) fn pop_of(bytes: &[u8]) -> Option<(Reg, usize)>
    ensures pop { result ≡ pop_of bytes.now }
    ensures within { IfSome result (λ found. found.1 ≤ length bytes.now) }
    ensures some { IfSome result (λ found. 0 < found.1) }
{
    if bytes.is_empty() {
        return None;
    }
    if is_pop(bytes[0]) {
        return Some((register_numbered(bytes[0] - 0x58), 1));
    }
    if bytes[0] == 0x41 && bytes.len() > 1 && is_pop(bytes[1]) {
        return Some((register_numbered(bytes[1] - 0x50), 2));
    }
    None
}

// How many of some bytes are pops up to an end.
fn pops_size(ends: EpilogEnds, bytes: &[u8]) -> Option<usize>
    ensures some { IfSome result (AreFirstPops ends bytes.now) }
    ensures none { result ≡ None → pops_until (is_end ends) bytes.now ≡ None }
{
    let mut size = 0;
    'pops: while !ends.are_at(bytes_after(bytes, size)) {
        let (_register, more) = pop_of(bytes_after(bytes, size))?;
        size += more;
    }
    Some(size)
}

// An add of an immediate of one byte that isn't negative.
#[inline(always)]
fn short_add(bytes: &[u8]) -> Option<(SpAdjustment, usize)>
    ensures found { result ≡ short_add bytes.now }
    ensures within { IfSome result (λ found. found.1 ≤ length bytes.now) }
{
    if begins_with(&[0x48, 0x83, 0xc4], bytes) && 4 <= bytes.len() && bytes[3] < 128 {
        Some((SpAdjustment::Add(u32::from(bytes[3])), 4))
    } else {
        None
    }
}

// An add of an immediate of four bytes that isn't negative.
#[inline(always)]
fn long_add(bytes: &[u8]) -> Option<(SpAdjustment, usize)>
    ensures found { result ≡ long_add bytes.now }
    ensures within { IfSome result (λ found. found.1 ≤ length bytes.now) }
{
    if begins_with(&[0x48, 0x81, 0xc4], bytes)
        && 7 <= bytes.len()
        && u32_at(bytes, 3) < 2147483648
    {
        Some((SpAdjustment::Add(u32_at(bytes, 3)), 7))
    } else {
        None
    }
}

// How many bytes a lea from a register has before its displacement.
fn lea_size(register: u8) -> usize
    ensures { result ≡ lea_size register }
{
    if register % 8 == 4 { 4 } else { 3 }
}

// Whether bytes begin with a lea from a register, with this mode byte.
fn begins_lea(mode: u8, register: u8, bytes: &[u8]) -> bool
    requires mode { mode < 248 }
    requires register { register < 16 }
    ensures { result ≡ begins_with (lea_spelling mode register) bytes.now }
{
    if register % 8 == 4 {
        begins_with(
            &[0x48 + register / 8, 0x8d, mode + register % 8, 0x24],
            bytes,
        )
    } else {
        begins_with(&[0x48 + register / 8, 0x8d, mode + register % 8], bytes)
    }
}

// The lea from a register with a displacement of one byte.
#[inline(always)]
fn short_lea(register: u8, bytes: &[u8]) -> Option<(SpAdjustment, usize)>
    requires { register < 16 }
    ensures found { result ≡ short_lea register bytes.now }
    ensures within { IfSome result (λ found. found.1 ≤ length bytes.now) }
{
    let size = lea_size(register);
    if begins_lea(0x60, register, bytes) && size + 1 <= bytes.len() {
        Some((SpAdjustment::Lea(signed_byte(bytes[size])), size + 1))
    } else {
        None
    }
}

// The lea from a register with a displacement of four bytes.
#[inline(always)]
fn long_lea(register: u8, bytes: &[u8]) -> Option<(SpAdjustment, usize)>
    requires { register < 16 }
    ensures found { result ≡ long_lea register bytes.now }
    ensures within { IfSome result (λ found. found.1 ≤ length bytes.now) }
{
    let size = lea_size(register);
    if begins_lea(0xa0, register, bytes) && size + 4 <= bytes.len() {
        Some((
            SpAdjustment::Lea(signed_long(u32_at(bytes, size))),
            size + 4,
        ))
    } else {
        None
    }
}

// The number of a register in instructions.
fn number_of(register: Reg) -> u8
    ensures number { result ≡ number_of register }
    ensures few { result < 16 }
{
    match register {
        Reg::RAX => 0,
        Reg::RCX => 1,
        Reg::RDX => 2,
        Reg::RBX => 3,
        Reg::RSP => 4,
        Reg::RBP => 5,
        Reg::RSI => 6,
        Reg::RDI => 7,
        Reg::R8 => 8,
        Reg::R9 => 9,
        Reg::R10 => 10,
        Reg::R11 => 11,
        Reg::R12 => 12,
        Reg::R13 => 13,
        Reg::R14 => 14,
        Reg::R15 => 15,
    }
}

// The lea from the frame register, if there is one.
#[inline(always)]
fn read_lea(frame_register: Option<Reg>, bytes: &[u8]) -> Option<(SpAdjustment, usize)>
    ensures found { result ≡ lea frame_register bytes.now }
    ensures within { IfSome result (λ found. found.1 ≤ length bytes.now) }
{
    let register = number_of(frame_register?);
    if let Some(found) = short_lea(register, bytes) {
        return Some(found);
    }
    long_lea(register, bytes)
}

// The adjustment that some bytes begin with, and how many bytes it has.
#[tactic(auto, unfolding(crate::specs::Epilogs::adjustment_of))]
#[inline(always)]
fn adjustment_of(frame_register: Option<Reg>, bytes: &[u8]) -> (SpAdjustment, usize)
    ensures found { result ≡ adjustment_of frame_register bytes.now }
    ensures within { result.1 ≤ length bytes.now }
{
    if let Some(found) = short_add(bytes) {
        return found;
    }
    if let Some(found) = long_add(bytes) {
        return found;
    }
    if let Some(found) = read_lea(frame_register, bytes) {
        return found;
    }
    (SpAdjustment::Stays, 0)
}

/// What some bytes are of an epilog, if they are: the bytes from an address to the end of its function, whose frame
/// register is this. An epilog that ends otherwise than `ends` say isn't recognised.
#[inline(always)]
pub fn read_epilog(
    ends: EpilogEnds,
    frame_register: Option<Reg>,
    bytes: &[u8],
) -> Option<Epilog<'_>>
    ensures none { result ≡ None → epilog_of ends frame_register bytes.now ≡ None }
    ensures some { IfSome result (λ epilog. IsEpilog ends frame_register epilog bytes.now) }
{
    let (adjustment, size) = adjustment_of(frame_register, bytes);
    let rest = bytes_after(bytes, size);
    let size = pops_size(ends, rest)?;
    Some(Epilog {
        adjustment,
        rest: &rest[..size],
    })
}
