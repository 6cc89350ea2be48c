//! Addresses relative to RSP or RBP.
ghost use Rattle.std.specs.Prelude.{◌≡◌, ◌<◌, ◌+◌, ◌^◌, ◌≤ℤ◌, ◌<ℤ◌, ◌-ℤ◌, pos};
ghost use Rattle.framehop_x86_instructions.specs.Addresses.{base_numbered, displacement, address_by, address_by_sib, address_in, address_of};

use crate::bytes::byte_at;
use crate::fields::extended;
use crate::layout::Layout;
use crate::modrm::ModRm;
use crate::numbers::{signed_at, signed_byte};
use crate::opcode::Extension;

/// A register to which addresses are relative.
#[derive(Clone, Copy, Debug, PartialEq, Eq)]
pub enum Base {
    /// RSP
    StackPointer,
    /// RBP
    FramePointer,
}

/// An address so many bytes from a base.
#[derive(Clone, Copy, Debug, PartialEq, Eq)]
pub struct Address {
    pub base: Base,
    /// from -2³¹ to below 2³¹
    pub bytes: i64,
}

/// The base with a number.
pub(crate) fn base_numbered(number: u8) -> Option<Base>
    ensures { result ≡ base_numbered number }
{
    match number {
        4 => Some(Base::StackPointer),
        5 => Some(Base::FramePointer),
        _ => None,
    }
}

/// The displacement at a place.
pub(crate) fn displacement(code: &[u8], mode: u8, at: usize) -> i64
    requires { at + 3 < 2 ^ 64 }
    ensures is { result ≡ displacement code.now mode at }
    ensures low { (pos 0 -ℤ pos (2 ^ 31)) ≤ℤ result }
    ensures high { result <ℤ pos (2 ^ 31) }
{
    match mode {
        1 => signed_byte(byte_at(code, at)),
        2 => signed_at(code, at),
        _ => 0,
    }
}

// The address by the base's number of three bits, with B and the place of the displacement.
fn address_by(code: &[u8], mode: u8, number: u8, b: bool, at: usize) -> Option<Address>
    requires number { number < 8 }
    requires place { at + 3 < 2 ^ 64 }
    ensures { result ≡ address_by code.now mode number b at }
{
    if mode == 0 && number == 5 {
        return None;
    }
    let base = base_numbered(extended(b, number))?;
    Some(Address {
        base,
        bytes: displacement(code, mode, at),
    })
}

// The address by the SIB byte at a place, if it has no index.
fn address_by_sib(code: &[u8], mode: u8, x: bool, b: bool, at: usize) -> Option<Address>
    requires { at + 4 < 2 ^ 64 }
    ensures { result ≡ address_by_sib code.now mode x b at }
{
    let sib = byte_at(code, at);
    if extended(x, (sib >> 3) % 8) == 4 {
        address_by(code, mode, sib % 8, b, at + 1)
    } else {
        None
    }
}

// The address of a ModRM byte, with what is behind it at a place.
fn address_in(code: &[u8], extension: Extension, modrm: ModRm, at: usize) -> Option<Address>
    requires place { at + 4 < 2 ^ 64 }
    requires rm { modrm.rm < 8 }
    ensures { result ≡ address_in code.now extension modrm at }
{
    if modrm.has_sib() {
        address_by_sib(code, modrm.mode, extension.x, extension.b, at)
    } else {
        address_by(code, modrm.mode, modrm.rm, extension.b, at)
    }
}

/// The address of an operand in memory, if it is relative to a base: without an index, another segment or addresses of four bytes.
pub(crate) fn address_of(code: &[u8], layout: Layout, at: usize) -> Option<Address>
    requires place { at + 4 < 2 ^ 64 }
    requires rm { layout.modrm.rm < 8 }
    ensures { result ≡ address_of code.now layout at }
{
    if layout.modrm.mode == 3 || layout.prefixes.address_size || layout.prefixes.segment {
        return None;
    }
    address_in(code, layout.opcode.extension, layout.modrm, at)
}
