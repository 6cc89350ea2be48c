//! Reading of unwind codes.

ghost use Rattle.std.specs.Prelude.{◌≡◌, ◌<◌, ◌≤◌, ◌+◌, drop, length, IfSome};
ghost use Rattle.framehop_pe_codes.specs.Codes.{register_numbered, u32_at, short_operand, long_operand, operation_of, code_of};

use crate::operation::{UnwindCode, UnwindOperation};
use framehop_registers::x86_64::Reg;

// The registers in the order of the numbers that instructions and unwind codes give them.
const BY_NUMBER: [Reg; 16] = [
    Reg::RAX,
    Reg::RCX,
    Reg::RDX,
    Reg::RBX,
    Reg::RSP,
    Reg::RBP,
    Reg::RSI,
    Reg::RDI,
    Reg::R8,
    Reg::R9,
    Reg::R10,
    Reg::R11,
    Reg::R12,
    Reg::R13,
    Reg::R14,
    Reg::R15,
];

// The register with a number.
pub(crate) fn register_numbered(number: u8) -> Reg
    requires { number < 16 }
    ensures { result ≡ register_numbered number }
{
    BY_NUMBER[usize::from(number)]
}

/// The number of 32 bits in the four bytes at an offset, lowest byte first.
pub fn u32_at(bytes: &[u8], at: usize) -> u32
    requires { at + 4 ≤ length bytes.now }
    ensures { result ≡ u32_at bytes.now at }
{
    u32::from(bytes[at])
        + 256 * u32::from(bytes[at + 1])
        + 65536 * u32::from(bytes[at + 2])
        + 16777216 * u32::from(bytes[at + 3])
}

// The bytes after the first ones.
pub(crate) fn bytes_after(bytes: &[u8], size: usize) -> &[u8]
    requires { size ≤ length bytes.now }
    ensures { result.now ≡ drop size bytes.now }
{
    &bytes[size..]
}

// An operand of two bytes.
#[inline(always)]
fn short_operand(bytes: &[u8]) -> Option<u32>
    ensures value { result ≡ short_operand bytes.now }
    ensures fits { IfSome result (λ n. n < 65536) }
    ensures within { IfSome result (λ _. 2 ≤ length bytes.now) }
{
    if bytes.len() < 2 {
        return None;
    }
    Some(u32::from(bytes[0]) + 256 * u32::from(bytes[1]))
}

// An operand of four bytes.
#[inline(always)]
fn long_operand(bytes: &[u8]) -> Option<u32>
    ensures value { result ≡ long_operand bytes.now }
    ensures within { IfSome result (λ _. 4 ≤ length bytes.now) }
{
    if bytes.len() < 4 {
        return None;
    }
    Some(u32_at(bytes, 0))
}

// The operation of a number and its info, and how many bytes its operand has.
#[inline(always)]
fn read_operation(
    number: u8,
    info: u8,
    is_framed: bool,
    operand: &[u8],
) -> Option<(UnwindOperation, usize)>
    requires { info < 16 }
    ensures operation { result ≡ operation_of number info is_framed operand.now }
    ensures within { IfSome result (λ found. found.1 ≤ length operand.now) }
    ensures few { IfSome result (λ found. found.1 ≤ 4) }
{
    match number {
        0 => Some((UnwindOperation::Push(register_numbered(info)), 0)),
        1 if info == 0 => {
            let words = short_operand(operand)?;
            Some((UnwindOperation::Allocate(8 * words), 2))
        }
        1 if info == 1 => {
            let bytes = long_operand(operand)?;
            Some((UnwindOperation::Allocate(bytes), 4))
        }
        2 => Some((UnwindOperation::Allocate(8 * u32::from(info) + 8), 0)),
        3 if is_framed => Some((UnwindOperation::SetFrame, 0)),
        4 => {
            let words = short_operand(operand)?;
            Some((UnwindOperation::Save(register_numbered(info), 8 * words), 2))
        }
        5 => {
            let bytes = long_operand(operand)?;
            Some((UnwindOperation::Save(register_numbered(info), bytes), 4))
        }
        8 => {
            let _words = short_operand(operand)?;
            Some((UnwindOperation::SaveVector, 2))
        }
        9 => {
            let _bytes = long_operand(operand)?;
            Some((UnwindOperation::SaveVector, 4))
        }
        10 if info == 0 => Some((UnwindOperation::MachineFrame(false), 0)),
        10 if info == 1 => Some((UnwindOperation::MachineFrame(true), 0)),
        _ => None,
    }
}

/// The first code of some bytes, and how many bytes it has. `is_framed` says that its unwind info and the first of the
/// chain name a frame register; otherwise no code may set a frame.
#[tactic(auto, unfolding(crate::specs::Codes::code_of))]
#[inline(always)]
pub fn read_code(is_framed: bool, bytes: &[u8]) -> Option<(UnwindCode, usize)>
    ensures code { result ≡ code_of is_framed bytes.now }
    ensures within { IfSome result (λ found. found.1 ≤ length bytes.now) }
    ensures some { IfSome result (λ found. 2 ≤ found.1) }
{
    if bytes.len() < 2 {
        return None;
    }
    let (operation, taken) = read_operation(bytes[1] % 16, bytes[1] / 16, is_framed, &bytes[2..])?;
    Some((
        UnwindCode {
            prolog_offset: bytes[0],
            operation,
        },
        2 + taken,
    ))
}
