//! Numbers in an instruction, lowest byte first.
ghost use Rattle.std.specs.Prelude.{◌≡◌, ◌+◌, ◌<◌, ◌^◌, ◌≤ℤ◌, ◌<ℤ◌, ◌-ℤ◌, pos};
ghost use Rattle.framehop_x86_instructions.specs.Numbers.{word_at, number_at, signed_byte, signed_at};

use crate::bytes::byte_at;

/// The number of two bytes at a place.
pub(crate) fn word_at(code: &[u8], at: usize) -> u16
    requires { at + 1 < 2 ^ 64 }
    ensures { result ≡ word_at code.now at }
{
    u16::from(byte_at(code, at)) + 256 * u16::from(byte_at(code, at + 1))
}

// The number of four bytes at a place.
fn number_at(code: &[u8], at: usize) -> u32
    requires { at + 3 < 2 ^ 64 }
    ensures { result ≡ number_at code.now at }
{
    u32::from(byte_at(code, at))
        + 256 * u32::from(byte_at(code, at + 1))
        + 65536 * u32::from(byte_at(code, at + 2))
        + 16777216 * u32::from(byte_at(code, at + 3))
}

/// The number that a byte is in two's complement.
pub(crate) fn signed_byte(byte: u8) -> i64
    ensures is { result ≡ signed_byte byte }
    ensures low { (pos 0 -ℤ pos 128) ≤ℤ result }
    ensures high { result <ℤ pos 128 }
{
    if byte < 128 {
        i64::from(byte)
    } else {
        i64::from(byte) - 256
    }
}

/// The number of four bytes at a place in two's complement.
pub(crate) fn signed_at(code: &[u8], at: usize) -> i64
    requires { at + 3 < 2 ^ 64 }
    ensures is { result ≡ signed_at code.now at }
    ensures low { (pos 0 -ℤ pos (2 ^ 31)) ≤ℤ result }
    ensures high { result <ℤ pos (2 ^ 31) }
{
    let number = number_at(code, at);
    if number < 0x8000_0000 {
        i64::from(number)
    } else {
        i64::from(number) - 0x1_0000_0000
    }
}
