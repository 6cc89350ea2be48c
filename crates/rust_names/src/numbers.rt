//! Numbers and identifiers in names.

ghost use Rattle.std.specs.Prelude.{◌≡◌, ◌-◌, ◌<◌, ◌^◌, IfSome, length, option_map};
ghost use Rattle.std.specs.Option.{option_copied};
ghost use Rattle.symbol_text.specs.Numbers.{SomeOf};
ghost use Rattle.rust_names.specs.Identifiers.{identifier_of, length_of, view, without};
ghost use Rattle.rust_names.specs.Numerals.{counted_of, digit_of, digits_from, hex_value_from, hex_value_of, nibbles_of, number_of, underscore_of};

use crate::escapes::hex;
use crate::legacy::are_hex;
use symbol_text::{Numerals, after_byte, number_at};

/// A number above this one may have no further digit: the next would take more than 64 bits.
pub const DIGITS_LIMIT: usize = 297_528_130_221_121_799;

/// A hexadecimal number from this one on may have no further digit.
pub const HEX_LIMIT: usize = 1 << 60;

// The value of a digit to the base 62.
fn digit(byte: u8) -> Option<usize>
    ensures value { result ≡ digit_of byte }
    ensures small { IfSome result (λ d. d < 62) }
{
    if b'0' <= byte && byte <= b'9' {
        return Some((byte - b'0') as usize);
    }
    if b'a' <= byte && byte <= b'z' {
        return Some((byte - b'a') as usize + 10);
    }
    if b'A' <= byte && byte <= b'Z' {
        return Some((byte - b'A') as usize + 36);
    }
    None
}

// The number of the digits up to an underscore, plus 1, and what follows it.
fn digits_at(bytes: &[u8]) -> Option<(usize, &[u8])>
    ensures value { SomeOf result (digits_from 0 bytes.now) }
    ensures small { IfSome result (λ p. p.0 < 2 ^ 64 - 8) }
{
    let mut number = 0;
    for (i, byte) in bytes.iter().enumerate() {
        if *byte == b'_' {
            return Some((number + 1, &bytes[i + 1..]));
        }
        let value = digit(*byte)?;
        if DIGITS_LIMIT < number {
            return None;
        }
        number = number * 62 + value;
    }
    None
}

/// The number that the bytes begin with, and what follows it: 0 for an underscore, or one more than its digits say
/// (RFC 2603, `<base-62-number>`).
pub fn base_62(bytes: &[u8]) -> Option<(usize, &[u8])>
    ensures value { SomeOf result (number_of bytes.now) }
    ensures small { IfSome result (λ p. p.0 < 2 ^ 64 - 8) }
{
    let (first, rest) = bytes.split_first()?;
    if *first == b'_' {
        return Some((0, rest));
    }
    digits_at(bytes)
}

/// The number that follows a letter, plus 1, or 0 if another letter is there; and what follows it.
pub fn counted(bytes: &[u8], letter: u8) -> Option<(usize, &[u8])>
    ensures value { SomeOf result (counted_of letter bytes.now) }
    ensures small { IfSome result (λ p. p.0 < 2 ^ 64 - 4) }
{
    let Some(rest) = after_byte(bytes, letter) else {
        return Some((0, bytes));
    };
    let (number, rest) = base_62(rest)?;
    Some((number + 1, rest))
}

// Where the first underscore stands.
#[tactic(auto, unfolding(crate::specs::Numerals::underscore_of))]
fn underscore(bytes: &[u8]) -> Option<usize>
    ensures value { result ≡ underscore_of bytes.now }
    ensures within { IfSome result (λ at. at < length bytes.now) }
{
    bytes.iter().position(|byte| *byte == b'_')
}

/// The hexadecimal digits up to an underscore, and what follows it.
pub fn nibbles(bytes: &[u8]) -> Option<(&[u8], &[u8])>
    ensures { option_map (λ p. (p.0.now, p.1.now)) result ≡ nibbles_of bytes.now }
{
    let end = underscore(bytes)?;
    let digits = &bytes[..end];
    if are_hex(digits) {
        Some((digits, &bytes[end + 1..]))
    } else {
        None
    }
}

/// The number that hexadecimal digits say, if it takes 64 bits at most.
pub fn hex_value(digits: &[u8]) -> Option<usize>
    ensures { result ≡ hex_value_of digits.now }
{
    let mut number = 0;
    for byte in digits {
        let value = hex(*byte)?;
        if HEX_LIMIT <= number {
            return None;
        }
        number = number * 16 + value as usize;
    }
    Some(number)
}

/// An identifier: its bytes are ASCII, or Punycode with an underscore for the delimiter.
#[derive(Clone, Copy)]
pub struct Identifier<'n> {
    pub is_punycode: bool,
    pub bytes: &'n [u8],
}

// A length, and what follows it. A 0 has no further digit.
fn length_at(bytes: &[u8]) -> Option<(usize, &[u8])>
    ensures value { SomeOf result (length_of bytes.now) }
{
    match after_byte(bytes, b'0') {
        Some(rest) => Some((0, rest)),
        None => number_at(Numerals::Decimal, bytes),
    }
}

// What follows a byte, or all if they begin with another.
fn without_byte(bytes: &[u8], byte: u8) -> &[u8]
    ensures { result.now ≡ without byte bytes.now }
{
    match after_byte(bytes, byte) {
        Some(rest) => rest,
        None => bytes,
    }
}

/// The identifier that the bytes begin with, and what follows it (RFC 2603, `<undisambiguated-identifier>`).
pub fn identifier_at(bytes: &[u8]) -> Option<(Identifier<'_>, &[u8])>
    ensures { option_map (λ p. (view p.0, p.1.now)) result ≡ identifier_of bytes.now }
{
    let marked = after_byte(bytes, b'u');
    let (count, rest) = length_at(without_byte(bytes, b'u'))?;
    let rest = without_byte(rest, b'_');
    if rest.len() < count {
        return None;
    }
    let identifier = Identifier {
        is_punycode: marked.is_some(),
        bytes: &rest[..count],
    };
    Some((identifier, &rest[count..]))
}
