//! Numbers in names.

ghost use Rattle.std.specs.Prelude.{◌≡◌, ◌<◌, ◌≤◌, ◌^◌, IfSome};
ghost use Rattle.std.specs.Option.{option_copied};
ghost use Rattle.symbol_text.specs.Numbers.{SomeOf, after, digit_of, number_from, number_of, ordinal_of, radix_of};

/// The digits of a number.
#[derive(Debug, Clone, Copy, PartialEq, Eq)]
pub enum Numerals {
    /// `0` to `9`.
    Decimal,
    /// `0` to `9` and `A` to `Z`.
    Base36,
}

/// A number from this one on may have no further digit.
pub const NUMBER_LIMIT: usize = 1 << 32;

// How many digits there are.
fn radix(numerals: Numerals) -> usize
    ensures value { result ≡ radix_of numerals }
    ensures small { result ≤ 36 }
{
    match numerals {
        Numerals::Decimal => 10,
        Numerals::Base36 => 36,
    }
}

// The value of a digit.
fn digit(numerals: Numerals, byte: u8) -> Option<usize>
    ensures value { result ≡ digit_of numerals byte }
    ensures small { IfSome result (λ d. d < 36) }
{
    if b'0' <= byte && byte <= b'9' {
        return Some((byte - b'0') as usize);
    }
    match numerals {
        Numerals::Decimal => None,
        Numerals::Base36 => {
            if b'A' <= byte && byte <= b'Z' {
                Some((byte - b'A') as usize + 10)
            } else {
                None
            }
        }
    }
}

// The number that the bytes begin with, 0 if no digit is there, and the bytes after it.
fn digits_at(numerals: Numerals, bytes: &[u8]) -> Option<(usize, &[u8])>
    ensures value { SomeOf result (number_from numerals 0 bytes.now) }
    ensures small { IfSome result (λ p. p.0 < 2 ^ 38) }
{
    let mut number = 0;
    for (i, byte) in bytes.iter().enumerate() {
        match digit(numerals, *byte) {
            None => return Some((number, &bytes[i..])),
            Some(value) => {
                if NUMBER_LIMIT <= number {
                    return None;
                }
                number = number * radix(numerals) + value;
            }
        }
    }
    Some((number, &bytes[bytes.len()..]))
}

/// The number that the bytes begin with, and the bytes after it.
pub fn number_at(numerals: Numerals, bytes: &[u8]) -> Option<(usize, &[u8])>
    ensures value { SomeOf result (number_of numerals bytes.now) }
    ensures small { IfSome result (λ p. p.0 < 2 ^ 38) }
{
    let (first, _) = bytes.split_first()?;
    digit(numerals, *first)?;
    digits_at(numerals, bytes)
}

/// The bytes after one byte, if they begin with it.
pub fn after_byte(bytes: &[u8], byte: u8) -> Option<&[u8]>
    ensures { option_copied result ≡ after byte bytes.now }
{
    let (first, rest) = bytes.split_first()?;
    if *first == byte { Some(rest) } else { None }
}

/// The number that an underscore ends, plus 1, or 0 if there is only the underscore; and the bytes after it
/// (Itanium C++ ABI, 5.1.10, `<seq-id> _`).
pub fn ordinal_at(numerals: Numerals, bytes: &[u8]) -> Option<(usize, &[u8])>
    ensures value { SomeOf result (ordinal_of numerals bytes.now) }
    ensures small { IfSome result (λ p. p.0 < 2 ^ 39) }
{
    let (first, rest) = bytes.split_first()?;
    if *first == b'_' {
        return Some((0, rest));
    }
    let (number, rest) = number_at(numerals, bytes)?;
    let rest = after_byte(rest, b'_')?;
    Some((number + 1, rest))
}
