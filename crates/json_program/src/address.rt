//! Addresses as texts.

ghost use Rattle.std.specs.Prelude.{◌≡◌, ◌<◌, ◌≤◌, length, IfSome};
ghost use Rattle.hex.specs.Hex.{hex_digit_value};
ghost use Rattle.json_program.specs.Json.{hex_number, spelled_address};

// The value of a hexadecimal digit of either case.
fn digit_of(c: u8) -> Option<u8>
    ensures value { result ≡ hex_digit_value c }
    ensures small { IfSome result (λ d. d < 16) }
{
    match c {
        b'A'..=b'F' => Some(c - b'A' + 10),
        b'a'..=b'f' => Some(c - b'a' + 10),
        b'0'..=b'9' => Some(c - b'0'),
        _ => None,
    }
}

// The number that up to 16 hexadecimal digits spell.
fn number_of(digits: &[u8]) -> Option<u64>
    requires { length digits.now ≤ 16 }
    ensures { result ≡ hex_number 0 digits.now }
{
    let mut number: u64 = 0;
    for c in digits {
        number = number * 16 + u64::from(digit_of(*c)?);
    }
    Some(number)
}

/// The address that a text spells: `0x`, then 1 to 16 hexadecimal digits of either case.
pub fn address_of(text: &str) -> Option<u64>
    ensures { result ≡ spelled_address text.now }
{
    let bytes = text.as_bytes();
    if bytes.len() < 3 || bytes.len() > 18 || bytes[0] != b'0' || bytes[1] != b'x' {
        return None;
    }
    number_of(&bytes[2..])
}
