//! Decimal numbers in arguments.

ghost use Rattle.std.specs.Prelude.{◌≡◌};
ghost use Rattle.fold_options.specs.Numbers.{digit_of, number_of, number_with};

// The value of a decimal digit.
fn digit_of(byte: u8) -> Option<u32>
    ensures { result ≡ digit_of byte }
{
    if b'0' <= byte && byte <= b'9' {
        Some(u32::from(byte - b'0'))
    } else {
        None
    }
}

// A number with a digit more, if it is below 2^32.
fn number_with(number: u32, byte: u8) -> Option<u32>
    ensures { result ≡ number_with number byte }
{
    let Some(digit) = digit_of(byte) else {
        return None;
    };
    match number.checked_mul(10) {
        Some(tens) => tens.checked_add(digit),
        None => None,
    }
}

// The number that decimal digits say, if it is below 2^32.
pub(crate) fn number_of(word: &str) -> Option<u32>
    ensures { result ≡ number_of word.now }
{
    if word.is_empty() {
        return None;
    }
    let mut number = 0;
    for byte in word.as_bytes() {
        let Some(next) = number_with(number, *byte) else {
            return None;
        };
        number = next;
    }
    Some(number)
}
