//! The lines of a list of a kernel's symbols.

ghost use Rattle.std.specs.Prelude.{◌≡◌, ◌<◌, ◌==◌, IfSome, option_map, position};
ghost use Rattle.std.specs.Option.{option_copied};
ghost use Rattle.kernel_symbols.specs.Lines.{address_in, before_byte, digit_of, first_line, is_code, name_behind, number_with, symbol_in};
ghost use Rattle.kernel_symbols.specs.LineViews.{address_seen, line_seen, symbol_seen};

use memchr::memchr;

/// A symbol of a kernel.
#[derive(Clone, Copy, Debug)]
pub(crate) struct KernelSymbol<'a> {
    /// Its address.
    pub(crate) address: u64,
    /// Its name, and behind a tabulator the module that it is in.
    pub(crate) name: &'a [u8],
}

/// A line of a list, and what follows it.
#[derive(Clone, Copy, Debug)]
pub(crate) struct Line<'a> {
    /// The line.
    pub(crate) bytes: &'a [u8],
    /// What follows it.
    pub(crate) rest: &'a [u8],
}

// The address that a line begins with, and what follows the space behind it.
#[derive(Clone, Copy, Debug)]
struct Address<'a> {
    number: u64,
    rest: &'a [u8],
}

// Where a byte is for the first time.
fn first_of(bytes: &[u8], wanted: u8) -> Option<usize>
    ensures { result ≡ position (λ byte. byte == wanted) bytes.now }
{
    memchr(wanted, bytes)
}

/// The first line of a list, and what follows it.
pub(crate) fn first_line(list: &[u8]) -> Line<'_>
    ensures { line_seen result ≡ first_line list.now }
{
    match first_of(list, b'\n') {
        Some(size) => Line {
            bytes: &list[..size],
            rest: &list[size + 1..],
        },
        None => Line {
            bytes: list,
            rest: &[],
        },
    }
}

// The value of a hexadecimal digit.
fn digit_of(byte: u8) -> Option<u64>
    ensures digit { result ≡ digit_of byte }
    ensures small { IfSome result (λ digit. digit < 16) }
{
    let is_decimal = b'0' <= byte && byte <= b'9';
    let is_letter = b'a' <= byte && byte <= b'f';
    if !(is_decimal | is_letter) {
        return None;
    }
    let zero = if is_decimal { b'0' } else { b'a' - 10 };
    Some(u64::from(byte - zero))
}

// A number with a digit more, if it is one of 64 bits.
fn number_with(number: u64, byte: u8) -> Option<u64>
    ensures { result ≡ number_with number byte }
{
    let Some(digit) = digit_of(byte) else {
        return None;
    };
    if number < 1 << 60 {
        Some(number * 16 + digit)
    } else {
        None
    }
}

// The address that a line begins with, in hexadecimal digits, and what follows the space behind it.
fn address_in(line: &[u8]) -> Option<Address<'_>>
    ensures { option_map address_seen result ≡ address_in line.now }
{
    let mut number = 0;
    for (index, byte) in line.iter().enumerate() {
        if *byte == b' ' {
            return Some(Address {
                number,
                rest: &line[index + 1..],
            });
        }
        let Some(next) = number_with(number, *byte) else {
            return None;
        };
        number = next;
    }
    None
}

// Whether symbols of a type have code.
fn is_code(letter: u8) -> bool
    ensures { result ≡ is_code letter }
{
    letter == b't' || letter == b'T' || letter == b'w' || letter == b'W'
}

// The name behind the letter of a type and a space, if symbols of this type have code.
fn name_behind(rest: &[u8]) -> Option<&[u8]>
    ensures { option_copied result ≡ name_behind rest.now }
{
    match rest {
        [letter, b' ', name @ ..] if is_code(*letter) => Some(name),
        _ => None,
    }
}

/// The symbol in a line, if it has code and an address, which is 0 if who made the list may not see addresses: the address in hexadecimal
/// digits, the letter of its type and its name, each behind a space, and behind a tabulator the module that it is in.
pub(crate) fn symbol_in(line: &[u8]) -> Option<KernelSymbol<'_>>
    ensures { option_map symbol_seen result ≡ symbol_in line.now }
{
    let Some(address) = address_in(line) else {
        return None;
    };
    if address.number == 0 {
        return None;
    }
    match name_behind(address.rest) {
        Some(name) => Some(KernelSymbol {
            address: address.number,
            name,
        }),
        None => None,
    }
}

/// The bytes before the first one of a kind, or all.
pub(crate) fn before_byte(bytes: &[u8], wanted: u8) -> &[u8]
    ensures { result.now ≡ before_byte bytes.now wanted }
{
    match first_of(bytes, wanted) {
        Some(size) => &bytes[..size],
        None => bytes,
    }
}
