//! What productions write, and the letters of types.

ghost use Rattle.std.specs.Prelude.{◌≡◌, option_map};
ghost use Rattle.std.specs.Option.{option_copied};
ghost use Rattle.rust_names.specs.Choices.{begins, entry_of, fits};
ghost use Rattle.rust_names.specs.Words.{basic_of, phrase_of, special_of};
ghost use Rattle.std.specs.Prelude.{◌<◌, IfSome, length, slice_get};

use crate::symbol::{Look, Phrase, Symbol};

/// What a phrase is written as.
pub fn phrase(phrase: Phrase) -> &'static [u8]
    ensures { result.now ≡ phrase_of phrase }
{
    match phrase {
        Phrase::Comma => b", ",
        Phrase::As => b" as ",
        Phrase::ValueArguments => b"::<",
        Phrase::Mutable => b"mut ",
        Phrase::ConstPointer => b"*const ",
        Phrase::MutablePointer => b"*mut ",
        Phrase::Length => b"; ",
        Phrase::Dyn => b"dyn ",
        Phrase::Plus => b" + ",
        Phrase::Unsafe => b"unsafe ",
        Phrase::ExternC => b"extern \"C\" ",
        Phrase::Extern => b"extern \"",
        Phrase::EndExtern => b"\" ",
        Phrase::Function => b"fn(",
        Phrase::Returns => b" -> ",
        Phrase::Equals => b" = ",
    }
}

/// The type of a letter (RFC 2603, `<basic-type>`).
pub fn basic(letter: u8) -> Option<&'static [u8]>
    ensures { option_copied result ≡ basic_of letter }
{
    match letter {
        b'a' => Some(b"i8"),
        b'b' => Some(b"bool"),
        b'c' => Some(b"char"),
        b'd' => Some(b"f64"),
        b'e' => Some(b"str"),
        b'f' => Some(b"f32"),
        b'h' => Some(b"u8"),
        b'i' => Some(b"isize"),
        b'j' => Some(b"usize"),
        b'l' => Some(b"i32"),
        b'm' => Some(b"u32"),
        b'n' => Some(b"i128"),
        b'o' => Some(b"u128"),
        b's' => Some(b"i16"),
        b't' => Some(b"u16"),
        b'u' => Some(b"()"),
        b'v' => Some(b"..."),
        b'x' => Some(b"i64"),
        b'y' => Some(b"u64"),
        b'z' => Some(b"!"),
        b'p' => Some(b"_"),
        _ => None,
    }
}

/// What a namespace of special names is written as, if it isn't written as its letter.
pub fn special(namespace: u8) -> Option<&'static [u8]>
    ensures { option_copied result ≡ special_of namespace }
{
    match namespace {
        b'C' => Some(b"closure"),
        b'S' => Some(b"shim"),
        _ => None,
    }
}

// The next byte is such.
fn look_fits(look: Look, next: Option<u8>) -> bool
    ensures { result ≡ fits look next }
{
    match (look, next) {
        (Look::Any, _) => true,
        (Look::End, None) => true,
        (Look::Byte(byte), Some(next)) => next == byte,
        (Look::Lower, Some(next)) => b'a' <= next && next <= b'z',
        (Look::Letter, Some(next)) => {
            (b'a' <= next && next <= b'z') || (b'A' <= next && next <= b'Z')
        }
        _ => false,
    }
}

// A symbol begins a production that fits the next two bytes.
fn symbol_begins(symbol: Symbol, first: Option<u8>, second: Option<u8>) -> bool
    ensures { result ≡ begins first second symbol }
{
    match symbol {
        Symbol::When(one, two) => look_fits(one, first) && look_fits(two, second),
        _ => false,
    }
}

/// Where in a rule's symbols the production stands that fits the next two bytes.
pub fn entry(symbols: &[Symbol], first: Option<u8>, second: Option<u8>) -> Option<usize>
    ensures value { result ≡ entry_of first second symbols.now }
    ensures within { IfSome result (λ at. at < length symbols.now) }
{
    symbols
        .iter()
        .position(|symbol| symbol_begins(*symbol, first, second))
}

/// A byte by its place.
pub fn byte_at(bytes: &[u8], index: usize) -> Option<u8>
    ensures { result ≡ slice_get bytes.now index }
{
    bytes.get(index).copied()
}
