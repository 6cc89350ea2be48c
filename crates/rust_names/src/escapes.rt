//! Characters that can't stand in a symbol, as the legacy scheme writes them.

ghost use Rattle.std.specs.Prelude.{◌≡◌, ◌<◌, IfSome, length};
ghost use Rattle.rust_names.specs.Escapes.{dollar_of, escape_of, escaped_at, first_of, hex_of, named_escape, next_of, point_at, unescaped};
ghost use Rattle.symbol_text.specs.Texts.{Gives};

use symbol_text::{Failure, append};

/// The value of a small hexadecimal digit.
pub fn hex(byte: u8) -> Option<u8>
    ensures value { result ≡ hex_of byte }
    ensures small { IfSome result (λ digit. digit < 16) }
{
    if b'0' <= byte && byte <= b'9' {
        return Some(byte - b'0');
    }
    if b'a' <= byte && byte <= b'f' {
        return Some(byte - b'a' + 10);
    }
    None
}

// The character of a name of two letters.
fn by_name(first: u8, second: u8) -> Option<u8>
    ensures { result ≡ named_escape first second }
{
    match first as u16 * 256 + second as u16 {
        0x5350 => Some(b'@'), // SP
        0x4250 => Some(b'*'), // BP
        0x5246 => Some(b'&'), // RF
        0x4c54 => Some(b'<'), // LT
        0x4754 => Some(b'>'), // GT
        0x4c50 => Some(b'('), // LP
        0x5250 => Some(b')'), // RP
        _ => None,
    }
}

// The character that stands between two dollars.
fn escape(name: &[u8]) -> Option<u8>
    ensures { result ≡ escape_of name.now }
{
    let (first, rest) = name.split_first()?;
    let Some((second, rest)) = rest.split_first() else {
        return if *first == b'C' { Some(b',') } else { None };
    };
    let Some((third, rest)) = rest.split_first() else {
        return by_name(*first, *second);
    };
    if *first != b'u' || 0 < rest.len() {
        return None;
    }
    let high = hex(*second)?;
    let low = hex(*third)?;
    let byte = high * 16 + low;
    if byte < 0x20 || 0x7f <= byte {
        None
    } else {
        Some(byte)
    }
}

// Where the next dollar stands.
#[tactic(auto, unfolding(crate::specs::Escapes::dollar_of))]
fn dollar(bytes: &[u8]) -> Option<usize>
    ensures value { result ≡ dollar_of bytes.now }
    ensures within { IfSome result (λ at. at < length bytes.now) }
{
    bytes.iter().position(|byte| *byte == b'$')
}

// What a dollar begins.
#[tactic(auto, unfolding(crate::specs::Escapes::escaped_at))]
fn append_escaped<'n>(text: &mut Vec<u8>, rest: &'n [u8]) -> Result<&'n [u8], Failure>
    ensures { Gives (λ left. (left.now, text.new.items)) result (escaped_at rest.now text.old.items) }
{
    let Some(end) = dollar(rest) else {
        return Err(Failure::NotUnderstood);
    };
    let Some(byte) = escape(&rest[..end]) else {
        return Err(Failure::NotUnderstood);
    };
    append(text, &[byte])?;
    Ok(&rest[end + 1..])
}

// What a point begins: two points stand between parts of a path, one for a dash.
#[tactic(auto, unfolding(crate::specs::Escapes::point_at))]
fn append_point<'n>(text: &mut Vec<u8>, rest: &'n [u8]) -> Result<&'n [u8], Failure>
    ensures { Gives (λ left. (left.now, text.new.items)) result (point_at rest.now text.old.items) }
{
    if let Some((next, after)) = rest.split_first()
        && *next == b'.'
    {
        append(text, b"::")?;
        return Ok(after);
    }
    append(text, b"-")?;
    Ok(rest)
}

// The next character of a part.
#[tactic(auto, unfolding(crate::specs::Escapes::next_of))]
fn append_next<'n>(text: &mut Vec<u8>, bytes: &'n [u8]) -> Result<&'n [u8], Failure>
    ensures { Gives (λ left. (left.now, text.new.items)) result (next_of bytes.now text.old.items) }
{
    let Some((first, rest)) = bytes.split_first() else {
        return Ok(bytes);
    };
    if *first == b'$' {
        return append_escaped(text, rest);
    }
    if *first == b'.' {
        return append_point(text, rest);
    }
    append(text, &[*first])?;
    Ok(rest)
}

// A part without the underscore that stands before a dollar at its beginning.
fn begin(bytes: &[u8]) -> &[u8]
    ensures { result.now ≡ first_of bytes.now }
{
    let Some((first, rest)) = bytes.split_first() else {
        return bytes;
    };
    let Some((second, _)) = rest.split_first() else {
        return bytes;
    };
    if *first == b'_' && *second == b'$' {
        rest
    } else {
        bytes
    }
}

/// Appends a part of a path, with the characters that stand for others.
#[tactic(auto, using(crate::proofs::EscapeLemmas::unescaped_step))]
pub fn append_part(text: &mut Vec<u8>, bytes: &[u8]) -> Result<(), Failure>
    ensures { Gives (λ _. text.new.items) result (unescaped (length bytes.now) (first_of bytes.now) text.old.items) }
{
    let mut rest = begin(bytes);
    for i in 0..bytes.len() {
        rest = append_next(text, rest)?;
    }
    if 0 < rest.len() {
        return Err(Failure::NotUnderstood);
    }
    Ok(())
}
