//! Punycode (RFC 3492), as identifiers have it: an underscore is the delimiter.

ghost use Rattle.std.specs.Prelude.{◌≡◌, ◌<◌, ◌≤◌, ◌^◌, IfOk, IfSome, IsFalse, None, encode_utf8, length};
ghost use Rattle.symbol_text.specs.Numbers.{SomeOf};
ghost use Rattle.symbol_text.specs.Texts.{Gives, appended};
ghost use Rattle.rust_names.specs.Punycode.{all_inserted, bias_of, character_of, characters_appended, decoded, delta_of, digit_of, inserted, last_underscore, made, passed, scaled, spread_of, threshold_of, view};

use std::alloc::{AllocError, Global};
use symbol_text::{Failure, append};

/// How many bytes an identifier in Punycode may have. Each of its characters is put between others.
pub const PUNYCODE_LIMIT: usize = 256;

/// A number from this one on may have no further digit: no character is that far.
pub const DELTA_LIMIT: usize = 1 << 40;

/// How often a delta can be divided by 35 until it is small.
pub const TURNS: usize = 10;

/// What was decoded so far.
#[derive(Drop)]
pub struct Decoding<'n> {
    /// The digits that aren't read yet.
    pub rest: &'n [u8],
    pub characters: Vec<char>,
    /// The character that was inserted last.
    pub last: u32,
    /// Where the next can stand.
    pub index: usize,
    pub bias: usize,
}

// The value of a digit.
fn digit(byte: u8) -> Option<usize>
    ensures value { result ≡ digit_of byte }
    ensures small { IfSome result (λ d. d < 36) }
{
    if b'a' <= byte && byte <= b'z' {
        return Some((byte - b'a') as usize);
    }
    if b'0' <= byte && byte <= b'9' {
        return Some((byte - b'0') as usize + 26);
    }
    None
}

// The digit that ends a number is below this one.
fn threshold(bias: usize, place: usize) -> usize
    ensures value { result ≡ threshold_of bias place }
    ensures small { result ≤ 26 }
{
    let past = place.saturating_sub(bias);
    if past < 1 {
        1
    } else if 26 < past {
        26
    } else {
        past
    }
}

// A number is too large to go on.
fn is_far(place: usize, weight: usize, sum: usize) -> bool
    ensures value { result ≡ passed place weight sum }
    ensures small { IsFalse result → (place < 2 ^ 40) × (weight < 2 ^ 40) × (sum < 2 ^ 40) }
{
    DELTA_LIMIT <= place || DELTA_LIMIT <= weight || DELTA_LIMIT <= sum
}

// A number with the one that the digits say, and what follows them.
fn delta_at(start: usize, bias: usize, bytes: &[u8]) -> Option<(usize, &[u8])>
    ensures value { SomeOf result (delta_of start bias bytes.now) }
    ensures small { IfSome result (λ p. p.0 < 2 ^ 47) }
{
    let mut sum = start;
    let mut weight = 1;
    let mut place = 36;
    for (i, byte) in bytes.iter().enumerate() {
        let value = digit(*byte)?;
        if is_far(place, weight, sum) {
            return None;
        }
        sum += value * weight;
        let end = threshold(bias, place);
        if value < end {
            return Some((sum, &bytes[i + 1..]));
        }
        weight *= 36 - end;
        place += 36;
    }
    None
}

// What a delta is spread over the characters as.
fn spread(delta: usize, count: usize, is_first: bool) -> usize
    requires fits { delta < 2 ^ 47 }
    requires some { 0 < count }
    ensures value { result ≡ spread_of delta count is_first }
    ensures small { result < 2 ^ 48 }
{
    let damped = if is_first { delta / 700 } else { delta / 2 };
    damped + damped / count
}

// The bias of a place and what is left of a delta.
fn bias(place: usize, delta: usize) -> usize
    requires near { place < 2 ^ 20 }
    requires small { delta < 2 ^ 48 }
    ensures { result ≡ bias_of place delta }
{
    place + 36 * delta / (delta + 38)
}

// The bias after a delta.
#[tactic(auto, using(crate::proofs::PunycodeLemmas::scaled_step))]
fn scale(spread: usize) -> usize
    requires { spread < 2 ^ 48 }
    ensures { result ≡ scaled TURNS 0 spread }
{
    let mut delta = spread;
    let mut place = 0;
    for turn in 0..TURNS {
        if delta <= 455 {
            return bias(place, delta);
        }
        delta /= 35;
        place += 36;
    }
    bias(place, delta)
}

// The character that stands so many after another.
fn character(last: u32, more: usize) -> Option<char>
    ensures { result ≡ character_of last more }
{
    if 0x11_0000 <= more {
        return None;
    }
    let code = last as usize + more;
    if 0x11_0000 <= code {
        return None;
    }
    char::from_u32(code as u32)
}

impl<'n> Decoding<'n> {
    // Inserts the next character.
    #[tactic(auto, unfolding(crate::specs::Punycode::inserted))]
    fn insert(&mut self) -> Result<(), Failure>
        ensures { Gives (λ _. view self.new) result (inserted (view self.old)) }
    {
        let Some((sum, rest)) = delta_at(self.index, self.bias, self.rest) else {
            return Err(Failure::NotUnderstood);
        };
        let count = self.characters.len() + 1;
        let Some(next) = character(self.last, sum / count) else {
            return Err(Failure::NotUnderstood);
        };
        let index = sum % count;
        let delta = sum.saturating_sub(self.index);
        self.characters.insert(index, next)?;
        self.bias = scale(spread(delta, count, self.index == 0));
        self.last = next as u32;
        self.index = index + 1;
        self.rest = rest;
        Ok(())
    }

    // Inserts so many characters at most.
    #[tactic(auto, using(crate::proofs::PunycodeLemmas::inserted_step))]
    fn insert_all(&mut self, most: usize) -> Result<(), Failure>
        ensures { Gives (λ _. view self.new) result (all_inserted most (view self.old)) }
    {
        for i in 0..most {
            if self.rest.is_empty() {
                return Ok(());
            }
            self.insert()?;
        }
        if self.rest.is_empty() {
            Ok(())
        } else {
            Err(Failure::NotUnderstood)
        }
    }
}

// Where the last underscore stands.
fn delimiter(bytes: &[u8]) -> Option<usize>
    ensures value { result ≡ last_underscore 0 None bytes.now }
    ensures within { IfSome result (λ at. at < length bytes.now) }
{
    let mut found = None;
    for (i, byte) in bytes.iter().enumerate() {
        if *byte == b'_' {
            found = Some(i);
        }
    }
    found
}

// The characters of some bytes.
fn characters(alloc: Global, bytes: &[u8]) -> Result<Vec<char>, AllocError>
    ensures { IfOk result (λ found. found.items ≡ bytes.now) }
{
    let mut found = Vec::new(alloc);
    for byte in bytes {
        found.push(char::from(*byte))?;
    }
    Ok(found)
}

// Appends a character as UTF-8.
fn append_character(alloc: Global, text: &mut Vec<u8>, character: char) -> Result<(), Failure>
    ensures { Gives (λ _. text.new.items) result (appended (encode_utf8 character) text.old.items) }
{
    let mut bytes = String::new(alloc);
    bytes.push(character)?;
    append(text, bytes.as_bytes())
}

// Appends characters as UTF-8.
fn append_characters(alloc: Global, text: &mut Vec<u8>, characters: &[char]) -> Result<(), Failure>
    ensures { Gives (λ _. text.new.items) result (characters_appended characters.now text.old.items) }
{
    for character in characters {
        append_character(alloc, text, *character)?;
    }
    Ok(())
}

// Appends what digits make of the characters before them.
#[tactic(auto, unfolding(crate::specs::Punycode::made))]
fn append_made(
    alloc: Global,
    text: &mut Vec<u8>,
    basic: &[u8],
    digits: &[u8],
) -> Result<(), Failure>
    ensures { Gives (λ _. text.new.items) result (made basic.now digits.now text.old.items) }
{
    if digits.is_empty() {
        return Err(Failure::NotUnderstood);
    }
    let mut decoding = Decoding {
        rest: digits,
        characters: characters(alloc, basic)?,
        last: 0x80,
        index: 0,
        bias: 72,
    };
    decoding.insert_all(digits.len())?;
    append_characters(alloc, text, &decoding.characters)
}

/// Appends the characters that an identifier in Punycode has, as UTF-8.
#[tactic(auto, unfolding(crate::specs::Punycode::decoded))]
pub fn append_decoded(alloc: Global, text: &mut Vec<u8>, bytes: &[u8]) -> Result<(), Failure>
    ensures { Gives (λ _. text.new.items) result (decoded bytes.now text.old.items) }
{
    if PUNYCODE_LIMIT < bytes.len() {
        return Err(Failure::NotUnderstood);
    }
    match delimiter(bytes) {
        None => append_made(alloc, text, b"", bytes),
        Some(at) => append_made(alloc, text, &bytes[..at], &bytes[at + 1..]),
    }
}
