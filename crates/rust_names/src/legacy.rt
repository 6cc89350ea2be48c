//! Paths of the legacy scheme.

ghost use Rattle.std.specs.Prelude.{◌≡◌, ◌≤◌, IfOk, option_map, true, vec_len};
ghost use Rattle.std.specs.Option.{option_copied};
ghost use Rattle.rust_names.specs.Legacy.{all_hex, demangled_of, ends_path, is_hash_part, part_of, path_of, prefix_of, step_of};
ghost use Rattle.symbol_text.specs.Texts.{Gives};

use crate::escapes::append_part;
use std::alloc::Global;
use symbol_text::{Failure, Numerals, TEXT_LIMIT, after_byte, append, number_at};

/// All are small hexadecimal digits.
pub fn are_hex(bytes: &[u8]) -> bool
    ensures { result ≡ all_hex bytes.now }
{
    for byte in bytes {
        if *byte < b'0' || b'f' < *byte || (b'9' < *byte && *byte < b'a') {
            return false;
        }
    }
    true
}

// A part is a hash: `h` and 16 digits.
fn is_hash(part: &[u8]) -> bool
    ensures { result ≡ is_hash_part part.now }
{
    let Some((first, digits)) = part.split_first() else {
        return false;
    };
    *first == b'h' && digits.len() == 16 && are_hex(digits)
}

// The part that the bytes begin with, and what follows it.
fn part_at(bytes: &[u8]) -> Option<(&[u8], &[u8])>
    ensures { option_map (λ found. (found.0.now, found.1.now)) result ≡ part_of bytes.now }
{
    let (count, rest) = number_at(Numerals::Decimal, bytes)?;
    if rest.len() < count {
        return None;
    }
    Some((&rest[..count], &rest[count..]))
}

// The path ends: behind it there is nothing, or what compilers write after a point.
fn is_end(rest: &[u8]) -> bool
    ensures { result ≡ ends_path rest.now }
{
    let Some((first, rest)) = rest.split_first() else {
        return false;
    };
    let Some((second, _)) = rest.split_first() else {
        return *first == b'E';
    };
    *first == b'E' && *second == b'.'
}

// Appends the next part of a path, and gives what follows it, or nothing if the next part is the hash.
#[tactic(auto, unfolding(crate::specs::Legacy::step_of))]
fn append_step<'n>(
    text: &mut Vec<u8>,
    is_first: bool,
    bytes: &'n [u8],
) -> Result<Option<&'n [u8]>, Failure>
    ensures { Gives (λ left. (option_copied left, text.new.items)) result (step_of is_first bytes.now text.old.items) }
{
    let Some((part, rest)) = part_at(bytes) else {
        return Err(Failure::NotUnderstood);
    };
    if is_end(rest) {
        if is_first || !is_hash(part) {
            return Err(Failure::NotUnderstood);
        }
        return Ok(None);
    }
    if !is_first {
        append(text, b"::")?;
    }
    append_part(text, part)?;
    Ok(Some(rest))
}

// Appends a path of so many parts at most.
#[tactic(auto, using(crate::proofs::PathLemmas::path_step))]
fn append_path(text: &mut Vec<u8>, most: usize, bytes: &[u8]) -> Result<(), Failure>
    ensures { Gives (λ _. text.new.items) result (path_of most true bytes.now text.old.items) }
{
    let mut rest = bytes;
    let mut is_first = true;
    for i in 0..most {
        match append_step(text, is_first, rest)? {
            None => return Ok(()),
            Some(left) => {
                rest = left;
                is_first = false;
            }
        }
    }
    Err(Failure::NotUnderstood)
}

// What follows `_ZN`.
fn after_prefix(name: &[u8]) -> Option<&[u8]>
    ensures { option_copied result ≡ prefix_of name.now }
{
    let rest = after_byte(name, b'_')?;
    let rest = after_byte(rest, b'Z')?;
    after_byte(rest, b'N')
}

/// The text of a name of the legacy scheme, without its hash, as `c++filt` and `rustfilt` write it. Fails with `NotUnderstood`
/// for all else.
#[tactic(auto, unfolding(crate::specs::Legacy::demangled_of))]
pub fn demangled(alloc: Global, name: &[u8]) -> Result<Vec<u8>, Failure>
    ensures text { Gives (λ text. text.items) result (demangled_of name.now) }
    ensures bounded { IfOk result (λ text. vec_len text ≤ TEXT_LIMIT) }
{
    let Some(rest) = after_prefix(name) else {
        return Err(Failure::NotUnderstood);
    };
    let mut path = Vec::new(alloc);
    append_path(&mut path, name.len(), rest)?;
    let mut text = Vec::new(alloc);
    append(&mut text, &path)?;
    Ok(text)
}
