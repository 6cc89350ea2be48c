//! Names by the scheme v0.

ghost use Rattle.std.specs.Prelude.{◌≡◌, ◌<◌, ◌≤◌, IfOk, IfSome, length, vec_len};
ghost use Rattle.std.specs.Option.{option_copied};
ghost use Rattle.symbol_text.specs.Texts.{Gives};
ghost use Rattle.rust_names.specs.Names.{all_words, body_of, demangled_of, is_word_of, point_of, scheme_of, v0_demangled_of};

use crate::grammar::Rule;
use crate::legacy;
use crate::machine::Machine;
use std::alloc::Global;
use symbol_text::{Failure, TEXT_LIMIT, after_byte};

/// How many steps the reading of a name may take for each of its bytes.
pub const STEPS_PER_BYTE: usize = 256;

// A letter, a digit or an underscore.
fn is_word(byte: u8) -> bool
    ensures { result ≡ is_word_of byte }
{
    (b'a' <= byte && byte <= b'z')
        || (b'A' <= byte && byte <= b'Z')
        || (b'0' <= byte && byte <= b'9')
        || byte == b'_'
}

// All are letters, digits and underscores.
fn are_words(bytes: &[u8]) -> bool
    ensures { result ≡ all_words bytes.now }
{
    for byte in bytes {
        if !is_word(*byte) {
            return false;
        }
    }
    true
}

// Where the first point stands.
#[tactic(auto, unfolding(crate::specs::Names::point_of))]
fn point(bytes: &[u8]) -> Option<usize>
    ensures value { result ≡ point_of bytes.now }
    ensures within { IfSome result (λ at. at < length bytes.now) }
{
    bytes.iter().position(|byte| *byte == b'.')
}

// What stands before the first point, behind which compilers write what isn't of the name.
fn body(bytes: &[u8]) -> &[u8]
    ensures { result.now ≡ body_of bytes.now }
{
    match point(bytes) {
        None => bytes,
        Some(end) => &bytes[..end],
    }
}

// What follows `_R`.
fn after_scheme(name: &[u8]) -> Option<&[u8]>
    ensures { option_copied result ≡ scheme_of name.now }
{
    let rest = after_byte(name, b'_')?;
    after_byte(rest, b'R')
}

// The text of a name behind `_R`.
#[tactic(auto, unfolding(crate::specs::Names::v0_demangled_of))]
fn v0_demangled(alloc: Global, rest: &[u8]) -> Result<Vec<u8>, Failure>
    ensures text { Gives (λ text. text.items) result (v0_demangled_of rest.now) }
    ensures bounded { IfOk result (λ text. vec_len text ≤ TEXT_LIMIT) }
{
    let name = body(rest);
    if TEXT_LIMIT < name.len() || !are_words(name) {
        return Err(Failure::NotUnderstood);
    }
    let mut machine = Machine::new(alloc, name);
    machine.enter(Rule::Whole)?;
    machine.run(name.len() * STEPS_PER_BYTE)?;
    machine.text_of()
}

/// The text of a mangled name of Rust, without hashes and the types of constants, as gdb writes it. Fails with
/// `NotUnderstood` for all else.
pub fn demangled(alloc: Global, name: &[u8]) -> Result<Vec<u8>, Failure>
    ensures text { Gives (λ text. text.items) result (demangled_of name.now) }
    ensures bounded { IfOk result (λ text. vec_len text ≤ TEXT_LIMIT) }
{
    match after_scheme(name) {
        Some(rest) => v0_demangled(alloc, rest),
        None => legacy::demangled(alloc, name),
    }
}
