//! Texts of names, lifetimes and constants.

ghost use Rattle.std.specs.Prelude.{◌≡◌, ◌+◌, ◌<◌, ◌≤◌, ◌^◌, IfOk, true};
ghost use Rattle.symbol_text.specs.Texts.{Gives, appended};
ghost use Rattle.rust_names.specs.Identifiers.{view};
ghost use Rattle.rust_names.specs.Texts.{abi_appended, all_dashed, binder_appended, bound_appended, character_appended, dashed_of, identifier_appended, is_special_of, kind_appended, lifetime_appended, more_bound_from, name_appended, next_bound_appended, number_appended, ordinary_appended, quoted_appended, special_appended, truth_appended};

use crate::numbers::{Identifier, hex_value};
use crate::punycode::append_decoded;
use crate::tables::special;
use std::alloc::Global;
use symbol_text::{Failure, append, append_decimal};

/// How many lifetimes may be bound at once.
pub const LIFETIME_LIMIT: usize = 1 << 16;

/// Appends an identifier.
#[tactic(auto, unfolding(crate::specs::Texts::identifier_appended))]
pub fn append_identifier(
    alloc: Global,
    text: &mut Vec<u8>,
    identifier: Identifier<'_>,
) -> Result<(), Failure>
    ensures { Gives (λ _. text.new.items) result (identifier_appended (view identifier.entry) text.old.items) }
{
    if identifier.is_punycode {
        append_decoded(alloc, text, identifier.bytes)
    } else {
        append(text, identifier.bytes)
    }
}

// A namespace is one of special names: a capital letter.
fn is_special(namespace: u8) -> bool
    ensures { result ≡ is_special_of namespace }
{
    b'A' <= namespace && namespace <= b'Z'
}

// Appends what a special name is.
#[tactic(auto, unfolding(crate::specs::Texts::kind_appended))]
fn append_kind(text: &mut Vec<u8>, namespace: u8) -> Result<(), Failure>
    ensures { Gives (λ _. text.new.items) result (kind_appended namespace text.old.items) }
{
    append(text, b"::{")?;
    match special(namespace) {
        Some(word) => append(text, word),
        None => append(text, &[namespace]),
    }
}

// Appends an identifier behind a mark, if it has any bytes.
#[tactic(auto, unfolding(crate::specs::Texts::ordinary_appended))]
fn append_ordinary(
    alloc: Global,
    text: &mut Vec<u8>,
    mark: &[u8],
    identifier: Identifier<'_>,
) -> Result<(), Failure>
    ensures { Gives (λ _. text.new.items) result (ordinary_appended mark.now (view identifier.entry) text.old.items) }
{
    if identifier.bytes.is_empty() {
        return Ok(());
    }
    append(text, mark)?;
    append_identifier(alloc, text, identifier)
}

// Appends a special name with its number.
#[tactic(auto, unfolding(crate::specs::Texts::special_appended))]
fn append_special(
    alloc: Global,
    text: &mut Vec<u8>,
    namespace: u8,
    number: usize,
    identifier: Identifier<'_>,
) -> Result<(), Failure>
    ensures { Gives (λ _. text.new.items) result (special_appended namespace number (view identifier.entry) text.old.items) }
{
    append_kind(text, namespace)?;
    append_ordinary(alloc, text, b":", identifier)?;
    append(text, b"#")?;
    append_decimal(alloc, text, number)?;
    append(text, b"}")
}

/// Appends a name in a namespace, as `::name` or `::{closure#0}`.
#[tactic(auto, unfolding(crate::specs::Texts::name_appended))]
pub fn append_name(
    alloc: Global,
    text: &mut Vec<u8>,
    namespace: u8,
    number: usize,
    identifier: Identifier<'_>,
) -> Result<(), Failure>
    ensures { Gives (λ _. text.new.items) result (name_appended namespace number (view identifier.entry) text.old.items) }
{
    if is_special(namespace) {
        append_special(alloc, text, namespace, number, identifier)
    } else {
        append_ordinary(alloc, text, b"::", identifier)
    }
}

// A byte of the name of an ABI, in which underscores stand for dashes.
fn dashed(byte: u8) -> u8
    ensures { result ≡ dashed_of byte }
{
    if byte == b'_' { b'-' } else { byte }
}

// Appends bytes with dashes for underscores.
fn append_dashed(text: &mut Vec<u8>, bytes: &[u8]) -> Result<(), Failure>
    ensures { Gives (λ _. text.new.items) result (all_dashed bytes.now text.old.items) }
{
    for byte in bytes {
        append(text, &[dashed(*byte)])?;
    }
    Ok(())
}

/// Appends the name of an ABI.
#[tactic(auto, unfolding(crate::specs::Texts::abi_appended))]
pub fn append_abi(text: &mut Vec<u8>, identifier: Identifier<'_>) -> Result<(), Failure>
    ensures { Gives (λ _. text.new.items) result (abi_appended (view identifier.entry) text.old.items) }
{
    if identifier.is_punycode || identifier.bytes.is_empty() {
        return Err(Failure::NotUnderstood);
    }
    append_dashed(text, identifier.bytes)
}

// Appends the name of the lifetime that was bound as such: a letter, or a number behind 26 of them.
#[tactic(auto, unfolding(crate::specs::Texts::bound_appended))]
fn append_bound(alloc: Global, text: &mut Vec<u8>, index: usize) -> Result<(), Failure>
    ensures { Gives (λ _. text.new.items) result (bound_appended index text.old.items) }
{
    if index < 26 {
        return append(text, &[b'a' + index as u8]);
    }
    append(text, b"_")?;
    append_decimal(alloc, text, index)
}

/// Appends a lifetime where so many are bound: 0 is one that was erased, 1 the one that was bound last.
#[tactic(auto, unfolding(crate::specs::Texts::lifetime_appended))]
pub fn append_lifetime(
    alloc: Global,
    text: &mut Vec<u8>,
    depth: usize,
    lifetime: usize,
) -> Result<(), Failure>
    ensures { Gives (λ _. text.new.items) result (lifetime_appended depth lifetime text.old.items) }
{
    if depth < lifetime {
        return Err(Failure::NotUnderstood);
    }
    append(text, b"'")?;
    if lifetime == 0 {
        return append(text, b"_");
    }
    append_bound(alloc, text, depth - lifetime)
}

// Appends a lifetime that is bound behind another.
#[tactic(auto, unfolding(crate::specs::Texts::next_bound_appended))]
fn append_next_bound(alloc: Global, text: &mut Vec<u8>, index: usize) -> Result<(), Failure>
    ensures { Gives (λ _. text.new.items) result (next_bound_appended index text.old.items) }
{
    append(text, b", '")?;
    append_bound(alloc, text, index)
}

// Appends so many lifetimes more, which are bound behind others, with commas before them.
#[tactic(auto, using(crate::proofs::TextLemmas::more_bound_step))]
fn append_more_bound(
    alloc: Global,
    text: &mut Vec<u8>,
    depth: usize,
    count: usize,
) -> Result<(), Failure>
    requires { depth + count < 2 ^ 64 }
    ensures { Gives (λ _. text.new.items) result (more_bound_from depth count text.old.items) }
{
    for i in 0..count {
        append_next_bound(alloc, text, depth + i)?;
    }
    Ok(())
}

/// Appends the lifetimes that are bound where some are.
#[tactic(auto, unfolding(crate::specs::Texts::binder_appended))]
pub fn append_binder(
    alloc: Global,
    text: &mut Vec<u8>,
    depth: usize,
    count: usize,
) -> Result<(), Failure>
    ensures text { Gives (λ _. text.new.items) result (binder_appended depth count text.old.items) }
    ensures small { IfOk result (λ _. depth + count ≤ LIFETIME_LIMIT) }
{
    if LIFETIME_LIMIT < depth || LIFETIME_LIMIT - depth < count {
        return Err(Failure::NotUnderstood);
    }
    if count == 0 {
        return Ok(());
    }
    append(text, b"for<'")?;
    append_bound(alloc, text, depth)?;
    append_more_bound(alloc, text, depth + 1, count - 1)?;
    append(text, b"> ")
}

/// Appends a number by its hexadecimal digits: as a decimal one, or as it is if it takes over 64 bits.
#[tactic(auto, unfolding(crate::specs::Texts::number_appended))]
pub fn append_number(alloc: Global, text: &mut Vec<u8>, digits: &[u8]) -> Result<(), Failure>
    ensures { Gives (λ _. text.new.items) result (number_appended digits.now text.old.items) }
{
    if digits.is_empty() {
        return Err(Failure::NotUnderstood);
    }
    if let Some(number) = hex_value(digits) {
        return append_decimal(alloc, text, number);
    }
    append(text, b"0x")?;
    append(text, digits)
}

/// Appends a truth value by its digit.
#[tactic(auto, unfolding(crate::specs::Texts::truth_appended))]
pub fn append_truth(text: &mut Vec<u8>, digits: &[u8]) -> Result<(), Failure>
    ensures { Gives (λ _. text.new.items) result (truth_appended digits.now text.old.items) }
{
    let Some((first, rest)) = digits.split_first() else {
        return Err(Failure::NotUnderstood);
    };
    if 0 < rest.len() {
        return Err(Failure::NotUnderstood);
    }
    match *first {
        b'0' => append(text, b"false"),
        b'1' => append(text, b"true"),
        _ => Err(Failure::NotUnderstood),
    }
}

// Appends a character by its code, or by its digits if it isn't one of ASCII that can be seen.
#[tactic(auto, unfolding(crate::specs::Texts::quoted_appended))]
fn append_quoted(text: &mut Vec<u8>, code: usize, digits: &[u8]) -> Result<(), Failure>
    ensures { Gives (λ _. text.new.items) result (quoted_appended code digits.now text.old.items) }
{
    if code == 9 {
        return append(text, b"\\t");
    }
    if code == 10 {
        return append(text, b"\\n");
    }
    if code == 13 {
        return append(text, b"\\r");
    }
    if 32 < code && code < 126 {
        return append(text, &[code as u8]);
    }
    append(text, b"\\u{")?;
    append(text, digits)?;
    append(text, b"}")
}

/// Appends a character by the digits of its code, with quotes.
#[tactic(auto, unfolding(crate::specs::Texts::character_appended))]
pub fn append_character(text: &mut Vec<u8>, digits: &[u8]) -> Result<(), Failure>
    ensures { Gives (λ _. text.new.items) result (character_appended digits.now text.old.items) }
{
    if digits.is_empty() || 8 < digits.len() {
        return Err(Failure::NotUnderstood);
    }
    let Some(code) = hex_value(digits) else {
        return Err(Failure::NotUnderstood);
    };
    append(text, b"'")?;
    append_quoted(text, code, digits)?;
    append(text, b"'")
}
