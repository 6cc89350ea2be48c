//! Pieces that are on top of others, and what is chosen by the next bytes.

ghost use Rattle.std.specs.Prelude.{◌≡◌, ◌<◌, ◌++◌, IfSome, OnOk, length, slice_get};
ghost use Rattle.itanium_names.specs.Choices.{begins, entry_of, fits};
ghost use Rattle.itanium_names.specs.Pieces.{collected, ends_with_byte_of, first_dependence_of, has_pack_kind, is_dependent_piece, is_pack_kind, listed, merged, replaced, top_of};
ghost use Rattle.symbol_text.specs.Texts.{Gives};

use crate::symbol::{Look, Symbol};
use symbol_text::{Failure, Kind, NOWHERE, Piece, Span, join};

// The next byte is such.
fn look_fits(look: Look, next: Option<u8>) -> bool
    ensures { result ≡ fits look next }
{
    match (look, next) {
        (Look::Any, _) => true,
        (Look::End, None) => true,
        (Look::Byte(byte), Some(next)) => next == byte,
        (Look::Digit, Some(next)) => b'0' <= next && next <= b'9',
        (Look::Lower, Some(next)) => b'a' <= next && next <= b'z',
        (Look::Hex, Some(next)) => {
            (b'0' <= next && next <= b'9') || (b'a' <= next && next <= b'f')
        }
        _ => false,
    }
}

// A symbol begins a production that fits the next two bytes.
fn symbol_begins(symbol: Symbol, first: Option<u8>, second: Option<u8>) -> bool
    ensures { result ≡ begins first second symbol }
{
    match symbol {
        Symbol::When(one, two) => look_fits(one, first) && look_fits(two, second),
        _ => false,
    }
}

/// Where in a rule's symbols the production stands that fits the next two bytes.
pub fn entry(symbols: &[Symbol], first: Option<u8>, second: Option<u8>) -> Option<usize>
    ensures value { result ≡ entry_of first second symbols.now }
    ensures within { IfSome result (λ at. at < length symbols.now) }
{
    symbols
        .iter()
        .position(|symbol| symbol_begins(*symbol, first, second))
}

/// A piece by how many are above it.
pub fn from_top(pieces: &[Piece], index: u8) -> Option<Piece>
    ensures { result ≡ top_of index pieces.now }
{
    let below = pieces.len().checked_sub(index as usize + 1)?;
    pieces.get(below).copied()
}

/// The template arguments that either depends on, those of the first if it does.
pub fn merge(first: Span, second: Span) -> Span
    ensures { result ≡ merged first second }
{
    if first.start == first.end {
        second
    } else {
        first
    }
}

/// A byte by its place.
pub fn byte_at(bytes: &[u8], index: usize) -> Option<u8>
    ensures { result ≡ slice_get bytes.now index }
{
    bytes.get(index).copied()
}

/// A text ends with a byte.
pub fn ends_with_byte(text: &[u8], byte: u8) -> bool
    ensures { result ≡ ends_with_byte_of byte text.now }
{
    match text.last() {
        Some(last) => *last == byte,
        None => false,
    }
}

/// A piece is a pack.
pub fn is_pack(kind: Kind) -> bool
    ensures { result ≡ is_pack_kind kind }
{
    match kind {
        Kind::Pack => true,
        _ => false,
    }
}

// A piece has a template parameter in it.
fn is_dependent(piece: Piece) -> bool
    ensures { result ≡ is_dependent_piece piece }
{
    piece.depends.start != piece.depends.end
}

// The template arguments that the first piece depends on which does on any.
fn first_dependence(pieces: &[Piece]) -> Span
    ensures { result ≡ first_dependence_of pieces.now }
{
    for piece in pieces {
        if is_dependent(*piece) {
            return piece.depends;
        }
    }
    NOWHERE
}

// There is a pack that no pattern goes over.
fn has_pack(pieces: &[Piece]) -> bool
    ensures { result ≡ has_pack_kind pieces.now }
{
    for piece in pieces {
        if is_pack(piece.kind) {
            return true;
        }
    }
    false
}

// One piece of several, which are certain elements.
#[tactic(auto, unfolding(crate::specs::Pieces::listed))]
fn list(text: &mut Vec<u8>, elements: Span, pieces: &[Piece]) -> Result<Piece, Failure>
    ensures { Gives (λ made. (made, text.new.items)) result (listed pieces.now elements text.old.items) }
{
    if has_pack(pieces) {
        return Err(Failure::NotUnderstood);
    }
    let start = text.len();
    join(text, pieces)?;
    let end = text.len();
    Ok(Piece {
        left: Span { start, end },
        right: NOWHERE,
        base: NOWHERE,
        elements,
        depends: first_dependence(pieces),
        kind: Kind::List,
    })
}

/// One piece of several, with commas between them. They are elements from then on. Fails if there is a pack that no
/// pattern goes over.
#[tactic(auto, unfolding(crate::specs::Pieces::collected))]
pub fn collect(
    text: &mut Vec<u8>,
    elements: &mut Vec<Piece>,
    pieces: &[Piece],
) -> Result<Piece, Failure>
    ensures made { Gives (λ made. (made, text.new.items)) result
        (collected pieces.now (length elements.old.items) text.old.items) }
    ensures kept { OnOk result (elements.new.items ≡ elements.old.items ++ pieces.now) }
{
    let start = elements.len();
    elements.extend_from_slice(pieces)?;
    let end = elements.len();
    list(text, Span { start, end }, pieces)
}

/// Puts a piece in place of some on top of others.
#[tactic(auto, unfolding(crate::specs::Pieces::replaced))]
pub fn replace(pieces: &mut Vec<Piece>, count: u8, piece: Piece) -> Result<(), Failure>
    ensures { Gives (λ _. pieces.new.items) result (replaced count piece pieces.old.items) }
{
    if pieces.len() < count as usize {
        return Err(Failure::NotUnderstood);
    }
    pieces.truncate(pieces.len() - count as usize);
    pieces.push(piece)?;
    Ok(())
}
