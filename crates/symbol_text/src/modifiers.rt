//! Types that are made of another type.

ghost use Rattle.std.specs.Prelude.{◌≡◌};
ghost use Rattle.symbol_text.specs.Modifiers.{closing_of, declared, ends_in, extended, modified, modified_at, opening_of, pack_modified, qualified, qualified_kind_of, referred, rvalue_referred, words_of};
ghost use Rattle.symbol_text.specs.Texts.{Gives};

use crate::failure::Failure;
use crate::piece::{Kind, NOWHERE, Piece, Span};
use crate::writing::{append, copy};

/// What a type is made of another type by (Itanium C++ ABI, 5.1.5.1 and 5.1.5.3).
#[derive(Debug, Clone, Copy, PartialEq, Eq)]
pub enum Modifier {
    Pointer,
    Reference,
    RvalueReference,
    Const,
    Volatile,
    Restrict,
    Complex,
    Imaginary,
}

// What a modifier adds to the text of a type.
fn words(modifier: Modifier) -> &'static [u8]
    ensures { result.now ≡ words_of modifier }
{
    match modifier {
        Modifier::Pointer => b"*",
        Modifier::Reference => b"&",
        Modifier::RvalueReference => b"&&",
        Modifier::Const => b" const",
        Modifier::Volatile => b" volatile",
        Modifier::Restrict => b" restrict",
        Modifier::Complex => b" _Complex",
        Modifier::Imaginary => b" _Imaginary",
    }
}

/// What opens the parentheses around a declarator, for a type that goes on behind it.
pub fn opening(kind: Kind) -> &'static [u8]
    ensures { result.now ≡ opening_of kind }
{
    match kind {
        Kind::Function => b"(",
        Kind::Array => b" (",
        _ => b"",
    }
}

/// What closes the parentheses around a declarator.
pub fn closing(kind: Kind) -> &'static [u8]
    ensures { result.now ≡ closing_of kind }
{
    match kind {
        Kind::Function => b")",
        Kind::Array => b")",
        _ => b"",
    }
}

// A type that is declared with a mark, as a pointer is by `*`.
#[tactic(auto, unfolding(crate::specs::Modifiers::declared))]
fn declare(text: &mut Vec<u8>, piece: Piece, mark: &[u8], kind: Kind) -> Result<Piece, Failure>
    ensures { Gives (λ made. (made, text.new.items)) result (declared piece mark.now kind text.old.items) }
{
    let start = text.len();
    copy(text, piece.left)?;
    append(text, opening(piece.kind))?;
    append(text, mark)?;
    let middle = text.len();
    append(text, closing(piece.kind))?;
    copy(text, piece.right)?;
    let end = text.len();
    Ok(Piece {
        left: Span { start, end: middle },
        right: Span { start: middle, end },
        base: NOWHERE,
        elements: NOWHERE,
        depends: piece.depends,
        kind,
    })
}

// A type with words behind its left part, or behind its right part.
#[tactic(auto, unfolding(crate::specs::Modifiers::extended))]
fn extend(text: &mut Vec<u8>, span: Span, more: &[u8]) -> Result<Span, Failure>
    ensures { Gives (λ made. (made, text.new.items)) result (extended span more.now text.old.items) }
{
    let start = text.len();
    copy(text, span)?;
    append(text, more)?;
    Ok(Span {
        start,
        end: text.len(),
    })
}

// A reference, of which a reference to an lvalue stays what it is, and one to an rvalue becomes one to an lvalue.
#[tactic(auto, unfolding(crate::specs::Modifiers::referred))]
fn refer(text: &mut Vec<u8>, piece: Piece) -> Result<Piece, Failure>
    ensures { Gives (λ made. (made, text.new.items)) result (referred piece text.old.items) }
{
    match piece.kind {
        Kind::Reference => Ok(piece),
        Kind::RvalueReference => Ok(Piece {
            left: Span {
                start: piece.left.start,
                end: piece.left.end.saturating_sub(1),
            },
            kind: Kind::Reference,
            ..piece
        }),
        _ => declare(text, piece, b"&", Kind::Reference),
    }
}

// A reference to an rvalue, of which a reference stays what it is.
#[tactic(auto, unfolding(crate::specs::Modifiers::rvalue_referred))]
fn refer_rvalue(text: &mut Vec<u8>, piece: Piece) -> Result<Piece, Failure>
    ensures { Gives (λ made. (made, text.new.items)) result (rvalue_referred piece text.old.items) }
{
    match piece.kind {
        Kind::Reference => Ok(piece),
        Kind::RvalueReference => Ok(piece),
        _ => declare(text, piece, b"&&", Kind::RvalueReference),
    }
}

// What a type is with a qualifier, as far as others ask for it.
fn qualified_kind(kind: Kind) -> Kind
    ensures { result ≡ qualified_kind_of kind }
{
    match kind {
        Kind::Function => Kind::Function,
        Kind::Array => Kind::Array,
        Kind::Reference => Kind::Reference,
        Kind::RvalueReference => Kind::RvalueReference,
        _ => Kind::Plain,
    }
}

// A part of the text ends with some bytes.
fn has_end(text: &[u8], span: Span, end: &[u8]) -> bool
    ensures { result ≡ ends_in span end.now text.now }
{
    match text.get(span.start..span.end) {
        None => false,
        Some(part) => part.ends_with(end),
    }
}

// A type with a qualifier, that of a function behind its parameters. One that it ends with isn't written twice.
#[tactic(auto, unfolding(crate::specs::Modifiers::qualified))]
fn qualify(text: &mut Vec<u8>, piece: Piece, more: &[u8]) -> Result<Piece, Failure>
    ensures { Gives (λ made. (made, text.new.items)) result (qualified piece more.now text.old.items) }
{
    if piece.kind == Kind::Function {
        let right = extend(text, piece.right, more)?;
        return Ok(Piece { right, ..piece });
    }
    if has_end(text, piece.left, more) {
        return Ok(piece);
    }
    let left = extend(text, piece.left, more)?;
    Ok(Piece {
        left,
        kind: qualified_kind(piece.kind),
        ..piece
    })
}

/// A type that is made of another type.
#[tactic(auto, unfolding(crate::specs::Modifiers::modified))]
pub fn modify(text: &mut Vec<u8>, piece: Piece, modifier: Modifier) -> Result<Piece, Failure>
    ensures { Gives (λ made. (made, text.new.items)) result (modified modifier piece text.old.items) }
{
    match modifier {
        Modifier::Pointer => declare(text, piece, b"*", Kind::Plain),
        Modifier::Reference => refer(text, piece),
        Modifier::RvalueReference => refer_rvalue(text, piece),
        _ => qualify(text, piece, words(modifier)),
    }
}

/// How many elements there may be where types are made of those of a pack, which may take no text.
pub const ELEMENT_LIMIT: usize = 1 << 16;

// The type that is made of one element, behind all other elements.
#[tactic(auto, unfolding(crate::specs::Modifiers::modified_at))]
fn modify_at(
    text: &mut Vec<u8>,
    elements: &mut Vec<Piece>,
    at: usize,
    modifier: Modifier,
) -> Result<(), Failure>
    ensures { Gives (λ _. (elements.new.items, text.new.items)) result
        (modified_at modifier at elements.old.items text.old.items) }
{
    if ELEMENT_LIMIT <= elements.len() {
        return Err(Failure::NotUnderstood);
    }
    let Some(element) = elements.get(at).copied() else {
        return Err(Failure::NotUnderstood);
    };
    let made = modify(text, element, modifier)?;
    elements.push(made)?;
    Ok(())
}

/// The types that are made of the elements of a pack, behind all other elements.
#[tactic(auto, using(crate::proofs::ModifierLemmas::modified_all_step))]
pub fn modify_all(
    text: &mut Vec<u8>,
    elements: &mut Vec<Piece>,
    pack: Span,
    modifier: Modifier,
) -> Result<(), Failure>
    ensures { Gives (λ _. (elements.new.items, text.new.items)) result
        (pack_modified modifier pack elements.old.items text.old.items) }
{
    for i in pack.start..pack.end {
        modify_at(text, elements, i, modifier)?;
    }
    Ok(())
}
