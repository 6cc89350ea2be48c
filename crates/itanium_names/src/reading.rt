//! Steps that read.

ghost use Rattle.std.specs.Prelude.{◌≡◌, ◌+◌, ◌<◌, ◌^◌, length};
ghost use Rattle.symbol_text.specs.Texts.{Gives};
ghost use Rattle.itanium_names.specs.Pieces.{plain as plain_piece};
ghost use Rattle.itanium_names.specs.Reading.{argument_kind, builtin_d_read, builtin_read, byte_read, from_here, is_anonymous, is_usable, name_made, not_before as comes_not_before, number_made, operator_read, ordinal_read, parameter_read, position_of, sequence_read, skipped, source_name_read, standard_made, standard_read, substitution_read, text_made, up_to_here};
ghost use Rattle.itanium_names.specs.Views.{view};

use crate::machine::Machine;
use crate::tables::{builtin, builtin_d, operator, standard, standard_end};
use crate::texts::{from_top, replace};
use symbol_text::{
    Failure, Kind, NOWHERE, Numerals, Piece, Span, after_byte, append, append_decimal, number_at,
    ordinal_at,
};

// A piece whose text is a stretch.
fn plain(left: Span) -> Piece
    ensures { result ≡ plain_piece left }
{
    Piece {
        left,
        right: NOWHERE,
        base: NOWHERE,
        elements: NOWHERE,
        depends: NOWHERE,
        kind: Kind::Plain,
    }
}

// The name of an unnamed namespace.
fn anonymous(name: &[u8]) -> bool
    ensures { result ≡ is_anonymous name.now }
{
    name.starts_with(b"_GLOBAL__N")
}

// The template parameters of a piece, if it has any, stand for the same as here.
fn usable(parameters: Span, piece: Piece) -> bool
    ensures { result ≡ is_usable parameters piece }
{
    piece.depends.start == piece.depends.end || piece.depends.start == parameters.start
}

// What an argument is where a template parameter stands for it.
fn kind_of_argument(kind: Kind) -> Kind
    ensures { result ≡ argument_kind kind }
{
    match kind {
        Kind::List => Kind::Pack,
        _ => kind,
    }
}

impl<'n> Machine<'n> {
    // Where the reading stands in the name.
    fn position(&self) -> usize
        ensures { result ≡ position_of (view self.now) }
    {
        self.name_length.saturating_sub(self.rest.len())
    }

    pub fn skip(&mut self) -> Result<(), Failure>
        ensures { Gives (λ _. view self.new) result (skipped (view self.old)) }
    {
        let Some((_, rest)) = self.rest.split_first() else {
            return Err(Failure::NotUnderstood);
        };
        self.rest = rest;
        Ok(())
    }

    pub fn read_byte(&mut self, byte: u8) -> Result<(), Failure>
        ensures { Gives (λ _. view self.new) result (byte_read byte (view self.old)) }
    {
        let Some(rest) = after_byte(self.rest, byte) else {
            return Err(Failure::NotUnderstood);
        };
        self.rest = rest;
        Ok(())
    }

    pub fn not_before(&mut self, byte: u8) -> Result<(), Failure>
        ensures { Gives (λ _. view self.new) result (comes_not_before byte (view self.old)) }
    {
        match after_byte(self.rest, byte) {
            None => Ok(()),
            Some(_) => Err(Failure::NotUnderstood),
        }
    }

    // A piece of bytes that are written.
    #[tactic(auto, unfolding(crate::specs::Reading::text_made))]
    fn make_text(&mut self, bytes: &[u8]) -> Result<(), Failure>
        ensures { Gives (λ _. view self.new) result (text_made bytes.now (view self.old)) }
    {
        let start = self.text.len();
        append(&mut self.text, bytes)?;
        let end = self.text.len();
        self.pieces.push(plain(Span { start, end }))?;
        Ok(())
    }

    // A piece of a name that begins at a place.
    #[tactic(auto, unfolding(crate::specs::Reading::name_made))]
    fn make_name(&mut self, at: usize, name: &[u8]) -> Result<(), Failure>
        requires { at + length name.now < 2 ^ 64 }
        ensures { Gives (λ _. view self.new) result (name_made at name.now (view self.old)) }
    {
        if anonymous(name) {
            return self.make_text(b"(anonymous namespace)");
        }
        let span = Span {
            start: at,
            end: at + name.len(),
        };
        self.pieces.push(Piece {
            base: span,
            ..plain(span)
        })?;
        Ok(())
    }

    #[tactic(auto, unfolding(crate::specs::Reading::source_name_read))]
    pub fn read_source_name(&mut self) -> Result<(), Failure>
        ensures { Gives (λ _. view self.new) result (source_name_read (view self.old)) }
    {
        let Some((count, rest)) = number_at(Numerals::Decimal, self.rest) else {
            return Err(Failure::NotUnderstood);
        };
        if count == 0 || rest.len() < count {
            return Err(Failure::NotUnderstood);
        }
        let at = self.name_length.saturating_sub(rest.len());
        self.rest = &rest[count..];
        self.make_name(at, &rest[..count])
    }

    // A piece of a number that is written.
    #[tactic(auto, unfolding(crate::specs::Reading::number_made))]
    fn make_number(&mut self, number: usize) -> Result<(), Failure>
        ensures { Gives (λ _. view self.new) result (number_made number (view self.old)) }
    {
        let start = self.text.len();
        append_decimal(self.alloc, &mut self.text, number)?;
        let end = self.text.len();
        self.pieces.push(plain(Span { start, end }))?;
        Ok(())
    }

    #[tactic(auto, unfolding(crate::specs::Reading::ordinal_read))]
    pub fn read_ordinal(&mut self) -> Result<(), Failure>
        ensures { Gives (λ _. view self.new) result (ordinal_read (view self.old)) }
    {
        let Some((number, rest)) = ordinal_at(Numerals::Decimal, self.rest) else {
            return Err(Failure::NotUnderstood);
        };
        self.rest = rest;
        self.make_number(number + 1)
    }

    #[tactic(auto, unfolding(crate::specs::Reading::sequence_read))]
    pub fn read_sequence(&mut self) -> Result<(), Failure>
        ensures { Gives (λ _. view self.new) result (sequence_read (view self.old)) }
    {
        let Some((number, rest)) = ordinal_at(Numerals::Base36, self.rest) else {
            return Err(Failure::NotUnderstood);
        };
        self.rest = rest;
        self.make_number(number)
    }

    // A piece of a name of the standard library.
    #[tactic(auto, unfolding(crate::specs::Reading::standard_made))]
    fn make_standard(&mut self, letter: u8) -> Result<(), Failure>
        ensures { Gives (λ _. view self.new) result (standard_made letter (view self.old)) }
    {
        let Some(bytes) = standard(letter) else {
            return Err(Failure::NotUnderstood);
        };
        let Some(last) = standard_end(letter) else {
            return Err(Failure::NotUnderstood);
        };
        let start = self.text.len();
        append(&mut self.text, bytes)?;
        let end = self.text.len();
        let base = Span {
            start: start + 5,
            end: start + last,
        };
        self.pieces.push(Piece {
            base,
            ..plain(Span { start, end })
        })?;
        Ok(())
    }

    pub fn read_standard(&mut self) -> Result<(), Failure>
        ensures { Gives (λ _. view self.new) result (standard_read (view self.old)) }
    {
        let Some((letter, rest)) = self.rest.split_first() else {
            return Err(Failure::NotUnderstood);
        };
        self.rest = rest;
        self.make_standard(*letter)
    }

    #[tactic(auto, unfolding(crate::specs::Reading::substitution_read))]
    pub fn read_substitution(&mut self) -> Result<(), Failure>
        ensures { Gives (λ _. view self.new) result (substitution_read (view self.old)) }
    {
        let Some((index, rest)) = ordinal_at(Numerals::Base36, self.rest) else {
            return Err(Failure::NotUnderstood);
        };
        let Some(piece) = self.remembered.get(index).copied() else {
            return Err(Failure::NotUnderstood);
        };
        if !usable(self.parameters, piece) {
            return Err(Failure::NotUnderstood);
        }
        self.rest = rest;
        self.pieces.push(piece)?;
        Ok(())
    }

    #[tactic(auto, unfolding(crate::specs::Reading::parameter_read))]
    pub fn read_parameter(&mut self) -> Result<(), Failure>
        ensures { Gives (λ _. view self.new) result (parameter_read (view self.old)) }
    {
        let Some((index, rest)) = ordinal_at(Numerals::Decimal, self.rest) else {
            return Err(Failure::NotUnderstood);
        };
        let parameters = self.parameters;
        if parameters.end.saturating_sub(parameters.start) <= index {
            return Err(Failure::NotUnderstood);
        }
        let Some(piece) = self.elements.get(parameters.start + index).copied() else {
            return Err(Failure::NotUnderstood);
        };
        self.rest = rest;
        self.pieces.push(Piece {
            depends: parameters,
            kind: kind_of_argument(piece.kind),
            ..piece
        })?;
        Ok(())
    }

    pub fn read_builtin(&mut self) -> Result<(), Failure>
        ensures { Gives (λ _. view self.new) result (builtin_read (view self.old)) }
    {
        let Some((code, rest)) = self.rest.split_first() else {
            return Err(Failure::NotUnderstood);
        };
        let Some(bytes) = builtin(*code) else {
            return Err(Failure::NotUnderstood);
        };
        self.rest = rest;
        self.make_text(bytes)
    }

    pub fn read_builtin_d(&mut self) -> Result<(), Failure>
        ensures { Gives (λ _. view self.new) result (builtin_d_read (view self.old)) }
    {
        let Some((code, rest)) = self.rest.split_first() else {
            return Err(Failure::NotUnderstood);
        };
        let Some(bytes) = builtin_d(*code) else {
            return Err(Failure::NotUnderstood);
        };
        self.rest = rest;
        self.make_text(bytes)
    }

    pub fn read_operator(&mut self) -> Result<(), Failure>
        ensures { Gives (λ _. view self.new) result (operator_read (view self.old)) }
    {
        let Some((first, rest)) = self.rest.split_first() else {
            return Err(Failure::NotUnderstood);
        };
        let Some((second, rest)) = rest.split_first() else {
            return Err(Failure::NotUnderstood);
        };
        let Some(bytes) = operator(*first, *second) else {
            return Err(Failure::NotUnderstood);
        };
        self.rest = rest;
        self.make_text(bytes)
    }

    pub fn begin_here(&mut self) -> Result<(), Failure>
        ensures { Gives (λ _. view self.new) result (from_here (view self.old)) }
    {
        let at = self.position();
        self.pieces.push(plain(Span { start: at, end: at }))?;
        Ok(())
    }

    #[tactic(auto, unfolding(crate::specs::Reading::up_to_here))]
    pub fn end_here(&mut self) -> Result<(), Failure>
        ensures { Gives (λ _. view self.new) result (up_to_here (view self.old)) }
    {
        let Some(piece) = from_top(&self.pieces, 0) else {
            return Err(Failure::NotUnderstood);
        };
        let left = Span {
            start: piece.left.start,
            end: self.position(),
        };
        replace(&mut self.pieces, 1, Piece { left, ..piece })
    }
}
