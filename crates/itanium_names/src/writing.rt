//! Steps that write, and those that keep pieces.

ghost use Rattle.std.specs.Prelude.{◌≡◌};
ghost use Rattle.symbol_text.specs.Texts.{Gives};
ghost use Rattle.itanium_names.specs.Views.{view};
ghost use Rattle.itanium_names.specs.Writing.{base_taken, base_written, begun, bounds_of, bounds_written, closing_written, ended, ended_as, expanded, gap_written, kept, kept_unless_end, left_written, member_opening_of, member_opening_written, one_modified, opening_written, pack_expanded, pack_modified, right_written, space_after, tagged, template_ended, template_kind, turned, type_modified};

use crate::machine::Machine;
use crate::texts::{ends_with_byte, from_top, is_pack, merge, replace};
use symbol_text::{
    Failure, Kind, Modifier, NOWHERE, Piece, Span, after_byte, append, closing, copy, join, modify,
    modify_all, opening,
};

// What opens the declarator of a pointer to a member.
fn member_opening(kind: Kind) -> &'static [u8]
    ensures { result.now ≡ member_opening_of kind }
{
    match kind {
        Kind::Function => b"(",
        Kind::Array => b" (",
        _ => b" ",
    }
}

// The bounds of an array without the space before them, or else the right part.
fn bounds(kind: Kind, right: Span) -> Span
    ensures { result ≡ bounds_of kind right }
{
    match kind {
        Kind::Array => {
            if right.start < right.end {
                Span {
                    start: right.start + 1,
                    end: right.end,
                }
            } else {
                right
            }
        }
        _ => right,
    }
}

// What a template with its arguments is, by what it is without them.
fn kind_of_template(kind: Kind) -> Kind
    ensures { result ≡ template_kind kind }
{
    match kind {
        Kind::Special => Kind::Special,
        _ => Kind::Template,
    }
}

impl<'n> Machine<'n> {
    pub fn begin(&mut self) -> Result<(), Failure>
        ensures { Gives (λ _. view self.new) result (begun (view self.old)) }
    {
        let at = self.text.len();
        self.opened = Piece {
            left: Span { start: at, end: at },
            right: NOWHERE,
            base: NOWHERE,
            elements: NOWHERE,
            depends: NOWHERE,
            kind: Kind::Plain,
        };
        Ok(())
    }

    #[tactic(auto, unfolding(crate::specs::Writing::left_written))]
    pub fn write_left(&mut self, index: u8) -> Result<(), Failure>
        ensures { Gives (λ _. view self.new) result (left_written index (view self.old)) }
    {
        let Some(piece) = from_top(&self.pieces, index) else {
            return Err(Failure::NotUnderstood);
        };
        if is_pack(piece.kind) {
            return Err(Failure::NotUnderstood);
        }
        self.opened.depends = merge(self.opened.depends, piece.depends);
        copy(&mut self.text, piece.left)
    }

    #[tactic(auto, unfolding(crate::specs::Writing::right_written))]
    pub fn write_right(&mut self, index: u8) -> Result<(), Failure>
        ensures { Gives (λ _. view self.new) result (right_written index (view self.old)) }
    {
        let Some(piece) = from_top(&self.pieces, index) else {
            return Err(Failure::NotUnderstood);
        };
        copy(&mut self.text, piece.right)
    }

    #[tactic(auto, unfolding(crate::specs::Writing::base_written))]
    pub fn write_base(&mut self, index: u8) -> Result<(), Failure>
        ensures { Gives (λ _. view self.new) result (base_written index (view self.old)) }
    {
        let Some(piece) = from_top(&self.pieces, index) else {
            return Err(Failure::NotUnderstood);
        };
        if piece.base.start == piece.base.end {
            return Err(Failure::NotUnderstood);
        }
        copy(&mut self.text, piece.base)
    }

    #[tactic(auto, unfolding(crate::specs::Writing::space_after))]
    pub fn write_space_after(&mut self, byte: u8) -> Result<(), Failure>
        ensures { Gives (λ _. view self.new) result (space_after byte (view self.old)) }
    {
        if ends_with_byte(&self.text, byte) {
            return append(&mut self.text, b" ");
        }
        Ok(())
    }

    #[tactic(auto, unfolding(crate::specs::Writing::gap_written))]
    pub fn write_gap(&mut self, index: u8) -> Result<(), Failure>
        ensures { Gives (λ _. view self.new) result (gap_written index (view self.old)) }
    {
        let Some(piece) = from_top(&self.pieces, index) else {
            return Err(Failure::NotUnderstood);
        };
        if piece.right.start == piece.right.end {
            return append(&mut self.text, b" ");
        }
        Ok(())
    }

    #[tactic(auto, unfolding(crate::specs::Writing::opening_written))]
    pub fn write_opening(&mut self, index: u8) -> Result<(), Failure>
        ensures { Gives (λ _. view self.new) result (opening_written index (view self.old)) }
    {
        let Some(piece) = from_top(&self.pieces, index) else {
            return Err(Failure::NotUnderstood);
        };
        append(&mut self.text, opening(piece.kind))
    }

    #[tactic(auto, unfolding(crate::specs::Writing::member_opening_written))]
    pub fn write_member_opening(&mut self, index: u8) -> Result<(), Failure>
        ensures { Gives (λ _. view self.new) result (member_opening_written index (view self.old)) }
    {
        let Some(piece) = from_top(&self.pieces, index) else {
            return Err(Failure::NotUnderstood);
        };
        append(&mut self.text, member_opening(piece.kind))
    }

    #[tactic(auto, unfolding(crate::specs::Writing::closing_written))]
    pub fn write_closing(&mut self, index: u8) -> Result<(), Failure>
        ensures { Gives (λ _. view self.new) result (closing_written index (view self.old)) }
    {
        let Some(piece) = from_top(&self.pieces, index) else {
            return Err(Failure::NotUnderstood);
        };
        append(&mut self.text, closing(piece.kind))
    }

    #[tactic(auto, unfolding(crate::specs::Writing::bounds_written))]
    pub fn write_bounds(&mut self, index: u8) -> Result<(), Failure>
        ensures { Gives (λ _. view self.new) result (bounds_written index (view self.old)) }
    {
        let Some(piece) = from_top(&self.pieces, index) else {
            return Err(Failure::NotUnderstood);
        };
        copy(&mut self.text, bounds(piece.kind, piece.right))
    }

    pub fn turn(&mut self) -> Result<(), Failure>
        ensures { Gives (λ _. view self.new) result (turned (view self.old)) }
    {
        let at = self.text.len();
        self.opened.left.end = at;
        self.opened.right = Span { start: at, end: at };
        Ok(())
    }

    #[tactic(auto, unfolding(crate::specs::Writing::base_taken))]
    pub fn take_base(&mut self, index: u8) -> Result<(), Failure>
        ensures { Gives (λ _. view self.new) result (base_taken index (view self.old)) }
    {
        let Some(piece) = from_top(&self.pieces, index) else {
            return Err(Failure::NotUnderstood);
        };
        self.opened.base = piece.base;
        Ok(())
    }

    #[tactic(auto, unfolding(crate::specs::Writing::ended))]
    pub fn end(&mut self, count: u8, kind: Kind) -> Result<(), Failure>
        ensures { Gives (λ _. view self.new) result (ended count kind (view self.old)) }
    {
        let right = Span {
            start: self.opened.right.start,
            end: self.text.len(),
        };
        let piece = Piece {
            right,
            kind,
            ..self.opened
        };
        replace(&mut self.pieces, count, piece)
    }

    #[tactic(auto, unfolding(crate::specs::Writing::ended_as))]
    pub fn end_as(&mut self, count: u8, index: u8) -> Result<(), Failure>
        ensures { Gives (λ _. view self.new) result (ended_as count index (view self.old)) }
    {
        let Some(piece) = from_top(&self.pieces, index) else {
            return Err(Failure::NotUnderstood);
        };
        self.end(count, piece.kind)
    }

    #[tactic(auto, unfolding(crate::specs::Writing::template_ended))]
    pub fn end_template(&mut self) -> Result<(), Failure>
        ensures { Gives (λ _. view self.new) result (template_ended (view self.old)) }
    {
        let Some(piece) = from_top(&self.pieces, 1) else {
            return Err(Failure::NotUnderstood);
        };
        self.end(2, kind_of_template(piece.kind))
    }

    // Makes a type of the last piece.
    #[tactic(auto, unfolding(crate::specs::Writing::one_modified))]
    fn modify_one(&mut self, modifier: Modifier, piece: Piece) -> Result<(), Failure>
        ensures { Gives (λ _. view self.new) result (one_modified modifier piece (view self.old)) }
    {
        let made = modify(&mut self.text, piece, modifier)?;
        replace(&mut self.pieces, 1, made)
    }

    // Makes a type of each element of a pack.
    #[tactic(auto, unfolding(crate::specs::Writing::pack_modified))]
    fn modify_pack(&mut self, modifier: Modifier, pack: Piece) -> Result<(), Failure>
        ensures { Gives (λ _. view self.new) result (pack_modified modifier pack (view self.old)) }
    {
        let start = self.elements.len();
        modify_all(&mut self.text, &mut self.elements, pack.elements, modifier)?;
        let end = self.elements.len();
        let elements = Span { start, end };
        replace(&mut self.pieces, 1, Piece { elements, ..pack })
    }

    #[tactic(auto, unfolding(crate::specs::Writing::type_modified))]
    pub fn modify_type(&mut self, modifier: Modifier) -> Result<(), Failure>
        ensures { Gives (λ _. view self.new) result (type_modified modifier (view self.old)) }
    {
        let Some(piece) = from_top(&self.pieces, 0) else {
            return Err(Failure::NotUnderstood);
        };
        match piece.kind {
            Kind::List => Err(Failure::NotUnderstood),
            Kind::Pack => self.modify_pack(modifier, piece),
            _ => self.modify_one(modifier, piece),
        }
    }

    // Makes a list of a pack.
    #[tactic(auto, unfolding(crate::specs::Writing::pack_expanded))]
    fn expand_pack(&mut self, pack: Piece) -> Result<(), Failure>
        ensures { Gives (λ _. view self.new) result (pack_expanded pack (view self.old)) }
    {
        let Some(items) = self.elements.get(pack.elements.start..pack.elements.end) else {
            return Err(Failure::NotUnderstood);
        };
        let start = self.text.len();
        join(&mut self.text, items)?;
        let end = self.text.len();
        let list = Piece {
            left: Span { start, end },
            right: NOWHERE,
            kind: Kind::List,
            ..pack
        };
        replace(&mut self.pieces, 1, list)
    }

    #[tactic(auto, unfolding(crate::specs::Writing::expanded))]
    pub fn expand(&mut self) -> Result<(), Failure>
        ensures { Gives (λ _. view self.new) result (expanded (view self.old)) }
    {
        let Some(piece) = from_top(&self.pieces, 0) else {
            return Err(Failure::NotUnderstood);
        };
        if is_pack(piece.kind) {
            return self.expand_pack(piece);
        }
        Err(Failure::NotUnderstood)
    }

    #[tactic(auto, unfolding(crate::specs::Writing::kept))]
    pub fn keep(&mut self) -> Result<(), Failure>
        ensures { Gives (λ _. view self.new) result (kept (view self.old)) }
    {
        let Some(piece) = from_top(&self.pieces, 0) else {
            return Err(Failure::NotUnderstood);
        };
        self.remembered.push(piece)?;
        Ok(())
    }

    #[tactic(auto, unfolding(crate::specs::Writing::kept_unless_end))]
    pub fn keep_unless_end(&mut self) -> Result<(), Failure>
        ensures { Gives (λ _. view self.new) result (kept_unless_end (view self.old)) }
    {
        match after_byte(self.rest, b'E') {
            None => self.keep(),
            Some(_) => Ok(()),
        }
    }

    #[tactic(auto, unfolding(crate::specs::Writing::tagged))]
    pub fn tag(&mut self) -> Result<(), Failure>
        ensures { Gives (λ _. view self.new) result (tagged (view self.old)) }
    {
        let Some(piece) = from_top(&self.pieces, 0) else {
            return Err(Failure::NotUnderstood);
        };
        self.parameters = piece.elements;
        Ok(())
    }
}
