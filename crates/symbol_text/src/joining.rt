//! Lists of pieces.

ghost use Rattle.std.specs.Prelude.{◌≡◌};
ghost use Rattle.symbol_text.specs.Joining.{is_empty_piece, joined, joined_more};
ghost use Rattle.symbol_text.specs.Texts.{Gives};

use crate::failure::Failure;
use crate::piece::Piece;
use crate::writing::{append, copy_whole};

// A piece has no text.
fn is_empty(piece: Piece) -> bool
    ensures { result ≡ is_empty_piece piece }
{
    piece.left.start == piece.left.end && piece.right.start == piece.right.end
}

// Appends a piece behind others.
#[tactic(auto, unfolding(crate::specs::Joining::joined_more))]
fn join_more(text: &mut Vec<u8>, piece: Piece) -> Result<(), Failure>
    ensures { Gives (λ _. text.new.items) result (joined_more piece text.old.items) }
{
    if is_empty(piece) {
        return Ok(());
    }
    append(text, b", ")?;
    copy_whole(text, piece)
}

/// Appends pieces with commas between them. One without a text has no comma, unless it is the first.
pub fn join(text: &mut Vec<u8>, pieces: &[Piece]) -> Result<(), Failure>
    ensures { Gives (λ _. text.new.items) result (joined pieces.now text.old.items) }
{
    let Some((first, rest)) = pieces.split_first() else {
        return Ok(());
    };
    copy_whole(text, *first)?;
    for piece in rest {
        join_more(text, *piece)?;
    }
    Ok(())
}
