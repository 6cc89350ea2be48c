//! Appending to a text.

ghost use Rattle.std.specs.Prelude.{◌≡◌, ◌≤◌, OnOk, vec_len};
ghost use Rattle.symbol_text.specs.Texts.{Gives, appended, copied, decimal_appended, last_of, whole_copied};

use crate::failure::Failure;
use crate::piece::{Piece, Span};
use std::alloc::Global;

/// How long a text may get in bytes, with all that was put together on the way.
pub const TEXT_LIMIT: usize = 1 << 20;

/// Appends bytes.
#[tactic(auto, unfolding(crate::specs::Texts::appended))]
pub fn append(text: &mut Vec<u8>, bytes: &[u8]) -> Result<(), Failure>
    ensures text { Gives (λ _. text.new.items) result (appended bytes.now text.old.items) }
    ensures bounded { OnOk result (vec_len text.old ≤ TEXT_LIMIT → vec_len text.new ≤ TEXT_LIMIT) }
{
    if TEXT_LIMIT.saturating_sub(text.len()) < bytes.len() {
        return Err(Failure::NotUnderstood);
    }
    text.extend_from_slice(bytes)?;
    Ok(())
}

/// Appends a part of the text again.
#[tactic(auto, unfolding(crate::specs::Texts::copied))]
pub fn copy(text: &mut Vec<u8>, span: Span) -> Result<(), Failure>
    ensures { Gives (λ _. text.new.items) result (copied span text.old.items) }
{
    if span.end < span.start || text.len() < span.end {
        return Err(Failure::NotUnderstood);
    }
    if TEXT_LIMIT.saturating_sub(text.len()) < span.end - span.start {
        return Err(Failure::NotUnderstood);
    }
    text.extend_from_within(span.start..span.end)?;
    Ok(())
}

/// Appends both parts of a piece.
#[tactic(auto, unfolding(crate::specs::Texts::whole_copied))]
pub fn copy_whole(text: &mut Vec<u8>, piece: Piece) -> Result<(), Failure>
    ensures { Gives (λ _. text.new.items) result (whole_copied piece text.old.items) }
{
    copy(text, piece.left)?;
    copy(text, piece.right)
}

/// Appends a number in decimal digits.
#[tactic(auto, unfolding(crate::specs::Texts::decimal_appended))]
pub fn append_decimal(alloc: Global, text: &mut Vec<u8>, number: usize) -> Result<(), Failure>
    ensures { Gives (λ _. text.new.items) result (decimal_appended number text.old.items) }
{
    let digits = format!(in alloc; "{number}")?;
    append(text, digits.as_bytes())
}

/// The last byte of a text.
pub fn last_byte(text: &[u8]) -> Option<u8>
    ensures { result ≡ last_of text.now }
{
    text.last().copied()
}
