//! Texts of symbols' names as they are put together: one buffer that only grows, and pieces, which say where in it a
//! text stands.
#![tactic(auto)]

mod failure;
mod joining;
mod modifiers;
mod numerals;
mod piece;
mod writing;

pub use failure::Failure;
pub use joining::join;
pub use modifiers::{ELEMENT_LIMIT, Modifier, closing, modify, modify_all, opening};
pub use numerals::{Numerals, after_byte, number_at, ordinal_at};
pub use piece::{Kind, NOWHERE, Piece, Span};
pub use writing::{TEXT_LIMIT, append, append_decimal, copy, copy_whole, last_byte};
