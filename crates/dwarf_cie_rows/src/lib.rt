//! What the own instructions of a CIE leave, which is found once and kept for all FDEs that name the CIE.
#![tactic(auto)]

mod own_rows;

pub use own_rows::{KnownRows, OwnRow, OwnRowAt, own_row};
