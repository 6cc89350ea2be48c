//! Flame graphs: folded stacks with their counts in, a picture as SVG out.
#![tactic(auto)]

mod boxes;
mod error;
mod escape;
mod frames;
mod laws;
mod names;
mod page;
mod picture;
mod scale;
mod shares;
mod stack;

pub use boxes::{FlameBox, flame_boxes};
pub use error::FlameError;
pub use laws::widths_are_samples;
pub use picture::{PIXELS, Picture, flame_graph, svg};
pub use scale::Direction;
pub use stack::{FoldedStack, total};
