//! The boxes in the picture.

ghost use Rattle.std.specs.Prelude.{◌≡◌, ◌<◌, ◌^◌};
ghost use Rattle.line_parts.specs.Parts.{Pushes};
ghost use Rattle.flame_graph.specs.Boxes.{box_view};
ghost use Rattle.flame_graph.specs.Frames.{area_text, counts_text, fill_text, frame_text, label_text, row_of, scale_view};

use crate::boxes::FlameBox;
use crate::escape::push_escaped;
use crate::scale::{Direction, Scale};
use crate::shares::{push_number, push_percent, push_place};
use line_parts::{push_bytes, push_decimal};
use std::alloc::{AllocError, Global};

/// How far below the top of the boxes a level is, in pixels.
pub(crate) fn row(scale: &Scale<'_>, level: u128) -> u128
    requires { level < 2 ^ 65 }
    ensures { result ≡ row_of (scale_view scale.now) level }
{
    match scale.direction {
        Direction::Flame => scale.levels.saturating_sub(level) * 18,
        Direction::Icicle => level * 18,
    }
}

// Appends the start of a box, with what it counts.
#[tactic(auto, unfolding(crate::specs::Frames::counts_text))]
fn push_counts(alloc: Global, text: &mut Vec<u8>, flame: &FlameBox<'_>) -> Result<(), AllocError>
    ensures { Pushes result text.old text.new (counts_text (box_view flame.now)) }
{
    push_bytes(text, b"<svg class='box' data-start='")?;
    push_decimal(alloc, text, flame.start)?;
    push_bytes(text, b"' data-width='")?;
    push_decimal(alloc, text, flame.width)
}

// Appends where a box is.
#[tactic(auto, unfolding(crate::specs::Frames::area_text))]
fn push_area(
    alloc: Global,
    text: &mut Vec<u8>,
    scale: &Scale<'_>,
    level: u128,
    flame: &FlameBox<'_>,
) -> Result<(), AllocError>
    requires { level < 2 ^ 65 }
    ensures { Pushes result text.old text.new (area_text (scale_view scale.now) level (box_view flame.now)) }
{
    push_bytes(text, b"' x='")?;
    push_place(alloc, text, flame.start, scale.total)?;
    push_bytes(text, b"%' y='")?;
    push_number(alloc, text, row(scale, level))?;
    push_bytes(text, b"' width='")?;
    push_place(alloc, text, flame.width, scale.total)?;
    push_bytes(text, b"%' height='18'>")
}

// Appends the title of a box, which is shown where the pointer rests on it.
#[tactic(auto, unfolding(crate::specs::Frames::label_text))]
fn push_label(
    alloc: Global,
    text: &mut Vec<u8>,
    scale: &Scale<'_>,
    flame: &FlameBox<'_>,
) -> Result<(), AllocError>
    ensures { Pushes result text.old text.new (label_text (scale_view scale.now) (box_view flame.now)) }
{
    push_bytes(text, b"<title>")?;
    push_escaped(alloc, text, flame.name)?;
    push_bytes(text, b" (")?;
    push_decimal(alloc, text, flame.width)?;
    push_bytes(text, b" ")?;
    push_escaped(alloc, text, scale.unit)?;
    push_bytes(text, b", ")?;
    push_percent(alloc, text, flame.width, scale.total)?;
    push_bytes(text, b"%)</title>")
}

// Appends the area of a box with its name, and its end.
#[tactic(auto, unfolding(crate::specs::Frames::fill_text))]
fn push_fill(alloc: Global, text: &mut Vec<u8>, color: u64, name: &[u8]) -> Result<(), AllocError>
    ensures { Pushes result text.old text.new (fill_text color name.now) }
{
    push_bytes(text, b"<rect class='c")?;
    push_decimal(alloc, text, color)?;
    push_bytes(
        text,
        b"' width='100%' height='17' rx='2'/><text x='4' y='13'>",
    )?;
    push_escaped(alloc, text, name)?;
    push_bytes(text, b"</text></svg>\n")
}

/// Appends a box of a color at a level.
#[tactic(auto, unfolding(crate::specs::Frames::frame_text))]
pub(crate) fn push_frame(
    alloc: Global,
    text: &mut Vec<u8>,
    scale: &Scale<'_>,
    color: u64,
    level: u128,
    flame: &FlameBox<'_>,
) -> Result<(), AllocError>
    requires { level < 2 ^ 65 }
    ensures { Pushes result text.old text.new (frame_text (scale_view scale.now) color level (box_view flame.now)) }
{
    push_counts(alloc, text, flame)?;
    push_area(alloc, text, scale, level, flame)?;
    push_label(alloc, text, scale, flame)?;
    push_fill(alloc, text, color, flame.name)
}
