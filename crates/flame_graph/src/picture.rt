//! The picture as a document.

ghost use Rattle.std.specs.Prelude.{◌≡◌, ◌<◌, ◌^◌, IfOk, map};
ghost use Rattle.line_parts.specs.Parts.{Pushes};
ghost use Rattle.flame_graph.specs.Boxes.{box_view};
ghost use Rattle.flame_graph.specs.Frames.{scale_view};
ghost use Rattle.flame_graph.specs.Pictures.{Draws, all_text, box_text, boxes_text, class_of, deepest, head_text, height_of, is_wide_of, level_of, level_shown, note_of, note_text, opening_text, picture_view, root_text, svg_text};

use crate::boxes::{FlameBox, flame_boxes};
use crate::error::FlameError;
use crate::escape::{color, push_escaped};
use crate::frames::push_frame;
use crate::page::{SCRIPT, STYLE};
use crate::scale::{Direction, Scale};
use crate::shares::push_number;
use crate::stack::{FoldedStack, total};
use line_parts::{push_bytes, push_decimal};
use std::alloc::{AllocError, Global};

/// What a picture says beside its boxes.
#[derive(Debug, Clone, Copy)]
pub struct Picture<'a> {
    /// The title, as text.
    pub title: &'a [u8],
    /// What the counts of stacks count, as `samples`.
    pub unit: &'a [u8],
    /// Which end of a stack is at the bottom.
    pub direction: Direction,
}

/// A box is left out if it would be narrower than a pixel in a picture of so many.
pub const PIXELS: u64 = 12_000;

// The color of the box for all stacks.
const ALL_COLOR: u64 = 24;

// Whether a box is wide enough to be shown.
fn is_wide(total: u64, width: u64) -> bool
    ensures { result ≡ is_wide_of total width }
{
    0 < width && u128::from(total) <= u128::from(width) * u128::from(PIXELS)
}

// The level of a box above the one for all stacks.
fn level(flame: &FlameBox<'_>) -> u128
    ensures value { result ≡ level_of (box_view flame.now) }
    ensures small { result < 2 ^ 65 }
{
    flame.depth as u128 + 1
}

// The level of a box if it is shown, or 0.
fn shown_level(total: u64, flame: &FlameBox<'_>) -> u128
    ensures value { result ≡ level_shown total (box_view flame.now) }
    ensures small { result < 2 ^ 65 }
{
    if is_wide(total, flame.width) {
        level(flame)
    } else {
        0
    }
}

// How many levels of boxes are shown.
fn levels(total: u64, boxes: &[FlameBox<'_>]) -> u128
    ensures value { result ≡ deepest total (map box_view boxes.now) }
    ensures small { result < 2 ^ 65 }
{
    let mut most = 0;
    for flame in boxes {
        most = most.max(shown_level(total, flame));
    }
    most
}

// Appends a box, if it is wide enough.
#[tactic(auto, unfolding(crate::specs::Pictures::box_text))]
fn push_box(
    alloc: Global,
    text: &mut Vec<u8>,
    scale: &Scale<'_>,
    flame: &FlameBox<'_>,
) -> Result<(), AllocError>
    ensures { Pushes result text.old text.new (box_text (scale_view scale.now) (box_view flame.now)) }
{
    if !is_wide(scale.total, flame.width) {
        return Ok(());
    }
    push_frame(alloc, text, scale, color(flame.name), level(flame), flame)
}

// Appends the box for all stacks.
#[tactic(auto, unfolding(crate::specs::Pictures::all_text))]
fn push_all(alloc: Global, text: &mut Vec<u8>, scale: &Scale<'_>) -> Result<(), AllocError>
    ensures { Pushes result text.old text.new (all_text (scale_view scale.now)) }
{
    let all = FlameBox {
        depth: 0,
        start: 0,
        width: scale.total,
        name: b"all",
    };
    push_frame(alloc, text, scale, ALL_COLOR, 0, &all)
}

// Appends boxes.
fn push_boxes(
    alloc: Global,
    text: &mut Vec<u8>,
    scale: &Scale<'_>,
    boxes: &[FlameBox<'_>],
) -> Result<(), AllocError>
    ensures { Pushes result text.old text.new (boxes_text (scale_view scale.now) (map box_view boxes.now)) }
{
    for flame in boxes {
        push_box(alloc, text, scale, flame)?;
    }
    Ok(())
}

// The name of a direction.
fn class(direction: Direction) -> &'static [u8]
    ensures { result.now ≡ class_of direction }
{
    match direction {
        Direction::Flame => b"flame",
        Direction::Icicle => b"icicle",
    }
}

// What is said of the boxes.
fn note(direction: Direction) -> &'static [u8]
    ensures { result.now ≡ note_of direction }
{
    match direction {
        Direction::Flame => {
            b". A box is a function: below it is its caller, above it what it called. Its width is its share."
        }
        Direction::Icicle => {
            b". A box is a function: above it is its caller, below it what it called. Its width is its share."
        }
    }
}

// How high the boxes are, in pixels.
fn height(levels: u128) -> u128
    requires { levels < 2 ^ 65 }
    ensures { result ≡ height_of levels }
{
    (levels + 1) * 18
}

// Appends the start of the document, up to its height.
#[tactic(auto, unfolding(crate::specs::Pictures::root_text))]
fn push_root(alloc: Global, text: &mut Vec<u8>, scale: &Scale<'_>) -> Result<(), AllocError>
    ensures { Pushes result text.old text.new (root_text (scale_view scale.now)) }
{
    push_bytes(text, b"<svg xmlns='http://www.w3.org/2000/svg' class='")?;
    push_bytes(text, class(scale.direction))?;
    push_bytes(text, b"' width='100%' height='")?;
    push_number(alloc, text, height(scale.levels) + 136)?;
    push_bytes(text, b"'><title>")
}

// Appends what comes before the boxes.
#[tactic(auto, unfolding(crate::specs::Pictures::opening_text))]
fn push_opening(
    alloc: Global,
    text: &mut Vec<u8>,
    title: &[u8],
    scale: &Scale<'_>,
) -> Result<(), AllocError>
    ensures { Pushes result text.old text.new (opening_text title.now (scale_view scale.now)) }
{
    push_root(alloc, text, scale)?;
    push_escaped(alloc, text, title)?;
    push_bytes(text, b"</title>\n")?;
    push_bytes(text, STYLE)?;
    push_bytes(
        text,
        b"<svg id='frames' x='1%' y='122' width='98%' height='",
    )?;
    push_number(alloc, text, height(scale.levels))?;
    push_bytes(text, b"'>\n")
}

// Appends the note under the title.
#[tactic(auto, unfolding(crate::specs::Pictures::note_text))]
fn push_note(alloc: Global, text: &mut Vec<u8>, scale: &Scale<'_>) -> Result<(), AllocError>
    ensures { Pushes result text.old text.new (note_text (scale_view scale.now)) }
{
    push_decimal(alloc, text, scale.total)?;
    push_bytes(text, b" ")?;
    push_escaped(alloc, text, scale.unit)?;
    push_bytes(text, note(scale.direction))
}

// Appends what comes after the boxes.
#[tactic(auto, unfolding(crate::specs::Pictures::head_text))]
fn push_head(
    alloc: Global,
    text: &mut Vec<u8>,
    title: &[u8],
    scale: &Scale<'_>,
) -> Result<(), AllocError>
    ensures { Pushes result text.old text.new (head_text title.now (scale_view scale.now)) }
{
    push_bytes(
        text,
        b"</svg>\n<g id='head'><rect class='page' width='100%' height='114'/><text class='title' x='1%' y='30'>",
    )?;
    push_escaped(alloc, text, title)?;
    push_bytes(text, b"</text><text class='note' x='1%' y='50'>")?;
    push_note(alloc, text, scale)?;
    push_bytes(text, SCRIPT)
}

/// The document with a picture of boxes, which are of so many samples in all.
#[tactic(auto, unfolding(crate::specs::Pictures::document))]
pub fn svg(
    alloc: Global,
    picture: &Picture<'_>,
    total: u64,
    boxes: &[FlameBox<'_>],
) -> Result<Vec<u8>, AllocError>
    ensures { IfOk result (λ text. text.items ≡ svg_text (picture_view picture.now) total (map box_view boxes.now)) }
{
    let scale = Scale {
        unit: picture.unit,
        total,
        levels: levels(total, boxes),
        direction: picture.direction,
    };
    let mut text = Vec::new(alloc);
    push_opening(alloc, &mut text, picture.title, &scale)?;
    push_all(alloc, &mut text, &scale)?;
    push_boxes(alloc, &mut text, &scale, boxes)?;
    push_head(alloc, &mut text, picture.title, &scale)?;
    Ok(text)
}

/// The document with the flame graph of stacks. They should be sorted and different, so that those that begin with the same names
/// have one box.
pub fn flame_graph(
    alloc: Global,
    picture: &Picture<'_>,
    stacks: &[FoldedStack],
) -> Result<Vec<u8>, FlameError>
    ensures { Draws (picture_view picture.now) stacks.now result }
{
    let total = total(stacks)?;
    let boxes = flame_boxes(alloc, stacks)?;
    Ok(svg(alloc, picture, total, &boxes)?)
}
