//! The boxes of a flame graph.

ghost use Rattle.std.specs.Prelude.{◌≡◌, ◌-◌, ◌<◌, ◌≤◌, ◌++◌, length, take, replicate, OnOk, IfOk};
ghost use Rattle.flame_graph.specs.Stacks.{shared, texts};
ghost use Rattle.flame_graph.specs.Boxes.{BoxesAre, boxes_seen};
ghost use Rattle.flame_graph.specs.Opened.{names_before, opened};

use crate::error::FlameError;
use crate::names::{names_in, shared_count};
use crate::stack::{FoldedStack, total};
use std::alloc::{AllocError, Global};

/// A box of a flame graph: stacks side by side that begin with the same names.
#[derive(Debug, Clone, Copy)]
pub struct FlameBox<'a> {
    /// How many names the stacks have before the one that the box shows.
    pub depth: usize,
    /// The samples of the stacks before the box.
    pub start: u64,
    /// The samples of its stacks.
    pub width: u64,
    /// The last of the names that its stacks share.
    pub name: &'a [u8],
}

// Cuts a list off, and fills it up with a number.
fn refill(ends: &mut Vec<u64>, kept: usize, size: usize, place: u64) -> Result<(), AllocError>
    ensures { OnOk result (ends.new.items ≡ take kept ends.old.items ++ replicate (size - kept) place) }
{
    ends.truncate(kept);
    for _ in 0..size.saturating_sub(kept) {
        ends.push(place)?;
    }
    Ok(())
}

// Opens the boxes of a stack that the one before it isn't in, from the innermost to the outermost.
fn open<'a>(
    boxes: &mut Vec<FlameBox<'a>>,
    names: &[&'a [u8]],
    ends: &[u64],
    start: u64,
    kept: usize,
) -> Result<(), AllocError>
    requires ends { length ends.now ≡ length names.now }
    requires kept { kept ≤ length names.now }
    ensures { OnOk result (boxes_seen boxes.new ≡ boxes_seen boxes.old ++ opened (texts names.now) ends.now start kept) }
{
    for depth in (kept..names.len()).rev() {
        boxes.push(FlameBox {
            depth,
            start,
            width: ends[depth].saturating_sub(start),
            name: names[depth],
        })?;
    }
    Ok(())
}

// How many names a stack shares with the one before it.
fn shared_before(
    alloc: Global,
    stacks: &[FoldedStack],
    place: usize,
    names_here: &[&[u8]],
) -> Result<usize, AllocError>
    requires { place < length stacks.now }
    ensures { IfOk result (λ kept. kept ≡ shared (names_before place stacks.now) (texts names_here.now)) }
{
    if place == 0 {
        return Ok(0);
    }
    let before = names_in(alloc, &stacks[place - 1].text)?;
    Ok(shared_count(&before, names_here))
}

/// The boxes of stacks, from the left to the right, and of those that begin at one place from the outermost to the
/// innermost. Of sorted stacks those that begin with the same names are side by side, so that they have one box.
pub fn flame_boxes<'a>(
    alloc: Global,
    stacks: &'a [FoldedStack],
) -> Result<Vec<FlameBox<'a>>, FlameError>
    ensures { BoxesAre stacks.now result }
{
    let mut start = total(stacks)?;
    let mut boxes = Vec::new(alloc);
    let mut ends = Vec::new(alloc);
    let mut kept = 0;
    for place in (0..stacks.len()).rev() {
        let stack = &stacks[place];
        let list = names_in(alloc, &stack.text)?;
        let names = list.as_slice();
        refill(&mut ends, kept, names.len(), start)?;
        start -= stack.count;
        kept = shared_before(alloc, stacks, place, names)?;
        open(&mut boxes, names, &ends, start, kept)?;
    }
    boxes.reverse();
    Ok(boxes)
}
