//! Stacks with their counts.

use anyhow::{Context, Result, bail};
use flame_graph::{
    Direction, FlameBox, FlameError, FoldedStack, Picture, flame_boxes, flame_graph,
};
use shown_text::Shown;
use std::alloc::Global;

// The title of a picture.
const TITLE: &[u8] = b"A title & <more>";

// A stack and its count.
fn stack_of(alloc: Global, line: &str) -> Result<FoldedStack> {
    let (text, count) = line.rsplit_once(' ').context("a line without a count")?;
    Ok(FoldedStack {
        text: text.as_bytes().to_vec(alloc)?,
        count: count.parse::<u64>()?,
    })
}

fn stacks_between(alloc: Global, text: &str, mark: char) -> Result<Vec<FoldedStack>> {
    let mut stacks = Vec::new(alloc);
    for line in text.split(mark) {
        if !line.is_empty() {
            stacks.push(stack_of(alloc, line)?)?;
        }
    }
    Ok(stacks)
}

fn show_box(flame: &FlameBox<'_>, shown: &mut Shown) {
    let FlameBox {
        depth,
        start,
        width,
        name,
    } = *flame;
    shown.number("", depth as u64);
    shown.number(" ", start);
    shown.number(" ", width);
    shown.text(" ");
    shown.bytes(name);
    shown.text("\t");
}

fn show_boxes(line: &str, shown: &mut Shown) -> Result<()> {
    let stacks = stacks_between(shown.alloc(), line, '\t')?;
    match flame_boxes(shown.alloc(), &stacks) {
        Ok(boxes) => {
            for flame in &boxes {
                show_box(flame, shown);
            }
        }
        Err(FlameError::OutOfMemory) => bail!("out of memory"),
        Err(FlameError::TooManySamples) => shown.text("too many samples"),
    }
    shown.end();
    Ok(())
}

/// Shows the boxes of each line, which has stacks with their counts between tabs.
pub(crate) fn show_stacks(lines: &str, shown: &mut Shown) -> Result<()> {
    for line in lines.lines() {
        show_boxes(line, shown)?;
    }
    Ok(())
}

/// Shows the picture of stacks, of which each line has one, as `stackcollapse` scripts write them.
pub(crate) fn show_picture(lines: &str, direction: Direction, shown: &mut Shown) -> Result<()> {
    let stacks = stacks_between(shown.alloc(), lines, '\n')?;
    let picture = Picture {
        title: TITLE,
        unit: b"samples",
        direction,
    };
    let text = flame_graph(shown.alloc(), &picture, &stacks)?;
    shown.bytes(&text);
    Ok(())
}
