//! The lines of folded stacks.

ghost use Rattle.std.specs.Prelude.{◌≡◌, IfOk, true};
ghost use Rattle.line_parts.specs.Parts.{Pushes};
ghost use Rattle.folded_stacks.specs.Lines.{line_text, names_text, stack_text};
ghost use Rattle.folded_stacks.specs.LineViews.{line_seen};

use crate::frame_names::FrameNames;
use line_parts::{push_bytes, push_decimal};
use std::alloc::{AllocError, Global};

/// A line: a stack, and how many samples have it.
#[derive(Debug, Drop)]
pub struct FoldedLine {
    /// The names, the outermost first, with semicolons between them.
    pub stack: Vec<u8>,
    /// How many samples have it.
    pub count: u64,
}

// Appends names by their numbers, with semicolons between them.
fn push_names(text: &mut Vec<u8>, names: &FrameNames, numbers: &[u32]) -> Result<(), AllocError>
    ensures { Pushes result text.old text.new (names_text true names.now numbers.now) }
{
    let mut is_first = true;
    for number in numbers {
        if !is_first {
            push_bytes(text, b";")?;
        }
        push_bytes(text, names.text_of(*number))?;
        is_first = false;
    }
    Ok(())
}

// How many bytes names take, each with a semicolon.
fn size_of_names(names: &FrameNames, numbers: &[u32]) -> usize {
    let mut size: usize = 0;
    for number in numbers {
        size = size
            .saturating_add(names.text_of(*number).len())
            .saturating_add(1);
    }
    size
}

/// The names of a stack by their numbers, of which the innermost frame's is the first, with semicolons between them.
pub(crate) fn text_of(
    alloc: Global,
    names: &FrameNames,
    stack: &[u32],
) -> Result<Vec<u8>, AllocError>
    ensures { IfOk result (λ text. text.items ≡ stack_text names.now stack.now) }
{
    let mut numbers = stack.to_vec(alloc)?;
    numbers.reverse();
    let mut text = Vec::with_capacity(alloc, size_of_names(names, stack))?;
    push_names(&mut text, names, numbers.as_slice())?;
    Ok(text)
}

/// Appends a line.
pub fn push_line(alloc: Global, text: &mut Vec<u8>, line: &FoldedLine) -> Result<(), AllocError>
    ensures { Pushes result text.old text.new (line_text (line_seen line.now)) }
{
    push_bytes(text, line.stack.as_slice())?;
    push_bytes(text, b" ")?;
    push_decimal(alloc, text, line.count)?;
    push_bytes(text, b"\n")
}
