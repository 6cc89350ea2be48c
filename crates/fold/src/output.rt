//! What the program writes: lines, a picture, and what was folded in numbers.

ghost use Rattle.std.specs.Prelude.{◌≡◌, map, IfOk};
ghost use Rattle.fold.specs.Order.{replaced};

use crate::recording::Recording;
use anyhow::Result;
use flame_graph::{Direction, FoldedStack, Picture, flame_graph};
use fold_options::{FoldOptions, Weights};
use fold_stacks::FoldTotals;
use folded_stacks::{FoldedLine, push_line};
use std::alloc::{AllocError, Global};
use std::io::Write;
use std::{fs, io};

// How much is written at once.
const BLOCK: usize = 1 << 16;

/// Writes lines to standard output.
pub(crate) fn write_lines(rt: &HostRuntime, lines: &[FoldedLine]) -> Result<()> {
    let mut out = io::writer(rt);
    let mut text = Vec::new(rt.alloc());
    for line in lines {
        push_line(rt.alloc(), &mut text, line)?;
        if text.len() >= BLOCK {
            out.write_all(text.as_slice())?;
            text.clear();
        }
    }
    out.write_all(text.as_slice())?;
    out.flush()?;
    Ok(())
}

// A text with one byte in place of another.
fn replaced(alloc: Global, text: &[u8], from: u8, to: u8) -> Result<Vec<u8>, AllocError>
    ensures { IfOk result (λ made. made.items ≡ map (replaced from to) text.now) }
{
    let mut made = Vec::new(alloc);
    for byte in text {
        made.push(if *byte == from { to } else { *byte })?;
    }
    Ok(made)
}

// The stacks of lines with a byte 0, which no name has, between names. So names that begin others come before these.
fn stacks_by_zeros(alloc: Global, lines: &[FoldedLine]) -> Result<Vec<FoldedStack>, AllocError> {
    let mut stacks = Vec::new(alloc);
    for line in lines {
        stacks.push(FoldedStack {
            text: replaced(alloc, line.stack.as_slice(), b';', 0)?,
            count: line.count,
        })?;
    }
    stacks.sort_by(|one, other| one.text.cmp(&other.text))?;
    Ok(stacks)
}

// The stacks of lines, in the order of a picture.
fn picture_stacks(alloc: Global, lines: &[FoldedLine]) -> Result<Vec<FoldedStack>, AllocError> {
    let sorted = stacks_by_zeros(alloc, lines)?;
    let mut stacks = Vec::new(alloc);
    for stack in &sorted {
        stacks.push(FoldedStack {
            text: replaced(alloc, stack.text.as_slice(), 0, b';')?,
            count: stack.count,
        })?;
    }
    Ok(stacks)
}

/// Writes the flame graph of lines to a file.
pub(crate) fn write_picture(
    rt: &HostRuntime,
    options: &FoldOptions<'_>,
    path: &str,
    lines: &[FoldedLine],
) -> Result<()> {
    let stacks = picture_stacks(rt.alloc(), lines)?;
    let picture = Picture {
        title: b"Flame graph",
        unit: match options.weights {
            Weights::Samples => b"samples",
            Weights::Period => b"events",
        },
        direction: if options.inverted {
            Direction::Icicle
        } else {
            Direction::Flame
        },
    };
    let text = flame_graph(rt.alloc(), &picture, stacks.as_slice())?;
    fs::write(rt, path, text.as_slice())?;
    Ok(())
}

/// Writes to standard error what was folded, in numbers, and what of the recording can't be read.
pub(crate) fn write_summary(
    rt: &HostRuntime,
    totals: &FoldTotals,
    unreadable: u64,
    missing: u64,
    recording: &Recording,
) -> Result<()> {
    match recording.cut {
        Some(Some(error)) => eprintln!(rt; "fold: {error}: what follows is left out")?,
        Some(None) => eprintln!(rt; "fold: the recording is cut off")?,
        None => {}
    }
    let FoldTotals {
        samples,
        frames,
        truncated,
        broken,
        lost,
    } = *totals;
    eprint!(rt; "fold: {samples} samples with {frames} frames of user code, ")?;
    eprint!(rt; "{truncated} walks truncated, {broken} broken, ")?;
    eprintln!(rt; "{missing} files not found, {lost} records lost, {unreadable} not readable")?;
    Ok(())
}
