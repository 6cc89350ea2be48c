//! How many samples have each stack.

ghost use Rattle.std.specs.Prelude.{◌≡◌, [], IfOk, OnErr, OnOk, map};
ghost use Rattle.folded_stacks.specs.LineViews.{CountsText, entry_seen, line_seen};
ghost use Rattle.folded_stacks.specs.Lines.{all_counted, named, stack_text, with_samples};
ghost use Rattle.folded_stacks.specs.StackLists.{CountsStack, HasStackAt, text_lines};

use crate::frame_names::FrameNames;
use crate::lines::{FoldedLine, text_of};
use crate::stack_slots::{CountedStack, StackSlots, hash_of};
use std::alloc::{AllocError, Global};
use std::collections::BTreeMap;
use std::marker::Model;

/// How many samples have each stack: the numbers of its names, the innermost frame's first and the process's last.
#[derive(Drop)]
pub struct StackCounts {
    // Each stack once, in the order in which they came.
    stacks: Vec<CountedStack>,
    slots: StackSlots,
}

/// They are lines, in the order of the numbers.
impl Model for StackCounts {
    ghost use Rattle.std.specs.Prelude.{List};
    ghost use Rattle.folded_stacks.specs.Lines.{Line};
    ghost use Rattle.folded_stacks.specs.StackLists.{lines_seen};

    ghost Value = { List Line };

    ghost view = { λ counts. lines_seen counts.stacks.items };
}

// Counts samples of the stack at a place.
fn add_at(stacks: &mut Vec<CountedStack>, place: u32, stack: &[u32], samples: u64)
    requires { HasStackAt stacks.old.items place stack.now }
    ensures { CountsStack stack.now samples stacks.old.items stacks.new.items }
{
    let place = place as usize;
    if place < stacks.len() {
        stacks[place].count = stacks[place].count.saturating_add(samples);
    }
}

// Counts samples of a stack that isn't in the list, or may be there once more.
fn add_new(
    alloc: Global,
    stacks: &mut Vec<CountedStack>,
    hash: u32,
    stack: &[u32],
    samples: u64,
) -> Result<(), AllocError>
    ensures counted { OnOk result (CountsStack stack.now samples stacks.old.items stacks.new.items) }
    ensures err { OnErr result (stacks.new.items ≡ stacks.old.items) }
{
    stacks.push(CountedStack {
        stack: stack.to_vec(alloc)?,
        hash,
        count: samples,
    })?;
    Ok(())
}

impl StackCounts {
    /// No samples.
    pub fn new(alloc: Global) -> Self
        ensures { result ≡ [] }
    {
        StackCounts {
            stacks: Vec::new(alloc),
            slots: StackSlots::new(alloc),
        }
    }

    /// Counts a sample, or several. Fails if memory is refused.
    pub fn add(&mut self, alloc: Global, stack: &[u32], samples: u64) -> Result<(), AllocError>
        ensures counted { OnOk result (self.new ≡ with_samples stack.now samples self.old) }
        ensures err { OnErr result (self.new ≡ self.old) }
    {
        let hash = hash_of(stack);
        if let Some(place) = self.slots.place_of(self.stacks.as_slice(), hash, stack) {
            add_at(&mut self.stacks, place, stack, samples);
            return Ok(());
        }
        self.slots.make_room(self.stacks.as_slice())?;
        if let Ok(place) = u32::try_from(self.stacks.len()) {
            self.slots.keep(hash, place);
        }
        add_new(alloc, &mut self.stacks, hash, stack, samples)
    }
}

// Counts samples of a stack by its text.
fn add_text(
    alloc: Global,
    lines: &mut BTreeMap<Vec<u8>, u64>,
    names: &FrameNames,
    stack: &[u32],
    samples: u64,
) -> Result<(), AllocError>
    ensures { OnOk result (CountsText (stack_text names.now stack.now) samples
        lines.old.entries lines.new.entries) }
{
    let text = text_of(alloc, names, stack)?;
    let known = lines.entry(text)?.or_insert(0);
    *known = known.saturating_add(samples);
    Ok(())
}

// The counts of stacks by their texts.
fn counts_by_text(
    alloc: Global,
    names: &FrameNames,
    stacks: &[CountedStack],
) -> Result<BTreeMap<Vec<u8>, u64>, AllocError>
    ensures { IfOk result (λ lines. map entry_seen lines.entries ≡ text_lines names.now stacks.now) }
{
    let mut lines = BTreeMap::new(alloc);
    for counted in stacks {
        add_text(
            alloc,
            &mut lines,
            names,
            counted.stack.as_slice(),
            counted.count,
        )?;
    }
    Ok(lines)
}

// Lines, in their order.
fn lines_in(alloc: Global, counts: BTreeMap<Vec<u8>, u64>) -> Result<Vec<FoldedLine>, AllocError>
    ensures { IfOk result (λ lines. map line_seen lines.items ≡ map entry_seen counts.entries) }
{
    let mut lines = Vec::with_capacity(alloc, counts.len())?;
    for (stack, count) in counts {
        lines.push(FoldedLine { stack, count })?;
    }
    Ok(lines)
}

/// The lines of all stacks, in the order of their bytes. Fails if memory is refused.
pub fn lines_of(
    alloc: Global,
    names: &FrameNames,
    counts: &StackCounts,
) -> Result<Vec<FoldedLine>, AllocError>
    ensures { IfOk result (λ lines. map line_seen lines.items ≡ all_counted (map (named names.now) counts.now) []) }
{
    let counted = counts_by_text(alloc, names, counts.stacks.as_slice())?;
    lines_in(alloc, counted)
}
