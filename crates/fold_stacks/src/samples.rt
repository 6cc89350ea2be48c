//! The stacks of the samples so far.

ghost use Rattle.std.specs.Prelude.{◌≡◌, IfOk, OnOk, map};
ghost use Rattle.folded_stacks.specs.LineViews.{line_seen};
ghost use Rattle.folded_stacks.specs.Lines.{with_samples};
ghost use Rattle.fold_stacks.specs.CountedStacks.{lines_in, no_stacks};
ghost use Rattle.fold_stacks.specs.FrameNames.{KeepsLabels};
ghost use Rattle.fold_stacks.specs.StackNames.{IsStackOf};

use crate::files::SampledFiles;
use crate::frames::UserFrame;
use crate::labels::Labels;
use crate::order::{StackParts, folded_stack};
use crate::processes::ModuleTable;
use crate::totals::FoldTotals;
use crate::walks::{Walker, placed, take_user_frames};
use fold_options::FoldOptions;
use folded_stacks::{FoldedLine, StackCounts, lines_of};
use perf_files::{Sample, ThreadId};
use perf_processes::{Change, Processes};
use sample_stacks::{SampleArch, WalkEnd};
use std::alloc::{AllocError, Global};
use std::marker::Model;

// The frames for which there is room from the start: most walks have fewer.
const USUAL_FRAMES: usize = 64;

/// The stacks of the samples so far.
#[derive(Drop)]
pub(crate) struct SampleStacks<A: SampleArch> {
    walker: Walker<A>,
    modules: ModuleTable,
    labels: Labels,
    counts: StackCounts,
    totals: FoldTotals,
}

/// A clause sees the names in stacks, with what they were looked up in, and what the samples of each stack count for.
impl<A: SampleArch> Model for SampleStacks<A> {
    ghost use Rattle.fold_stacks.specs.CountedStacks.{CountedStacks};

    ghost Value = { CountedStacks };

    ghost view = { λ stacks. record { labels = stacks.labels; counts = stacks.counts } };
}

impl<A: SampleArch> SampleStacks<A> {
    /// No samples. Fails if memory is refused.
    pub(crate) fn new(alloc: Global) -> Result<Self, AllocError>
        ensures { IfOk result (λ stacks. stacks ≡ no_stacks) }
    {
        Ok(SampleStacks {
            walker: Walker::<A>::new(alloc)?,
            modules: ModuleTable::new(alloc),
            labels: Labels::new(alloc),
            counts: StackCounts::new(alloc),
            totals: FoldTotals::new(),
        })
    }

    /// Takes that a change was made.
    pub(crate) fn note(&mut self, change: Change)
        ensures { self.new ≡ self.old }
    {
        self.modules.note::<A>(&mut self.walker, change);
    }

    /// Counts what was lost.
    pub(crate) fn add_lost(&mut self, lost: u64)
        ensures { self.new ≡ self.old }
    {
        self.totals.lost = self.totals.lost.saturating_add(lost);
    }

    // The frames of user code of a sample, and how its walk ends.
    fn user_frames<F: SampledFiles>(
        &mut self,
        alloc: Global,
        files: &mut F,
        processes: &Processes,
        pid: u32,
        sample: &Sample<'_>,
    ) -> Result<(Vec<UserFrame>, WalkEnd), AllocError>
        ensures { self.new ≡ self.old }
    {
        let mut addresses = Vec::with_capacity(alloc, USUAL_FRAMES)?;
        let modules = self
            .modules
            .modules_of::<A>(alloc, &mut self.walker, processes, pid)?;
        let end = take_user_frames::<A, F>(
            alloc,
            &mut self.walker,
            modules,
            files,
            sample,
            &mut addresses,
        )?;
        let frames = placed(alloc, modules, addresses.as_slice())?;
        Ok((frames, end))
    }

    /// Counts a sample of a thread, which is called so, and returns its stack.
    pub(crate) fn count<F: SampledFiles>(
        &mut self,
        alloc: Global,
        options: &FoldOptions<'_>,
        files: &mut F,
        processes: &Processes,
        comm: &[u8],
        thread: ThreadId,
        sample: &Sample<'_>,
        weight: u64,
    ) -> Result<Vec<u32>, AllocError>
        ensures counts { IfOk result (λ stack. self.new.counts ≡ with_samples stack.items weight self.old.counts) }
        ensures names { IfOk result (λ stack.
            IsStackOf options.now self.new.labels comm.now thread sample.now.call_chain stack.items) }
        ensures kept { OnOk result (KeepsLabels self.old.labels self.new.labels) }
    {
        let process = self.labels.process_number(alloc, options, comm, thread)?;
        let (frames, end) = self.user_frames::<F>(alloc, files, processes, thread.pid, sample)?;
        let user = self.labels.user_numbers::<F>(
            alloc,
            files,
            processes,
            options.addresses,
            thread.pid,
            frames.as_slice(),
        )?;
        let kernel = self
            .labels
            .kernel_numbers::<F>(alloc, options, files, sample)?;
        let parts = StackParts {
            process,
            end: self.labels.end_number(end)?,
            user: user.as_slice(),
            kernel: kernel.as_slice(),
        };
        let stack = folded_stack(alloc, &parts, options.inverted)?;
        self.counts.add(alloc, stack.as_slice(), weight)?;
        self.totals.add_walk(end, frames.len());
        Ok(stack)
    }

    /// What was folded, in numbers.
    pub(crate) fn totals(&self) -> FoldTotals {
        self.totals
    }

    /// The lines of all stacks so far, sorted by their bytes. Fails if memory is refused.
    pub(crate) fn lines(&self, alloc: Global) -> Result<Vec<FoldedLine>, AllocError>
        ensures { IfOk result (λ lines. map line_seen lines.items ≡ lines_in self.now) }
    {
        lines_of(alloc, self.labels.names(), &self.counts)
    }
}
