//! The folded stacks of the records so far.

ghost use Rattle.std.specs.Prelude.{◌≡◌, IfOk, None, map};
ghost use Rattle.folded_stacks.specs.LineViews.{line_seen};
ghost use Rattle.perf_files.specs.RecordViews.{record_seen};
ghost use Rattle.perf_files.specs.declared.record.RecordKind.TheVariants as kind;
ghost use Rattle.fold_stacks.specs.CountedStacks.{lines_in};
ghost use Rattle.fold_stacks.specs.FoldingStates.{nothing_folded};
ghost use Rattle.fold_stacks.specs.Foldings.{IsChange, KeepsEndedIf, after_if};
ghost use Rattle.fold_stacks.specs.KeptNumbers.{NamesThread};
ghost use Rattle.fold_stacks.specs.Recordings.{IsTaken};
ghost use Rattle.fold_stacks.specs.Taken.{change_in, counted_if, counted_in, weight_in};
ghost use Rattle.fold_stacks.specs.Weights.{IsWeight, event_name};

use crate::changes::change_of;
use crate::comms::Comms;
use crate::error::FoldError;
use crate::files::SampledFiles;
use crate::samples::SampleStacks;
use crate::selection::{is_selected, weight_of};
use crate::taken::{CountedSample, Taken};
use crate::totals::FoldTotals;
use fold_options::FoldOptions;
use folded_stacks::FoldedLine;
use perf_files::{
    Attributes, Event, EventError, Record, RecordKind, Sample, ThreadId, event_of, lost_of,
};
use perf_processes::Processes;
use sample_stacks::SampleArch;
use std::alloc::{AllocError, Global};
use std::marker::Model;

/// The events of a recording, with their names.
#[derive(Clone, Copy, Debug)]
pub struct RecordedEvents<'e> {
    /// The events.
    pub events: &'e [Event],
    /// The name of each, as far as there are some.
    pub names: &'e [Vec<u8>],
}

/// The folded stacks of the records so far.
#[derive(Drop)]
pub struct Folding<A: SampleArch> {
    processes: Processes,
    comms: Comms,
    samples: SampleStacks<A>,
}

/// A clause sees what processes have mapped now, what their threads are called, and the stacks that were counted.
impl<A: SampleArch> Model for Folding<A> {
    ghost use Rattle.fold_stacks.specs.FoldingStates.{FoldingState};

    ghost Value = { FoldingState };

    ghost view = { λ folding. record {
      processes = folding.processes;
      comms = folding.comms;
      stacks = folding.samples;
    } };
}

// The name of an event.
fn event_name<'e>(events: RecordedEvents<'e>, index: usize) -> &'e [u8]
    ensures { result.now ≡ event_name events.entry.names.now index }
{
    match events.names.get(index) {
        Some(name) => name.as_slice(),
        None => &[],
    }
}

impl<A: SampleArch> Folding<A> {
    /// No records yet. Fails if memory is refused.
    pub fn new(alloc: Global) -> Result<Self, AllocError>
        ensures { IfOk result (λ folding. folding ≡ nothing_folded) }
    {
        Ok(Folding {
            processes: Processes::new(alloc),
            comms: Comms::new(alloc),
            samples: SampleStacks::<A>::new(alloc)?,
        })
    }

    // Counts the sample in a record, if it is folded.
    fn take_sample<F: SampledFiles>(
        &mut self,
        alloc: Global,
        options: &FoldOptions<'_>,
        files: &mut F,
        attributes: &Attributes,
        event: &[u8],
        record: &Record<'_>,
    ) -> Result<Taken, FoldError>
        ensures change { IfOk result (λ taken. IsChange kind.Sample attributes.now (record_seen record.now) (change_in taken)) }
        ensures processes { IfOk result (λ taken. self.new.processes ≡ after_if (change_in taken) self.old.processes) }
        ensures ended { IfOk result (λ taken. KeepsEndedIf (change_in taken) self.old self.new) }
        ensures names { IfOk result (λ taken. NamesThread attributes.now (record_seen record.now) self.old self.new (change_in taken)) }
        ensures counts { IfOk result (λ taken. self.new.stacks.counts ≡ counted_if (counted_in taken) self.old.stacks.counts) }
        ensures weight { IfOk result (λ taken.
            IsWeight options.now self.old event.now attributes.now record.now.payload.now (weight_in taken)) }
    {
        let sample = Sample::parse(record.payload, attributes)?;
        let thread = sample.head.thread.unwrap_or(ThreadId { pid: 0, tid: 0 });
        let comm = self.comms.comm_of(alloc, &self.processes, thread)?;
        if !is_selected(&options.selection, thread, comm.as_slice(), event) {
            return Ok(Taken::Nothing);
        }
        let weight = weight_of(options.weights, sample.head.period, attributes.period);
        let stack = self.samples.count::<F>(
            alloc,
            options,
            files,
            &self.processes,
            comm.as_slice(),
            thread,
            &sample,
            weight,
        )?;
        Ok(Taken::Counted(CountedSample { stack, weight }))
    }

    // Makes the change that a record says.
    fn take_change<F: SampledFiles>(
        &mut self,
        files: &mut F,
        attributes: &Attributes,
        record: &Record<'_>,
    ) -> Result<Taken, FoldError>
        ensures change { IfOk result (λ taken. IsChange record.now.kind attributes.now (record_seen record.now) (change_in taken)) }
        ensures processes { IfOk result (λ taken. self.new.processes ≡ after_if (change_in taken) self.old.processes) }
        ensures ended { IfOk result (λ taken. KeepsEndedIf (change_in taken) self.old self.new) }
        ensures names { IfOk result (λ taken. NamesThread attributes.now (record_seen record.now) self.old self.new (change_in taken)) }
        ensures counts { IfOk result (λ taken. self.new.stacks.counts ≡ counted_if (counted_in taken) self.old.stacks.counts) }
        ensures weight { IfOk result (λ taken. weight_in taken ≡ None) }
    {
        let found = change_of::<F>(&mut self.comms.names, files, record, attributes)?;
        let Some(change) = found else {
            return Ok(Taken::Nothing);
        };
        self.comms.note(&self.processes, change)?;
        self.processes.apply(change)?;
        self.samples.note(change);
        Ok(Taken::Changed(change))
    }

    /// Takes the next record in the order of time, and returns what it changed, or the sample that was counted. Fails if memory is refused,
    /// if it isn't known which event the record is of, or if a field of it can't be read.
    pub fn take<F: SampledFiles>(
        &mut self,
        alloc: Global,
        options: &FoldOptions<'_>,
        events: RecordedEvents<'_>,
        files: &mut F,
        record: &Record<'_>,
    ) -> Result<Taken, FoldError>
        ensures { IfOk result (λ taken. IsTaken options.now events.entry (record_seen record.now) taken self.old self.new) }
    {
        let index = event_of(events.events, record)?;
        let Some(event) = events.events.get(index) else {
            return Err(FoldError::Event(EventError::NoEvent));
        };
        match record.kind {
            RecordKind::Sample => {
                let name = event_name(events, index);
                self.take_sample::<F>(alloc, options, files, &event.attributes, name, record)
            }
            RecordKind::Lost | RecordKind::LostSamples => {
                self.samples.add_lost(lost_of(record)?);
                Ok(Taken::Nothing)
            }
            _ => self.take_change::<F>(files, &event.attributes, record),
        }
    }

    /// What was folded, in numbers.
    pub fn totals(&self) -> FoldTotals {
        self.samples.totals()
    }

    /// The lines of all stacks so far, sorted by their bytes. Fails if memory is refused.
    pub fn lines(&self, alloc: Global) -> Result<Vec<FoldedLine>, AllocError>
        ensures { IfOk result (λ lines. map line_seen lines.items ≡ lines_in self.now.stacks) }
    {
        self.samples.lines(alloc)
    }
}
