//! The records of a recording in the order of time, and what is printed of them.

use crate::found_files::FoundFiles;
use crate::output::{write_lines, write_picture, write_summary};
use crate::progress::{Progress, clear_line};
use crate::recording::Recording;
use crate::source::Source;
use anyhow::{Result, bail};
use fold_options::FoldOptions;
use fold_stacks::{FoldError, Folding, RecordedEvents};
use perf_files::record_at;
use sample_stacks::SampleArch;

// How much is read at once if a record isn't in memory: most records with copied stacks are smaller.
const AHEAD: u64 = 1 << 14;

// Takes all records, and returns how many can't be read.
fn take_all<A: SampleArch>(
    rt: &HostRuntime,
    options: &FoldOptions<'_>,
    source: &mut Source,
    recording: &Recording,
    files: &mut FoundFiles<'_>,
    folding: &mut Folding<A>,
) -> Result<u64> {
    let events = RecordedEvents {
        events: recording.events.as_slice(),
        names: recording.event_names.as_slice(),
    };
    let mut unreadable = recording.unreadable;
    let mut progress = Progress::new(rt, recording.places.len());
    for (taken, place) in recording.places.iter().enumerate() {
        progress.show(rt, taken)?;
        let bytes = source.record_bytes(place.offset, AHEAD)?;
        let Ok(Some((record, _))) = record_at(bytes, place.offset) else {
            unreadable = unreadable.saturating_add(1);
            continue;
        };
        match folding.take::<FoundFiles<'_>>(rt.alloc(), options, events, files, &record) {
            Ok(_taken) => {}
            Err(FoldError::OutOfMemory) => bail!("out of memory"),
            Err(_) => unreadable = unreadable.saturating_add(1),
        }
    }
    clear_line(rt)?;
    Ok(unreadable)
}

/// Prints the stacks of a recording.
pub(crate) fn print_folded<A: SampleArch>(
    rt: &HostRuntime,
    options: &FoldOptions<'_>,
    source: &mut Source,
    recording: &Recording,
    files: &mut FoundFiles<'_>,
) -> Result<()> {
    let mut folding = Folding::<A>::new(rt.alloc())?;
    let unreadable = take_all::<A>(rt, options, source, recording, files, &mut folding)?;
    let lines = folding.lines(rt.alloc())?;
    write_lines(rt, lines.as_slice())?;
    if let Some(path) = options.svg {
        write_picture(rt, options, path, lines.as_slice())?;
    }
    write_summary(rt, &folding.totals(), unreadable, files.missing, recording)
}
