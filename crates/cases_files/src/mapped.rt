//! What was mapped where each sample was taken, in the order of time.

use crate::records::is_shown;
use crate::samples::start_of;
use crate::text::{bytes_of, show_name};
use anyhow::Result;
use perf_files::{
    Attributes, Command, Event, Mapping, Record, RecordKind, RecordPlace, Sample, Section, Task,
    ThreadId, event_of, record_at, sort_by_time, time_of,
};
use perf_processes::{Change, MappedFile, Processes, ThreadName};
use shown_text::Shown;
use std::alloc::Global;

// The text with a number.
fn text_at<'a>(texts: &Vec<&'a [u8]>, number: u32) -> &'a [u8] {
    texts.get(number as usize).copied().unwrap_or(b"?")
}

// The processes so far, with the names of files and of threads.
#[derive(Drop)]
struct Seen<'a> {
    processes: Processes,
    files: Vec<&'a [u8]>,
    names: Vec<&'a [u8]>,
}

impl<'a> Seen<'a> {
    // A mapping, whose file gets the next number.
    fn mapped(&mut self, it: &Mapping<'a>) -> Result<Change> {
        let file = u32::try_from(self.files.len())?;
        self.files.push(it.name)?;
        Ok(Change::Mapped(MappedFile {
            pid: it.thread.pid,
            address: it.address,
            size: it.size,
            offset: it.offset,
            file,
        }))
    }

    // A name, which gets the next number.
    fn named(&mut self, it: &Command<'a>) -> Result<Change> {
        let name = u32::try_from(self.names.len())?;
        self.names.push(it.name)?;
        let named = ThreadName {
            thread: it.thread,
            name: Some(name),
        };
        Ok(if it.exec {
            Change::Executed(named)
        } else {
            Change::Named(named)
        })
    }

    // What a record changes.
    fn change_of(
        &mut self,
        record: &Record<'a>,
        attributes: &Attributes,
    ) -> Result<Option<Change>> {
        match record.kind {
            RecordKind::Mapping | RecordKind::Mapping2 => match Mapping::parse(record, attributes) {
                Ok(it) if it.executable => Ok(Some(self.mapped(&it)?)),
                _ => Ok(None),
            },
            RecordKind::Command => match Command::parse(record, attributes) {
                Ok(it) => Ok(Some(self.named(&it)?)),
                Err(_) => Ok(None),
            },
            RecordKind::Fork => Ok(Task::parse(record, attributes).ok().map(Change::Started)),
            RecordKind::Exit => Ok(Task::parse(record, attributes).ok().map(Change::Ended)),
            _ => Ok(None),
        }
    }

    // Shows the name of a thread.
    fn show_thread(&self, thread: ThreadId, shown: &mut Shown) {
        match self.processes.name_of(thread) {
            Some(name) => show_name(text_at(&self.names, name), shown),
            None => shown.text(" -"),
        }
    }

    // Shows what a process has mapped at an address.
    fn show_place(&self, pid: u32, address: u64, shown: &mut Shown) {
        match self.processes.mapping_at(pid, address) {
            Some(it) => {
                show_name(text_at(&self.files, it.file), shown);
                let offset = address.wrapping_sub(it.address).wrapping_add(it.offset);
                shown.hex(" 0x", offset);
            }
            None => shown.hex(" - 0x", address),
        }
    }

    // Shows where a sample was taken.
    fn show_sample(&self, offset: u64, sample: &Sample<'_>, shown: &mut Shown) {
        let Some(thread) = sample.head.thread else {
            return;
        };
        let Some(start) = start_of(&sample.user_registers) else {
            return;
        };
        shown.hex("in 0x", offset);
        self.show_thread(thread, shown);
        self.show_place(thread.pid, start.instruction_pointer, shown);
        shown.end();
    }
}

// The places of the records, in the order of time.
fn places(
    alloc: Global,
    bytes: &[u8],
    data: Section,
    events: &Vec<Event>,
) -> Result<Vec<RecordPlace>> {
    let end = data.offset.saturating_add(data.size);
    let mut found = Vec::new(alloc);
    let mut at = data.offset;
    for _ in 0..u64::MAX {
        let Ok(Some((record, size))) = record_at(bytes_of(bytes, at, end.saturating_sub(at)), at)
        else {
            break;
        };
        if !is_shown(record.kind) {
            at = at.saturating_add(size);
            continue;
        }
        if let Ok(index) = event_of(events.as_slice(), &record) {
            if let Some(event) = events.get(index) {
                if let Ok(time) = time_of(&record, &event.attributes) {
                    found.push(RecordPlace::new(time, at))?;
                }
            }
        }
        at = at.saturating_add(size);
    }
    sort_by_time(&mut found)?;
    Ok(found)
}

/// Shows where each sample was taken, in the order of time.
pub(crate) fn show_mapped(
    bytes: &[u8],
    data: Section,
    events: &Vec<Event>,
    shown: &mut Shown,
) -> Result<()> {
    let alloc = shown.alloc();
    let order = places(alloc, bytes, data, events)?;
    let mut seen = Seen {
        processes: Processes::new(alloc),
        files: Vec::new(alloc),
        names: Vec::new(alloc),
    };
    for place in order.as_slice() {
        let Ok(Some((record, _size))) = record_at(
            bytes_of(bytes, place.offset, u64::MAX),
            place.offset,
        ) else {
            continue;
        };
        let Ok(index) = event_of(events.as_slice(), &record) else {
            continue;
        };
        let Some(event) = events.get(index) else {
            continue;
        };
        if let RecordKind::Sample = record.kind {
            if let Ok(sample) = Sample::parse(record.payload, &event.attributes) {
                seen.show_sample(place.offset, &sample, shown);
            }
        } else if let Some(change) = seen.change_of(&record, &event.attributes)? {
            seen.processes.apply(change)?;
        }
    }
    Ok(())
}
