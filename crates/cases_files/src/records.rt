//! Records.

use crate::samples::show_sample;
use crate::text::{bytes_of, show_digits, show_display, show_name, show_thread};
use perf_files::{
    Attributes, Command, Event, FieldError, Mapping, Record, RecordKind, Sample, Section, Task,
    event_of, lost_of, record_at,
};
use shown_text::Shown;

fn show_mapping(it: &Mapping<'_>, shown: &mut Shown) {
    show_thread("mapping ", it.thread, shown);
    shown.hex(" 0x", it.address);
    shown.hex(" 0x", it.size);
    shown.hex(" 0x", it.offset);
    shown.text(if it.executable { " code" } else { " data" });
    show_digits(" id ", it.build_id, shown);
    show_name(it.name, shown);
}

fn show_command(it: &Command<'_>, shown: &mut Shown) {
    show_thread("command ", it.thread, shown);
    shown.text(if it.exec { " exec" } else { " name" });
    show_name(it.name, shown);
}

fn show_task(name: &str, it: &Task, shown: &mut Shown) {
    shown.text(name);
    shown.number(" ", u64::from(it.pid));
    shown.number("/", u64::from(it.tid));
    shown.number(" of ", u64::from(it.parent_pid));
    shown.number("/", u64::from(it.parent_tid));
    shown.hex(" time 0x", it.time);
}

// Shows the fields of a record, or returns why they can't be read.
fn show_fields(
    record: &Record<'_>,
    event: usize,
    attributes: &Attributes,
    shown: &mut Shown,
) -> Result<(), FieldError> {
    match record.kind {
        RecordKind::Mapping | RecordKind::Mapping2 => {
            show_mapping(&Mapping::parse(record, attributes)?, shown);
        }
        RecordKind::Command => show_command(&Command::parse(record, attributes)?, shown),
        RecordKind::Fork => show_task("fork", &Task::parse(record, attributes)?, shown),
        RecordKind::Exit => show_task("exit", &Task::parse(record, attributes)?, shown),
        RecordKind::Lost | RecordKind::LostSamples => shown.number("lost ", lost_of(record)?),
        RecordKind::Sample => {
            show_sample(event, &Sample::parse(record.payload, attributes)?, shown);
        }
        _ => {}
    }
    Ok(())
}

/// Whether a record is of those that are shown.
pub(crate) fn is_shown(kind: RecordKind) -> bool {
    matches!(
        kind,
        RecordKind::Mapping
            | RecordKind::Mapping2
            | RecordKind::Command
            | RecordKind::Fork
            | RecordKind::Exit
            | RecordKind::Lost
            | RecordKind::LostSamples
            | RecordKind::Sample
    )
}

fn show_record(record: &Record<'_>, events: &Vec<Event>, shown: &mut Shown) {
    if !is_shown(record.kind) {
        return;
    }
    shown.hex("0x", record.offset);
    shown.text(" ");
    match event_of(events.as_slice(), record) {
        Ok(index) => {
            if let Some(event) = events.get(index) {
                if let Err(error) = show_fields(record, index, &event.attributes, shown) {
                    show_display("", &error, shown);
                }
            }
        }
        Err(error) => show_display("", &error, shown),
    }
    shown.end();
}

/// Shows the records of a recording, in their order, and how many bytes after them are none.
pub(crate) fn show_records(bytes: &[u8], data: Section, events: &Vec<Event>, shown: &mut Shown) {
    let end = data.offset.saturating_add(data.size);
    let mut at = data.offset;
    for _ in 0..u64::MAX {
        let window = bytes_of(bytes, at, end.saturating_sub(at));
        match record_at(window, at) {
            Ok(Some((record, size))) => {
                show_record(&record, events, shown);
                at = at.saturating_add(size);
                continue;
            }
            Ok(None) => shown.number("left ", window.len() as u64),
            Err(error) => show_display("", &error, shown),
        }
        shown.end();
        break;
    }
}
