//! Events and features.

use crate::text::{bytes_of, show_digits, show_display, show_name};
use anyhow::Result;
use perf_files::{
    Architecture, AttributeEntry, Attributes, Event, FieldError, FileBuildId, FileHeader,
    RecordKind, Section, Words, architecture_in, record_at,
};
use shown_text::Shown;
use std::alloc::{AllocError, Global};

const BUILD_IDS: u32 = 2;

const ARCHITECTURE: u32 = 6;

// The ids in some bytes.
fn ids_of(alloc: Global, words: &Words<'_>) -> Result<Vec<u64>, AllocError> {
    let mut ids = Vec::new(alloc);
    for index in 0..words.len() {
        if let Some(id) = words.get(index) {
            ids.push(id)?;
        }
    }
    Ok(ids)
}

fn show_refused(index: u64, error: FieldError, shown: &mut Shown) {
    shown.number("event ", index);
    show_display(": ", &error, shown);
    shown.end();
}

// An event with its ids.
fn event_with(
    alloc: Global,
    attributes: Attributes,
    words: &Words<'_>,
) -> Result<Event, AllocError> {
    let ids = ids_of(alloc, words)?;
    Ok(Event { attributes, ids })
}

/// The events of a file; those that can't be read are shown and left out.
pub(crate) fn file_events(
    bytes: &[u8],
    header: &FileHeader,
    shown: &mut Shown,
) -> Result<Vec<Event>> {
    let alloc = shown.alloc();
    let mut events = Vec::new(alloc);
    if header.attribute_size == 0 {
        return Ok(events);
    }
    let mut table = bytes_of(bytes, header.attributes.offset, header.attributes.size);
    for index in 0..header.attribute_count() {
        let size = header.attribute_size.min(table.len() as u64) as usize;
        let (entry, rest) = table.split_at(size);
        if entry.is_empty() {
            break;
        }
        table = rest;
        match AttributeEntry::parse(entry) {
            Ok(entry) => {
                let words = Words::new(bytes_of(bytes, entry.ids.offset, entry.ids.size));
                events.push(event_with(alloc, entry.attributes, &words)?)?;
            }
            Err(error) => show_refused(index, error, shown),
        }
    }
    Ok(events)
}

/// The events of a pipe, likewise.
pub(crate) fn pipe_events(bytes: &[u8], data: Section, shown: &mut Shown) -> Result<Vec<Event>> {
    let alloc = shown.alloc();
    let mut events = Vec::new(alloc);
    let mut at = data.offset;
    for _ in 0..u64::MAX {
        let Ok(Some((record, size))) = record_at(bytes_of(bytes, at, u64::MAX), at) else {
            break;
        };
        if let RecordKind::Attributes = record.kind {
            match Attributes::parse_with_ids(record.payload) {
                Ok((attributes, words)) => events.push(event_with(alloc, attributes, &words)?)?,
                Err(error) => show_refused(at, error, shown),
            }
        }
        at = at.saturating_add(size);
    }
    Ok(events)
}

fn show_event(index: usize, event: &Event, shown: &mut Shown) {
    let it = event.attributes;
    shown.number("event ", index as u64);
    shown.number(" kind ", u64::from(it.kind));
    shown.hex(" config 0x", it.config);
    shown.number(" period ", it.period);
    shown.hex(" fields 0x", it.sample_type);
    shown.hex(" reads 0x", it.read_format);
    shown.hex(" flags 0x", it.flags);
    shown.hex(" branches 0x", it.branch_sample_type);
    shown.hex(" registers 0x", it.user_registers);
    shown.number(" stack ", u64::from(it.user_stack));
    shown.hex(" interrupted 0x", it.interrupt_registers);
    shown.text(" ids");
    for id in event.ids.as_slice() {
        shown.number(" ", *id);
    }
    shown.end();
}

/// Shows events.
pub(crate) fn show_events(events: &Vec<Event>, shown: &mut Shown) {
    for (index, event) in events.iter().enumerate() {
        show_event(index, event, shown);
    }
}

fn show_build_ids(feature: &[u8], shown: &mut Shown) {
    let mut at = 0;
    for _ in 0..u64::MAX {
        let Ok(Some((record, size))) = record_at(bytes_of(feature, at, u64::MAX), at) else {
            break;
        };
        match FileBuildId::parse(&record) {
            Ok(found) => {
                show_digits("build id ", found.build_id, shown);
                show_name(found.name, shown);
            }
            Err(error) => show_display("build id: ", &error, shown),
        }
        shown.end();
        at = at.saturating_add(size);
    }
}

fn machine_name(machine: Architecture) -> &'static str {
    match machine {
        Architecture::X86_64 => "X86_64",
        Architecture::Aarch64 => "Aarch64",
    }
}

fn show_machine(feature: &[u8], shown: &mut Shown) {
    match architecture_in(feature) {
        Ok(machine) => {
            shown.text("machine ");
            shown.text(machine_name(machine));
        }
        Err(refusal) => show_display("machine: ", &refusal, shown),
    }
    shown.end();
}

/// Shows the features of a file that are read.
pub(crate) fn show_features(bytes: &[u8], header: &FileHeader, shown: &mut Shown) {
    let Some(place) = header.feature_table() else {
        return;
    };
    let table = bytes_of(bytes, place.offset, place.size);
    match header.feature_in(table, ARCHITECTURE) {
        Ok(Some(place)) => show_machine(bytes_of(bytes, place.offset, place.size), shown),
        Ok(None) => {}
        Err(error) => {
            show_display("features: ", &error, shown);
            shown.end();
        }
    }
    if let Ok(Some(place)) = header.feature_in(table, BUILD_IDS) {
        show_build_ids(bytes_of(bytes, place.offset, place.size), shown);
    }
}
