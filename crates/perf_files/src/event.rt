//! Which event a record is of.

ghost use Rattle.std.specs.Prelude.{◌≡◌, position};
ghost use Rattle.perf_files.specs.Events.{all_alike, all_identified, event_by_id, event_of, has_id, has_identifier, identified, is_laid_out_as, record_id, says_event};
ghost use Rattle.perf_files.specs.RecordViews.{record_seen};

use crate::attributes::Attributes;
use crate::bytes::u64_at;
use crate::error::{EventError, FieldError};
use crate::field::{Field, SampleField};
use crate::fields::Fields;
use crate::record::{Record, RecordKind};

/// An event of a recording: its attributes, and the ids that its records have.
#[derive(Debug, Drop)]
pub struct Event {
    /// The attributes.
    pub attributes: Attributes,
    /// The ids.
    pub ids: Vec<u64>,
}

// Whether records are laid out by one's attributes as by another's.
fn is_laid_out_as(attributes: &Attributes, other: &Attributes) -> bool
    ensures { result ≡ is_laid_out_as attributes.now other.now }
{
    attributes.sample_type == other.sample_type
        && attributes.read_format == other.read_format
        && attributes.branch_sample_type == other.branch_sample_type
        && attributes.user_registers == other.user_registers
        && attributes.interrupt_registers == other.interrupt_registers
        && attributes.sample_id_all() == other.sample_id_all()
}

// Whether an event has an id.
fn has_id(event: &Event, id: u64) -> bool
    ensures { result ≡ has_id id event.now }
{
    event.ids.as_slice().contains(&id)
}

// The index of the first event with an id.
fn index_of(events: &[Event], id: u64) -> Option<usize>
    ensures { result ≡ position (has_id id) events.now }
{
    events.iter().position(|event| has_id(event, id))
}

// The index of the event with an id; 0, which perf gives records that it made itself, is the first's.
fn event_by_id(events: &[Event], id: u64) -> Result<usize, EventError>
    ensures { result ≡ event_by_id events.now id }
{
    if id == 0 {
        return Ok(0);
    }
    match index_of(events, id) {
        Some(index) => Ok(index),
        None => Err(EventError::UnknownId(id)),
    }
}

// The identifier of a record, which is the first field of a sample and the last of another record.
#[tactic(auto, unfolding(crate::specs::Events::record_id))]
fn record_id(found: &Record<'_>) -> Result<u64, FieldError>
    ensures { result ≡ record_id (record_seen found.now) }
{
    let payload = found.payload;
    if let RecordKind::Sample = found.kind {
        let mut fields = Fields { left: payload };
        return fields.word(Field::Sample(SampleField::Identifier));
    }
    if payload.len() < 8 {
        return Err(FieldError::PastEnd(Field::Trailer));
    }
    Ok(u64_at(payload, payload.len() - 8))
}

// The index of the event of a record that has an identifier.
fn identified(events: &[Event], found: &Record<'_>) -> Result<usize, EventError>
    ensures { result ≡ identified events.now (record_seen found.now) }
{
    match record_id(found) {
        Ok(id) => event_by_id(events, id),
        Err(error) => Err(EventError::Unreadable(error)),
    }
}

// Whether all events' records have an identifier.
fn all_identified(events: &[Event]) -> bool
    ensures { result ≡ all_identified events.now }
{
    events
        .iter()
        .all(|event| event.attributes.has(SampleField::Identifier))
}

// Whether all events' records are laid out alike.
fn all_alike(events: &[Event], first: &Attributes) -> bool
    ensures { result ≡ all_alike events.now first.now }
{
    events
        .iter()
        .all(|event| is_laid_out_as(&event.attributes, first))
}

// Whether a record says which event it is of.
fn says_event(found: &Record<'_>, first: &Attributes) -> bool
    ensures { result ≡ says_event (record_seen found.now) first.now }
{
    matches!(found.kind, RecordKind::Sample) || first.sample_id_all()
}

/// The index of the event that a record of the kernel is of: by its identifier if the records of all events have one, and else any, if
/// all are laid out alike. Fails if there is no event, if records of several layouts have no identifier, if a record's can't be read,
/// or if no event has it.
pub fn event_of(events: &[Event], found: &Record<'_>) -> Result<usize, EventError>
    ensures { result ≡ event_of events.now (record_seen found.now) }
{
    match events {
        [] => Err(EventError::NoEvent),
        [_one] => Ok(0),
        [first, ..] => {
            if !all_identified(events) {
                if all_alike(events, &first.attributes) {
                    return Ok(0);
                }
                return Err(EventError::MixedLayouts);
            }
            if !says_event(found, &first.attributes) {
                return Ok(0);
            }
            identified(events, found)
        }
    }
}
