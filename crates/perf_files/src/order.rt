//! Records in the order of time.

ghost use Rattle.std.specs.Prelude.{◌≡◌, OnOk, OnErr};
ghost use Rattle.std.specs.List.Sorted.{IsNonDecreasingBy, IsPermutation, IsStableByKey};
ghost use Rattle.std.specs.Ordering.{nat_cmp};
ghost use Rattle.perf_files.specs.Times.{sort_key, time_in};
ghost use Rattle.perf_files.specs.RecordViews.{record_seen};

use crate::attributes::Attributes;
use crate::error::FieldError;
use crate::fields::Fields;
use crate::record::{Record, RecordKind};
use crate::trailer::trailer_of;
use std::alloc::AllocError;

/// Where a record is, and where it comes in the order of time.
#[derive(Debug, Clone, Copy, PartialEq, Eq)]
pub struct RecordPlace {
    /// When it was made; 0 for those that come first.
    pub key: u64,
    /// Where it begins in the recording, in bytes.
    pub offset: u64,
}

// The time of records that perf made itself, for what was there before it.
const BEFORE_ALL: u64 = u64::MAX;

// A time for the order: 0 if there is none.
fn sort_key(time: Option<u64>) -> u64
    ensures { result ≡ sort_key time }
{
    match time {
        Some(BEFORE_ALL) => 0,
        Some(time) => time,
        None => 0,
    }
}

/// When a record was made, by the attributes of its event, in nanoseconds; none if it doesn't say. Fails if a field up to the time goes
/// past the end.
#[tactic(auto, unfolding(crate::specs::Times::time_in))]
pub fn time_of(found: &Record<'_>, attributes: &Attributes) -> Result<Option<u64>, FieldError>
    ensures { result ≡ time_in attributes.now (record_seen found.now) }
{
    if let RecordKind::Sample = found.kind {
        let mut fields = Fields {
            left: found.payload,
        };
        let head = fields.head(attributes)?;
        return Ok(head.time);
    }
    let trailer = trailer_of(found.payload, attributes)?;
    Ok(trailer.time)
}

impl RecordPlace {
    /// The place of the record at an offset, by its time. Records without a time, and those of before the recording, whose time is 0 or
    /// 2^64 - 1, come first.
    pub fn new(time: Option<u64>, offset: u64) -> Self
        ensures { result ≡ record { key = sort_key time; offset = offset } }
    {
        RecordPlace {
            key: sort_key(time),
            offset,
        }
    }
}

/// Puts places in the order of time; those of one time stay in their order. Fails if memory is refused, and then changes nothing.
pub fn sort_by_time(places: &mut Vec<RecordPlace>) -> Result<(), AllocError>
    ensures same { IsPermutation places.old.items places.new.items }
    ensures sorted { OnOk result (IsNonDecreasingBy (λ place. place.key) places.new.items) }
    ensures stable { OnOk result (IsStableByKey (λ place. place.key) nat_cmp places.old.items places.new.items) }
    ensures err { OnErr result (places.new.items ≡ places.old.items) }
{
    places.sort_by_key(|place| place.key)?;
    Ok(())
}
