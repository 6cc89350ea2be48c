//! Records.

ghost use Rattle.std.specs.Prelude.{◌≡◌, ◌≤◌, length, take};
ghost use Rattle.perf_files.specs.Records.{data_behind, head_at, kind_of, record_at, record_from};
ghost use Rattle.perf_files.specs.RecordViews.{record_and_size, record_seen};

use crate::bytes::{u16_at, u32_at};
use crate::error::{FieldError, RecordError};
use crate::field::Field;
use crate::fields::Fields;

/// What a record is (`PERF_RECORD_*`).
#[derive(Debug, Clone, Copy, PartialEq, Eq)]
pub enum RecordKind {
    /// `PERF_RECORD_MMAP`.
    Mapping,
    /// `PERF_RECORD_LOST`.
    Lost,
    /// `PERF_RECORD_COMM`.
    Command,
    /// `PERF_RECORD_EXIT`.
    Exit,
    /// `PERF_RECORD_FORK`.
    Fork,
    /// `PERF_RECORD_SAMPLE`.
    Sample,
    /// `PERF_RECORD_MMAP2`.
    Mapping2,
    /// `PERF_RECORD_LOST_SAMPLES`.
    LostSamples,
    /// `PERF_RECORD_HEADER_ATTR`, of a pipe.
    Attributes,
    /// `PERF_RECORD_HEADER_TRACING_DATA`, which data follow.
    TracingData,
    /// `PERF_RECORD_HEADER_BUILD_ID`.
    BuildId,
    /// `PERF_RECORD_AUXTRACE`, which data follow.
    AuxTrace,
    /// `PERF_RECORD_HEADER_FEATURE`, of a pipe.
    Feature,
    /// `PERF_RECORD_COMPRESSED` or `PERF_RECORD_COMPRESSED2`, which has other records.
    Compressed,
    /// Any other record of the kernel: its number is below 64.
    OtherOfKernel(u32),
    /// Any other record of perf.
    OtherOfPerf(u32),
}

/// A record.
#[derive(Debug, Clone, Copy, PartialEq, Eq)]
pub struct Record<'a> {
    /// Where it begins in the recording, in bytes.
    pub offset: u64,
    /// What it is.
    pub kind: RecordKind,
    /// Bits that each kind gives its own meaning (`PERF_RECORD_MISC_*`).
    pub misc: u16,
    /// Its bytes after the header.
    pub payload: &'a [u8],
}

const HEADER_SIZE: usize = 8;

// What a record is, by a number.
fn kind_of(number: u32) -> RecordKind
    ensures { result ≡ kind_of number }
{
    match number {
        1 => RecordKind::Mapping,
        2 => RecordKind::Lost,
        3 => RecordKind::Command,
        4 => RecordKind::Exit,
        7 => RecordKind::Fork,
        9 => RecordKind::Sample,
        10 => RecordKind::Mapping2,
        13 => RecordKind::LostSamples,
        64 => RecordKind::Attributes,
        66 => RecordKind::TracingData,
        67 => RecordKind::BuildId,
        71 => RecordKind::AuxTrace,
        80 => RecordKind::Feature,
        81 => RecordKind::Compressed,
        83 => RecordKind::Compressed,
        number if number < 64 => RecordKind::OtherOfKernel(number),
        number => RecordKind::OtherOfPerf(number),
    }
}

// How many bytes of data follow a record that aren't records.
#[tactic(auto, unfolding(crate::specs::Records::data_behind))]
fn data_behind(kind: RecordKind, payload: &[u8]) -> Result<u64, FieldError>
    ensures { result ≡ data_behind kind payload.now }
{
    let mut fields = Fields { left: payload };
    match kind {
        RecordKind::TracingData => {
            let size = fields.half(Field::DataSize)?;
            Ok(u64::from(size).next_multiple_of(8))
        }
        RecordKind::AuxTrace => fields.word(Field::DataSize),
        _ => Ok(0),
    }
}

// So many of some bytes, or all.
fn first_bytes(bytes: &[u8], size: usize) -> &[u8]
    ensures { result.now ≡ take size bytes.now }
{
    if size < bytes.len() {
        &bytes[..size]
    } else {
        bytes
    }
}

// What some bytes have of the record that they begin with, which has this size.
fn record_from(bytes: &[u8], offset: u64, size: usize) -> Record<'_>
    requires header { 8 ≤ size }
    requires some { 8 ≤ length bytes.now }
    ensures { record_seen result ≡ record_from bytes.now offset size }
{
    let record = first_bytes(bytes, size);
    Record {
        offset,
        kind: kind_of(u32_at(bytes, 0)),
        misc: u16_at(bytes, 4),
        payload: &record[HEADER_SIZE..],
    }
}

/// What some bytes have of the record that they begin with, and the record's size in bytes; none if they are fewer than its header has.
/// `offset` says where they begin in the recording. Fails if the size isn't one.
#[inline]
pub fn head_at(bytes: &[u8], offset: u64) -> Result<Option<(Record<'_>, usize)>, RecordError>
    ensures { record_and_size result ≡ head_at bytes.now offset }
{
    if bytes.len() < HEADER_SIZE {
        return Ok(None);
    }
    let size = usize::from(u16_at(bytes, 6));
    if size < HEADER_SIZE {
        return Err(RecordError::TooSmall { offset });
    }
    Ok(Some((record_from(bytes, offset, size), size)))
}

/// The record that some bytes begin with, and how far behind its beginning the next one begins, in bytes; none if the bytes end before
/// the record does. `offset` says where they begin in the recording. Fails if the size of the record isn't one, or if the size of the
/// data that follow it can't be read or is too large; after that no record is found.
#[tactic(auto, unfolding(crate::specs::Records::record_at))]
pub fn record_at(bytes: &[u8], offset: u64) -> Result<Option<(Record<'_>, u64)>, RecordError>
    ensures { record_and_size result ≡ record_at bytes.now offset }
{
    let (record, size) = match head_at(bytes, offset) {
        Ok(Some(head)) => head,
        Ok(None) => return Ok(None),
        Err(error) => return Err(error),
    };
    if bytes.len() < size {
        return Ok(None);
    }
    match data_behind(record.kind, record.payload) {
        Ok(behind) => match behind.checked_add(size as u64) {
            Some(all) => Ok(Some((record, all))),
            None => Err(RecordError::DataTooLarge { offset }),
        },
        Err(error) => Err(RecordError::Unreadable { offset, error }),
    }
}
