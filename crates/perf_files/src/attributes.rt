//! The attributes of an event.

ghost use Rattle.std.specs.Prelude.{◌≡◌, ◌≤◌, ◌+◌, length, OnOk};
ghost use Rattle.perf_files.specs.Attributes.{attributes_and_ids, attributes_from, attributes_of, entry_of, has_field, has_weight, member, own_size, sample_id_all};

use crate::bytes::{u32_at, u64_at};
use crate::error::FieldError;
use crate::field::{Field, SampleField};
use crate::section::{Section, section_at};
use crate::words::Words;

/// The attributes of an event (`struct perf_event_attr`), as far as records are read by them.
#[derive(Debug, Clone, Copy, PartialEq, Eq)]
pub struct Attributes {
    /// The event's type (`PERF_TYPE_*`).
    pub kind: u32,
    /// Which event of the type it is.
    pub config: u64,
    /// After how many of the events a sample is taken, or how many samples are taken a second.
    pub period: u64,
    /// Which fields a sample has.
    pub sample_type: u64,
    /// Which values of a counter are read (`PERF_FORMAT_*`).
    pub read_format: u64,
    /// The flags, from the lowest bit on.
    pub flags: u64,
    /// What the entries of a branch stack are (`PERF_SAMPLE_BRANCH_*`).
    pub branch_sample_type: u64,
    /// Which registers of user code a sample has, by the kernel's numbers (`PERF_REG_*`).
    pub user_registers: u64,
    /// How many bytes of the user's stack a sample has room for.
    pub user_stack: u32,
    /// Which registers a sample has of where it was taken.
    pub interrupt_registers: u64,
}

/// The entry of an event in a file: its attributes, and where its ids are.
#[derive(Debug, Clone, Copy, PartialEq, Eq)]
pub struct AttributeEntry {
    /// The attributes.
    pub attributes: Attributes,
    /// The ids, of 8 bytes each.
    pub ids: Section,
}

// The size of the first version of the attributes, which a size of 0 stands for too.
const FIRST_SIZE: usize = 64;

// How much an entry has behind the attributes.
const IDS_SIZE: usize = 16;

// The number above all known bits of `sample_type`.
const UNKNOWN_FIELDS: u64 = 0x200_0000;

const WEIGHT: u64 = 0x4000;

const WEIGHT_STRUCT: u64 = 0x100_0000;

const SAMPLE_ID_ALL: u64 = 0x4_0000;

// The size of the attributes that some bytes begin with, in bytes.
fn own_size(bytes: &[u8]) -> usize
    requires { 64 ≤ length bytes.now }
    ensures { result ≡ own_size bytes.now }
{
    match u32_at(bytes, 4) {
        0 => FIRST_SIZE,
        size => size as usize,
    }
}

// A member of 32 bits; 0 if attributes of this size are without it.
fn member_32(bytes: &[u8], size: usize, at: usize) -> u32
    requires whole { size ≤ length bytes.now }
    requires near { at ≤ 1000 }
    ensures { result ≡ member 4 bytes.now size at }
{
    if size < at + 4 { 0 } else { u32_at(bytes, at) }
}

// A member of 64 bits, likewise.
fn member_64(bytes: &[u8], size: usize, at: usize) -> u64
    requires whole { size ≤ length bytes.now }
    requires near { at ≤ 1000 }
    ensures { result ≡ member 8 bytes.now size at }
{
    if size < at + 8 { 0 } else { u64_at(bytes, at) }
}

// The attributes of this size that some bytes begin with.
#[tactic(auto, unfolding(crate::specs::Attributes::attributes_from))]
fn attributes_from(bytes: &[u8], size: usize) -> Attributes
    requires { size ≤ length bytes.now }
    ensures { result ≡ attributes_from bytes.now size }
{
    Attributes {
        kind: member_32(bytes, size, 0),
        config: member_64(bytes, size, 8),
        period: member_64(bytes, size, 16),
        sample_type: member_64(bytes, size, 24),
        read_format: member_64(bytes, size, 32),
        flags: member_64(bytes, size, 40),
        branch_sample_type: member_64(bytes, size, 72),
        user_registers: member_64(bytes, size, 80),
        user_stack: member_32(bytes, size, 88),
        interrupt_registers: member_64(bytes, size, 96),
    }
}

impl AttributeEntry {
    /// The entry in some bytes, which are all of it: where its ids are is in the last 16. Fails as `Attributes::parse` does.
    #[tactic(auto, unfolding(crate::specs::Attributes::entry_of))]
    pub fn parse(entry: &[u8]) -> Result<Self, FieldError>
        ensures { result ≡ entry_of entry.now }
    {
        if entry.len() < IDS_SIZE {
            return Err(FieldError::PastEnd(Field::Ids));
        }
        let size = entry.len() - IDS_SIZE;
        let attributes = Attributes::parse(&entry[..size])?;
        Ok(AttributeEntry {
            attributes,
            ids: section_at(entry, size),
        })
    }
}

impl Attributes {
    /// The attributes that some bytes begin with. Members that the recording's version doesn't have are 0, and those that aren't known
    /// are passed over. Fails if the bytes end before the first version's 64 bytes or before the size that the attributes say, if
    /// that is less than 64, or if samples have fields that aren't known.
    #[tactic(auto, unfolding(crate::specs::Attributes::attributes_of))]
    pub fn parse(bytes: &[u8]) -> Result<Self, FieldError>
        ensures attributes { result ≡ attributes_of bytes.now }
        ensures whole { OnOk result (own_size bytes.now ≤ length bytes.now) }
        ensures first { OnOk result (64 ≤ length bytes.now) }
    {
        if bytes.len() < FIRST_SIZE {
            return Err(FieldError::PastEnd(Field::Attributes));
        }
        let size = own_size(bytes);
        if size < FIRST_SIZE || size > bytes.len() {
            return Err(FieldError::AttributesSize);
        }
        let attributes = attributes_from(bytes, size);
        if attributes.sample_type >= UNKNOWN_FIELDS {
            return Err(FieldError::UnknownSampleType);
        }
        Ok(attributes)
    }

    /// The attributes and the ids in the payload of a record of a pipe (`PERF_RECORD_HEADER_ATTR`). Fails as `parse` does.
    #[tactic(auto, unfolding(crate::specs::Attributes::attributes_and_ids))]
    pub fn parse_with_ids(payload: &[u8]) -> Result<(Self, Words<'_>), FieldError>
        ensures { result ≡ attributes_and_ids payload.now }
    {
        let attributes = Attributes::parse(payload)?;
        let size = own_size(payload);
        Ok((attributes, Words::new(&payload[size..])))
    }

    /// Whether samples have a field.
    #[tactic(auto, unfolding(crate::specs::Attributes::has_field))]
    pub fn has(&self, field: SampleField) -> bool
        ensures { result ≡ has_field self.now field }
    {
        self.sample_type / field.bit() % 2 == 1
    }

    // Whether samples have a weight.
    #[tactic(auto, unfolding(crate::specs::Attributes::has_weight))]
    pub(crate) fn has_weight(&self) -> bool
        ensures { result ≡ has_weight self.now }
    {
        self.sample_type / WEIGHT % 2 == 1 || self.sample_type / WEIGHT_STRUCT % 2 == 1
    }

    /// Whether records that aren't samples end in who made them and when.
    pub fn sample_id_all(&self) -> bool
        ensures { result ≡ sample_id_all self.now }
    {
        self.flags / SAMPLE_ID_ALL % 2 == 1
    }
}
