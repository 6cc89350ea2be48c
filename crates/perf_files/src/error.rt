//! Why parts of a recording can't be read.

use crate::field::Field;
use thiserror::Error;

/// Why the fields of a record, an attribute or a feature can't be read.
#[derive(Debug, Clone, Copy, PartialEq, Eq, Error)]
pub enum FieldError {
    /// This field goes past the end of what has it.
    #[error("{0} goes past the end")]
    PastEnd(Field),

    /// More bytes of the stack were copied (`dyn_size`) than the sample has room for (`size`).
    #[error("more bytes of the stack than there is room for")]
    StackTooLarge,

    /// The members of the attributes have another size than there is room for, or a smaller one than the first version's.
    #[error("attributes of an unexpected size")]
    AttributesSize,

    /// Samples have fields that aren't known, so that no field can be found.
    #[error("samples of unknown fields")]
    UnknownSampleType,
}

/// Why no record can be read, with the place of the record: an offset in the recording, in bytes.
#[derive(Debug, Clone, Copy, PartialEq, Eq, Error)]
pub enum RecordError {
    /// Its size is less than its header's.
    #[error("record of less than 8 bytes (at offset 0x{offset:x})")]
    TooSmall {
        /// Where it begins.
        offset: u64,
    },

    /// The data that follow it have a size that isn't below 2^64 bytes.
    #[error("record with too many data (at offset 0x{offset:x})")]
    DataTooLarge {
        /// Where it begins.
        offset: u64,
    },

    /// A field of it can't be read.
    #[error("{error} (at offset 0x{offset:x})")]
    Unreadable {
        /// Where the record begins.
        offset: u64,
        /// Why.
        error: FieldError,
    },
}

/// Why the header of a recording is refused, with the place: an offset in the recording, in bytes.
#[derive(Debug, Clone, Copy, PartialEq, Eq, Error)]
pub enum HeaderError {
    /// It doesn't begin with `PERFILE2`.
    #[error("not a recording of perf (at offset 0x{offset:x})")]
    NotPerfData {
        /// 0.
        offset: u64,
    },

    /// The most significant bytes of its numbers come first.
    #[error("recorded in the other byte order (at offset 0x{offset:x})")]
    OtherByteOrder {
        /// 0.
        offset: u64,
    },

    /// The file ends before the header does.
    #[error("the file ends within its header (at offset 0x{offset:x})")]
    Truncated {
        /// 0.
        offset: u64,
    },

    /// The header is neither of 16 bytes, as a pipe's, nor of 104 or more.
    #[error("header of an unexpected size (at offset 0x{offset:x})")]
    HeaderSize {
        /// Where its size is.
        offset: u64,
    },

    /// Entries with attributes have no room for those of the first version and for where their ids are.
    #[error("attributes of an unexpected size (at offset 0x{offset:x})")]
    AttributeSize {
        /// Where their size is.
        offset: u64,
    },

    /// The records are in other files of a directory.
    #[error("records in a directory (at offset 0x{offset:x})")]
    Directory {
        /// Where the features are.
        offset: u64,
    },
}

/// Why it isn't known which event a record is of.
#[derive(Debug, Clone, Copy, PartialEq, Eq, Error)]
pub enum EventError {
    /// The recording has no attributes of an event.
    #[error("no event")]
    NoEvent,

    /// The records of several events are laid out differently, and don't say which they are of.
    #[error("records of several layouts without an identifier")]
    MixedLayouts,

    /// No event has this id.
    #[error("no event with the id {0}")]
    UnknownId(u64),

    /// The record ends before its identifier does.
    #[error("{0}")]
    Unreadable(FieldError),
}

/// Why a feature can't be read.
#[derive(Debug, Clone, Copy, PartialEq, Eq, Error)]
pub enum FeatureError {
    /// The recording is of another machine than x86_64 and aarch64.
    #[error("unsupported machine")]
    UnsupportedArchitecture,

    /// A field goes past the end.
    #[error("{0}")]
    Unreadable(FieldError),
}
