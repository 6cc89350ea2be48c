//! The recordings of Linux perf, `perf.data`: attributes, features, and records with their samples.
#![tactic(auto)]

mod attributes;
mod bytes;
mod chain;
mod command;
mod error;
mod event;
mod feature;
mod field;
mod fields;
mod header;
mod mapping;
mod order;
mod record;
mod registers;
mod sample;
mod sample_head;
mod section;
mod trailer;
mod words;

pub use attributes::{AttributeEntry, Attributes};
pub use chain::{ChainFrame, Context, push_frames};
pub use command::{Command, Task, lost_of};
pub use error::{EventError, FeatureError, FieldError, HeaderError, RecordError};
pub use event::{Event, event_of};
pub use feature::{Architecture, FileBuildId, architecture_in};
pub use field::{Field, SampleField};
pub use fields::ThreadId;
pub use header::{FileHeader, PerfHeader, read_header};
pub use mapping::Mapping;
pub use order::{RecordPlace, sort_by_time, time_of};
pub use record::{Record, RecordKind, head_at, record_at};
pub use registers::{RegisterAbi, SavedRegisters, WalkStart};
pub use sample::Sample;
pub use sample_head::{SampleHead, Trailer};
pub use section::Section;
pub use trailer::trailer_of;
pub use words::Words;
