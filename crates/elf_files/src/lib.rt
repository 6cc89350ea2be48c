//! ELF files of 64 bits whose least significant bytes come first, on x86_64 and aarch64 (System V gABI, "Object Files").
//!
//! A file is read in place. No function allocates.
#![tactic(auto)]

mod build_id;
mod bytes;
mod error;
mod file;
mod header;
mod note;
mod prefix_laws;
mod section;
mod section_table;
mod sections;
mod segment;
mod segment_table;
mod strings;
mod symbol;

pub use error::ElfError;
pub use file::ElfFile;
pub use header::{FileKind, Header, Machine};
pub use note::{Note, Notes};
pub use prefix_laws::first_bytes_say;
pub use section::{Section, SectionKind};
pub use segment::{Segment, SegmentKind};
pub use symbol::{Symbol, SymbolKind};
