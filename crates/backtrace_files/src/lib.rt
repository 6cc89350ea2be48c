//! The files that are mapped into a process: where they are loaded, their sections for an unwinder, and what is at an address.
#![tactic(auto)]

mod build_ids;
mod code;
mod files;
mod loaded_file;
mod locations;
mod sections;
mod segments;

pub use build_ids::{build_id_of, has_other_build_id, is_debug_file_of};
pub use code::{LoadedCode, loaded_code};
pub use files::{GivenFile, process_files};
pub use loaded_file::{LoadedFile, memory_ranges};
pub use locations::{location_of, may_be_code_at};
pub use sections::FileSections;
