//! The section of call frames of an ELF file, with the addresses that its pointers are relative to.
//!
//! A file is read in place. No function allocates.
#![tactic(auto)]

mod error;
mod section;
mod section_name;

pub use elf_files::Machine;
pub use error::FileError;
pub use section::{FileSection, section_of_file};
pub use section_name::SectionName;
