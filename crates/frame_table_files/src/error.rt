//! Why no section of a file is listed.

use crate::section_name::SectionName;
use elf_files::ElfError;
use thiserror::Error;

/// Why no section of a file is listed.
#[derive(Debug, Clone, Copy, PartialEq, Eq, Error)]
pub enum FileError {
    /// What is read of the file is refused.
    #[error("{0}")]
    Elf(ElfError),

    /// The file has no section with the name, or no bytes of it.
    #[error("no section {0}")]
    NoSection(SectionName),

    /// The file has no section of call frames, or no bytes of one.
    #[error("no section of call frames")]
    NoCallFrames,
}
