//! Why a core file can't be read.

ghost use Rattle.std.specs.Prelude.{◌≡◌};
ghost use Rattle.core_files.specs.declared.error.CoreError.TheVariants.{OutOfMemory, Elf};

use elf_files::ElfError;
use std::alloc::AllocError;
use thiserror::Error;

/// Why the descriptor of a note can't be read. Files of `NT_FILE` are numbered from 0.
#[derive(Debug, Clone, Copy, PartialEq, Eq, Error)]
pub enum DescriptorError {
    /// An `NT_PRSTATUS` hasn't the size of the architecture's `struct elf_prstatus`.
    #[error("NT_PRSTATUS of an unexpected size")]
    PrstatusSize,

    /// An `NT_ARM_PAC_MASK` hasn't the 16 bytes of `struct user_pac_mask`.
    #[error("NT_ARM_PAC_MASK of an unexpected size")]
    PacMaskSize,

    /// The count, the page size or the rows of an `NT_FILE` go past its end.
    #[error("NT_FILE ends within its rows")]
    FileTableTruncated,

    /// The file with this number has no name that a 0 ends.
    #[error("NT_FILE ends within the name of file {0}")]
    FileNameUnterminated(u64),

    /// The file with this number is mapped from an offset that isn't below 2^64 bytes.
    #[error("NT_FILE has an offset of file {0} that isn't below 2^64 bytes")]
    FileOffsetTooLarge(u64),
}

/// Why a core file can't be read. Notes are numbered from 0, in the order of the program headers.
#[derive(Debug, Clone, Copy, PartialEq, Eq, Error)]
pub enum CoreError {
    /// Out of memory for the lists of segments, notes, threads and mapped files.
    #[error("out of memory")]
    OutOfMemory,

    /// It isn't an ELF file that can be read, or its segments or notes aren't whole.
    #[error("{0}")]
    Elf(ElfError),

    /// It isn't a core file (`e_type`, at offset 16, isn't `ET_CORE`).
    #[error("not a core file (at offset 0x10)")]
    NotCore,

    /// The descriptor of the note with this number can't be read.
    #[error("note {0}: {1}")]
    Descriptor(u64, DescriptorError),
}

impl From<AllocError> for CoreError {
    ghost from_gives = { λ error result. result ≡ OutOfMemory };

    fn from(_error: AllocError) -> Self {
        CoreError::OutOfMemory
    }
}

impl From<ElfError> for CoreError {
    ghost from_gives = { λ error result. result ≡ Elf error };

    fn from(error: ElfError) -> Self {
        CoreError::Elf(error)
    }
}
