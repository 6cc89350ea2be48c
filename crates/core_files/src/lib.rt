//! Linux core files: threads with their registers, mapped files, the auxiliary vector, and memory.
#![tactic(auto)]

mod auxv;
mod bytes;
mod core_file;
mod error;
mod lists;
mod mapped_files;
mod memory;
mod memory_range;
mod notes;
mod pac_mask;
mod process_info;
mod prstatus;
mod ranges;
mod registers;
mod segment_bytes;
mod segments;
mod signal_info;
mod thread;

pub use auxv::read_auxiliary;
pub use core_file::CoreFile;
pub use error::{CoreError, DescriptorError};
pub use mapped_files::{MappedFile, MappedFiles};
pub use memory::Memory;
pub use memory_range::MemoryRange;
pub use pac_mask::{PointerAuthenticationMasks, read_pac_mask};
pub use process_info::{ProcessInfo, read_process_info};
pub use prstatus::{Prstatus, read_prstatus_aarch64, read_prstatus_x86_64};
pub use registers::{ThreadRegisters, UserRegsAarch64, UserRegsX86_64};
pub use segment_bytes::SegmentBytes;
pub use signal_info::{SignalInfo, SignalOrigin, read_signal_info};
pub use thread::Thread;
