//! The constants, typed numbers and errors of DWARF call frames and sections.
#![tactic(auto)]

mod arch;
pub mod codes;
mod common;
pub mod constants;
mod error;

pub use arch::{AArch64, X86_64};
pub use common::{
    DebugTypeSignature, DwarfFileType, DwoId, Encoding, Format, LineEncoding, ReaderOffsetId,
    Register, SectionId, Vendor,
};
pub use constants::{DwCfa, DwChildren, DwEhPe, DwForm, DwOp};
pub use error::{Error, Result};
