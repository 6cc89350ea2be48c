//! Steps by Apple's compact unwind info: the unwind rule of the function that contains an address, or the offset of its entry
//! in `__eh_frame` (compact_unwind_encoding.h).
//!
//! No function allocates.
#![tactic(auto)]

pub mod aarch64;
mod analysis;
mod cui_unwind_result;
mod macho;
mod sections;
mod unwinder;
pub mod x86_64;

pub use cui_unwind_result::CuiUnwindResult;
pub use framehop_code_rules::CodeRules;
pub use framehop_compact_tables::{CompactFormatError, Function};
pub use framehop_errors::CompactUnwindInfoUnwinderError;
pub use macho::CompactUnwindInfoUnwinding;
pub use sections::{CompactSections, Place, TextBytes};
pub use unwinder::CompactUnwindInfoUnwinder;
