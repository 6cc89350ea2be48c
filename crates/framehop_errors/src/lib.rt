//! Why a module's unwind data gives no rule and no caller for an address: the inner errors of a step.
#![tactic(auto)]

mod cfi_index;
mod compact;
mod compact_format;
mod dwarf;
mod pe;
mod unwinder;

pub use cfi_index::DwarfCfiIndexError;
pub use compact::CompactUnwindInfoUnwinderError;
pub use compact_format::CompactFormatError;
pub use dwarf::DwarfUnwinderError;
pub use pe::PeUnwinderError;
pub use unwinder::UnwinderError;
