//! Modules with what they are unwound by: what a load makes of a module's sections, and where a module's call frames have the FDE for an
//! address.
#![tactic(auto)]

mod call_frames;
mod code;
mod compact;
mod context;
mod load_options;
mod module;
mod pe;
mod policies;
mod relative;
mod tabulation;
mod unwind_data;
mod unwind_kind;

pub use call_frames::{CallFrames, fde_beside};
pub use compact::CompactModule;
pub use context::DwarfUnwindContext;
pub use load_options::{FdeLookup, LoadOptions, Rows, TableArch};
pub use module::{Module, load_module};
pub use pe::PeModule;
pub use policies::{
    AllocationPolicy, MayAllocateDuringUnwind, MustNotAllocateDuringUnwind, StoreOnStack,
    StoreRowsOnHeap, policies_set_limits,
};
pub use tabulation::{ArchRuleTable, Tabulating};
pub use unwind_data::{ModuleFormat, ModuleUnwindData};
pub use unwind_kind::{LeftOut, UnwindDataKind};
