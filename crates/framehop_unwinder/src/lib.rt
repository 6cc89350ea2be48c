//! The step of a stack walk through a cache of rules, walks, and unwinders that share caches, on any
//! architecture and for all that modules are unwound by.
#![tactic(auto)]

mod cache;
mod ids;
mod iterator;
pub mod laws;
mod module;
mod numbered;
mod runs;
mod session;
mod session_iterator;
mod unwinder;
mod unwinders;
mod unwinding;

pub use cache::Cache;
pub use framehop_modules::{Generations, GenerationsExhausted, LoadError};
pub use framehop_rules::{
    Arch, CacheOccupancy, CacheStats, Error, FrameAddress, SlotCount, UnwindResult, UnwindRule,
};
pub use ids::{CacheId, StaleId, UnwinderId};
pub use iterator::{StackWalk, UnwindIterator};
pub use module::Module;
pub use runs::{Run, RunEnd};
pub use session::{AddUnwinderError, Session};
pub use session_iterator::SessionUnwindIterator;
pub use unwinder::UnwinderInternal;
pub use unwinders::Unwinder;
pub use unwinding::{ModuleUnwinding, UnwindFailure};
