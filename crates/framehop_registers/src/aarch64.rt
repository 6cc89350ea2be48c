//! The registers of aarch64.

mod unwindregs;

pub use unwindregs::{PtrAuthMask, UnwindRegsAarch64};
