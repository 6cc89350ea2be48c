//! What unwind information says of a frame.

use std::fmt::Debug;

/// What unwind information says of a frame.
#[derive(Debug, Clone, Copy, PartialEq, Eq)]
pub enum UnwindResult<R> {
    /// The rule to execute. It is kept.
    ExecRule(R),
    /// The return address; the registers are the caller's already. It is not kept.
    Uncacheable(u64),
}
