//! What compact unwind info says of a frame.

use std::fmt::Debug;

/// What compact unwind info says of a frame.
#[derive(Debug, Clone, Copy, PartialEq, Eq)]
pub enum CuiUnwindResult<R> {
    /// The rule to execute.
    ExecRule(R),
    /// The call frame information of the function says it: the offset of its entry in `__eh_frame`.
    NeedDwarf(u32),
}
