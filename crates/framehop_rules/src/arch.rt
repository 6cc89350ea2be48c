//! What an architecture is made of.

use crate::unwind_rule::UnwindRule;
use std::fmt::Debug;

/// An architecture: its registers, and the rules that move them.
pub trait Arch {
    /// The registers that a step of a stack walk carries.
    type UnwindRegs: Copy + Debug;

    /// The unwind rules.
    type UnwindRule: UnwindRule<UnwindRegs = Self::UnwindRegs>;
}
