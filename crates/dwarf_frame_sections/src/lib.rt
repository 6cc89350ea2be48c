//! The sections of call frames, `.eh_frame` (LSB 5.0, 10.6.1) and `.debug_frame` (DWARF 5, 6.4.1):
//! their data, and what they differ in.
#![tactic(auto)]

mod sections;

pub use sections::{DebugFrame, EhFrame};
