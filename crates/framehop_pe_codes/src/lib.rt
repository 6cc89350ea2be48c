//! Unwind infos and epilogs of Windows on x64: reading them from the sections of a PE file, and the machine that undoes
//! a prolog code by code or runs what is left of an epilog (Microsoft, "x64 exception handling").
//!
//! No function allocates.
#![tactic(auto)]

mod chain;
mod code;
mod ends;
mod epilog;
mod epilog_run;
mod info;
mod laws;
mod listing;
mod machine;
mod operation;
mod run;
mod sections;

pub use chain::CodesLeft;
pub use code::{read_code, u32_at};
pub use ends::{EpilogEnds, RowCode};
pub use epilog::{Epilog, SpAdjustment, read_epilog};
pub use epilog_run::{next_popped, unwind_by_epilog};
pub use framehop_code_rules::CodeRules;
pub use info::{UnwindInfo, read_info};
pub use laws::epilogs_are_read_as_spelled;
pub use listing::{PrologCodes, first_info, read_chain, unwind_by_codes};
pub use machine::FrameBase;
pub use operation::{UnwindCode, UnwindOperation};
pub use sections::{DataAtRvaRange, PeSections};
