//! Steps by rows of call frames: the unwind rule that says a row exactly, or else the caller that the row
//! gives by itself, on each architecture.
#![tactic(auto)]

pub mod aarch64;
mod dwarf;
mod evaluation;
mod row_rules;
mod rows;
mod rule_fields;
pub mod x86_64;

pub use dwarf::DwarfUnwinding;
pub use dwarf_frame_parts::Parts;
pub use evaluation::{DwarfUnwindRegs, eval_cfa_rule, eval_register_rule};
pub use row_rules::RowRules;
