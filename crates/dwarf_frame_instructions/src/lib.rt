//! Programs of call frame instructions (DWARF 5, 6.4.2 and 6.4.3): the instructions in their bytes, and
//! what each does to a row.
#![tactic(auto)]

mod effects;
mod expression_laws;
mod instructions;
mod row_laws;
mod rows;

pub use effects::Factors;
pub use expression_laws::expressions_have_their_bytes;
pub use instructions::{CallFrameInstruction, CallFrameInstructionIter, Coding};
pub use row_laws::{each_address_has_one_row, each_rule_is_seen_alike};
pub use rows::{FrameProgram, ProgramRows, row_for_address};
