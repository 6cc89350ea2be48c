//! Tables of the unwind rules that the rows of a section of call frames are, by relative address: a look-up parses nothing.
#![tactic(auto)]

mod covered;
mod entry;
mod fdes;
mod kept;
mod parts_rows;
mod rows;
mod rule_table;
mod same_rule;
mod spans;
pub mod table_laws;

pub use covered::Covered;
pub use kept::{KeptAarch64, KeptX86_64};
pub use rule_table::{RuleLookup, RuleTable};
pub use same_rule::{KeptRule, SameRule};
