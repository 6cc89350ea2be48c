//! Tables of values for the addresses of 32 bits, which change at few of them: how they are built, and how the value at an
//! address is found.
#![tactic(auto)]

mod blocks;
mod entry;
mod range_table;
mod ranges;
mod same;

pub use range_table::{RangeLookup, RangeTable};
pub use ranges::Ranges;
pub use same::SameValue;
