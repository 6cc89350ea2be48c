//! The folded stacks of a recording: from its records in the order of time, and the bytes of the files that it names, to the stacks of
//! its samples with how many samples have each.
#![tactic(auto)]

mod changes;
mod comms;
mod error;
mod files;
mod folding;
mod frames;
mod labels;
mod laws;
mod name_table;
mod names;
mod numbers;
mod order;
mod places;
mod processes;
mod samples;
mod selection;
mod taken;
mod totals;
mod walks;

pub use changes::change_of;
pub use error::FoldError;
pub use files::{RecordedFile, RecordedFiles, SampledFiles};
pub use folding::{Folding, RecordedEvents};
pub use laws::samples_are_counted;
pub use order::{StackParts, folded_stack};
pub use selection::{is_selected, weight_of};
pub use taken::{CountedSample, Taken};
pub use totals::FoldTotals;
