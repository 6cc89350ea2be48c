//! What an unwinder meets in the call frames of an ELF file, found in the list of its FDEs, and a line for each kind of finding.
//!
//! A file is read in place. What is listed of its entries, and the text, are allocated.
#![tactic(auto)]

mod entries;
mod fdes;
mod file;
mod file_rows;
mod gathered;
mod header_lines;
mod header_tables;
mod headers;
pub mod index_laws;
mod left_out;
mod lines;
mod overlap_laws;
mod overlaps;
mod row_lines;
mod rows;
mod sections;
pub mod truthful;

pub use fdes::{Code, Fault, ListedFde};
pub use file::{lint_text, write_lint};
pub use frame_table_files::FileError;
pub use header_lines::{push_header_fault, push_header_rows};
pub use header_tables::{
    HeaderFault, HeaderRow, LocatedFde, UnorderedRow, UntrueRow, located_fdes, rowless_fdes,
    unordered_rows, untrue_rows,
};
pub use left_out::{LeftOut, LeftOutCause, left_outs};
pub use lines::{Place, push_fault, push_left_outs, push_overlaps};
pub use overlap_laws::{overlaps_share_addresses, starts_in_order};
pub use overlaps::{Overlap, SpannedFde, overlaps_of};
pub use row_lines::{FailedFde, push_failed, push_unsaid};
