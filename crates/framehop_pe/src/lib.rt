//! Windows' unwind data on x64: the function of an address in `.pdata`, and the step by its unwind info or its epilog, as
//! an unwind rule or by the return address (Microsoft, "x64 exception handling").
//!
//! No function allocates.
#![tactic(auto)]

mod aarch64;
mod laws;
mod pdata;
mod pe;
mod rules;
mod x86_64;

pub use framehop_errors::PeUnwinderError;
pub use framehop_pe_codes::{CodeRules, DataAtRvaRange, PeSections};
pub use laws::{rules_of_parts, rules_undo_one_by_one, rules_undo_prologs};
pub use pdata::{
    RuntimeFunction, pdata_is_increasing, pdata_lookup, pdata_lookup_increasing, pdata_row,
};
pub use pe::PeUnwinding;
