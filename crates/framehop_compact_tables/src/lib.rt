//! The tables of Apple's compact unwind info (`__unwind_info`): which function contains an address, and its encoding.
//!
//! A lookup reads the section's bytes in place. No function allocates.
#![tactic(auto)]

mod bytes;
mod function;
mod increasing;
mod index;
mod lookup;
mod page;
mod page_entries;
mod search;

pub use bytes::u32_at;
pub use framehop_errors::CompactFormatError;
pub use function::Function;
pub use increasing::is_increasing;
pub use lookup::UnwindInfo;
pub use page::Page;
