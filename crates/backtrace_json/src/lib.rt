//! The text of a core's stacks, in the form that is asked for: lines, or one document of JSON (RFC 8259). Both are written part by part,
//! each frame by itself, so that no more than one is kept.
#![tactic(auto)]

mod forms;
mod frames;
mod headings;
mod threads;
mod values;
mod whole;

pub use forms::{
    TextForm, write_close, write_end_part, write_frame_part, write_heading_part, write_thread_part,
};
pub use whole::text_by_parts;
