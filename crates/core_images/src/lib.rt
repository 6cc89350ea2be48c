//! The bytes of a file that is mapped into the process of a core, as the core's memory has them.
#![tactic(auto)]

mod image;
mod mappings;
mod runs;

pub use image::file_image;
