//! The modules of a process as `framehop` is told of them: their sections by name, what is taken of
//! them, and the numbers that lists of modules are told apart by.
#![tactic(auto)]

mod generations;
mod module_section_info;
mod module_sections;
mod pe_section_info;
mod section_bytes;

pub use generations::{Generations, GenerationsExhausted, LoadError};
pub use module_section_info::{ExplicitModuleSectionInfo, ModuleSectionInfo};
pub use module_sections::{BaseSvmas, ModuleSections, SectionData, text_section};
pub use pe_section_info::PeModuleSectionInfo;
pub use section_bytes::SectionBytes;
