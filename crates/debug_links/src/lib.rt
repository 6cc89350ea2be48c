//! Links of ELF files to their debug files, which have their symbols (GDB, "Debugging Information in Separate Files"): what a link says, and
//! where the debug file may be.
#![tactic(auto)]

mod checksum;
mod link;
mod paths;

pub use checksum::checksum_of;
pub use link::{DebugLink, debug_link_of};
pub use paths::linked_paths;
