//! Regular files that may be ELF files, as the system gives them: their bytes, and paths by build ids.
#![tactic(auto)]

mod bytes;
mod paths;

pub use bytes::{elf_bytes, first_bytes};
pub use paths::build_id_path;
