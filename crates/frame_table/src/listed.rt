//! A section that is listed, and how.

use crate::names::Machine;
use dwarf_frame_entries::BaseAddresses;

/// A section, and how it is listed.
#[derive(Drop)]
pub(crate) struct Listed<'a, Section> {
    pub(crate) section: &'a Section,
    pub(crate) bases: &'a BaseAddresses,
    /// Whose names registers have.
    pub(crate) machine: Option<Machine>,
}
