//! The rows by which steps go that are taken whole.

use dwarf_constants::Register;
use dwarf_frame_rows::{RegisterRule, RuledRegister, UnwindTableRow};
use dwarf_storage::ArrayLike;

/// A row of a section of these bytes, and the register of the return address, as the row's CIE names it.
#[derive(Drop)]
pub struct FoundRow<'a, Rules: ArrayLike<Item = RuledRegister<RegisterRule<usize>>>> {
    /// The bytes of the section.
    pub section: &'a [u8],
    /// The row.
    pub row: &'a UnwindTableRow<usize, Rules>,
    /// The register of the return address.
    pub column: Register,
}
