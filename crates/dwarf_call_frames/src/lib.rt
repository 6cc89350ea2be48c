//! Call frame information (DWARF 5, 6.4; LSB 5.0, 10.6), over any reader: all that its users name.
//!
//! - Sections: [`EhFrame`] and [`DebugFrame`], which are both an [`UnwindSection`], and the
//!   [`BaseAddresses`] to which their pointers are relative.
//! - Entries: [`CommonInformationEntry`] with its [`Augmentation`], and [`FrameDescriptionEntry`].
//!   A section lists them by `entries`, and has them by offset or by address.
//! - Rows: an FDE gives its [`UnwindTable`], or the [`UnwindTableRow`] for an address, which is
//!   worked out in an [`UnwindContext`]. A row has a [`CfaRule`] and a [`RegisterRule`] for each
//!   register. [`CallFrameInstructionIter`] lists the instructions of an entry.
//! - The lookup table: [`EhFrameHdr`], the section `.eh_frame_hdr`, by which the FDE for an address
//!   is found without reading the others.
//! - Laws, functions whose contracts are theorems and which do nothing when the program runs: where
//!   entries are, which row is for an address, what lookups find ([`search`], [`truthful`]).
#![tactic(auto)]

mod fde;
mod header;
mod iter;
mod linked;
mod rows;
pub mod search;
mod table;
pub mod truthful;

pub use dwarf_frame_entries::{
    Augmentation, CfiEntriesIter, CieOrFde, CommonInformationEntry, Entry, FrameDescriptionEntry,
    PartialFrameDescriptionEntry, UnwindSection, UnwindTable, each_address_of_an_fde_has_one_row,
    listed_entries_stand_at_their_offsets, listed_fdes_are_of_their_section,
    listed_fdes_stand_at_their_offsets, lookups_agree_if_fdes_are_read, lookups_never_want_memory,
    sections_have_no_more_entries_than_bytes,
};
pub use dwarf_frame_instructions::{
    CallFrameInstruction, CallFrameInstructionIter, Factors, FrameProgram,
    each_address_has_one_row, each_rule_is_seen_alike, expressions_have_their_bytes,
};
pub use dwarf_frame_rows::{
    _UnwindSectionPrivate, BaseAddresses, CfaRule, CieOffsetEncoding, Pointer, RegisterRule,
    RegisterRuleIter, RuledRegister, SectionBaseAddresses, StoreOnHeap, UnwindContext,
    UnwindContextStorage, UnwindExpression, UnwindOffset, UnwindTableRow, pointers_go_on,
    pointers_never_want_memory, store_on_heap_has_room,
};
pub use dwarf_frame_sections::{DebugFrame, EhFrame};
pub use header::{EhFrameHdr, ParsedEhFrameHdr};
pub use iter::EhHdrTableIter;
pub use linked::LinkedHeader;
pub use table::EhHdrTable;
