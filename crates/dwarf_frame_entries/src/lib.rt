//! The entries of call frame information: the CIEs and FDEs of `.eh_frame` and `.debug_frame`
//! (DWARF 5, 6.4.1; LSB 5.0, 10.6.1), over any reader, and the rows of an FDE.
//!
//! `dwarf_call_frames` re-exports all of it, together with the lookup table of `.eh_frame_hdr`.
#![tactic(auto)]

mod augmentation;
mod cie;
mod entries;
mod entry_offsets;
mod fde;
mod kept_cie;
mod known_cies;
mod lookup_laws;
mod memory_laws;
mod parse;
mod programs;
mod row_laws;
mod section;
mod table;

pub use augmentation::Augmentation;
pub use cie::CommonInformationEntry;
pub use dwarf_frame_instructions::{
    CallFrameInstruction, CallFrameInstructionIter, Factors, FrameProgram,
};
pub use dwarf_frame_rows::{
    _UnwindSectionPrivate, BaseAddresses, CieOffsetEncoding, Pointer, SectionBaseAddresses,
    UnwindContext, UnwindContextStorage, UnwindOffset, UnwindTableRow,
};
pub use dwarf_frame_sections::{DebugFrame, EhFrame};
pub use entries::{CfiEntriesIter, CieOrFde, Entry};
pub use entry_offsets::{
    cies_of_fdes_stand_at_their_offsets, listed_entries_stand_at_their_offsets,
    listed_fdes_are_of_their_section, listed_fdes_stand_at_their_offsets,
    sections_have_no_more_entries_than_bytes,
};
pub use fde::{FrameDescriptionEntry, PartialFrameDescriptionEntry};
pub use kept_cie::KeptCie;
pub use known_cies::KnownCies;
pub use lookup_laws::lookups_agree_if_fdes_are_read;
pub use memory_laws::lookups_never_want_memory;
pub use row_laws::each_address_of_an_fde_has_one_row;
pub use section::UnwindSection;
pub use table::UnwindTable;
