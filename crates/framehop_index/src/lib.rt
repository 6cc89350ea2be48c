//! The FDE of a section of call frames for an address: by an index that is made of the section, by the table of an
//! `.eh_frame_hdr`, or by a scan of the section.
//!
//! Making an index allocates; no look-up does.
#![tactic(auto)]

mod cfi_index;
mod fde_lookups;
mod kept_cies;
mod last_cie;
mod lookups;
mod section_frames;
mod section_type;

pub use cfi_index::{DwarfCfiIndex, IndexLookup, IndexedFde};
pub use dwarf_frame_entries::BaseAddresses;
pub use fde_lookups::{
    FoundFde, LentFde, lent_fde_around, lent_fde_at, lookup_address, offset_by_header,
    parsed_header,
};
pub use framehop_errors::DwarfCfiIndexError;
pub use last_cie::LastCie;
pub use lookups::{containing_fde, fde_at, fde_at_by_last, headed_offset};
pub use section_frames::SectionFrames;
pub use section_type::UnwindSectionType;
