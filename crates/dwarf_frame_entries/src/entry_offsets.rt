//! Laws of the entries of a section.

ghost use Rattle.std.specs.List.{All};
ghost use Rattle.dwarf_frame_rows.specs.FrameSection.{FrameSection};
ghost use Rattle.dwarf_frame_entries.specs.EntryLists.{HasNoMoreThanBytes, entries_of};
ghost use Rattle.dwarf_frame_entries.specs.SectionFdes.{CiesStandAtTheirOffsets, IsOfSection, StandsAtItsOffset, StandsThere, whole_fdes};

/// Each entry in the list of a section is what [`UnwindSection::cie_from_offset`] or
/// [`UnwindSection::partial_fde_from_offset`] returns at its offset. It does nothing when the
/// program runs.
///
/// [`UnwindSection::cie_from_offset`]: crate::UnwindSection::cie_from_offset
/// [`UnwindSection::partial_fde_from_offset`]: crate::UnwindSection::partial_fde_from_offset
#[tactic(auto, using(crate::proofs::Laws::entries_there))]
pub fn listed_entries_stand_at_their_offsets()
    ensures { (section : FrameSection) → All (StandsThere section) (entries_of section) }
{}

/// Each FDE in the list of a section is read in that section, as its CIE is. It does nothing when
/// the program runs.
#[tactic(auto, using(crate::proofs::Laws::fdes_of_section))]
pub fn listed_fdes_are_of_their_section()
    ensures { (section : FrameSection) → All (IsOfSection section) (entries_of section) }
{}

/// Each FDE in the list of a section that can be read is what
/// [`UnwindSection::fde_from_offset`] returns at its offset. It does nothing when the program runs.
///
/// [`UnwindSection::fde_from_offset`]: crate::UnwindSection::fde_from_offset
#[tactic(auto, using(crate::proofs::Laws::fdes_there))]
pub fn listed_fdes_stand_at_their_offsets()
    ensures { (section : FrameSection) → All (StandsAtItsOffset section) (whole_fdes section) }
{}

/// The CIE of an FDE at an offset of a section is what [`UnwindSection::cie_from_offset`] returns at the
/// offset that the CIE says. It does nothing when the program runs.
///
/// [`UnwindSection::cie_from_offset`]: crate::UnwindSection::cie_from_offset
#[tactic(auto, using(crate::proofs::Laws::fde_cie_there))]
pub fn cies_of_fdes_stand_at_their_offsets()
    ensures { (section : FrameSection) → CiesStandAtTheirOffsets section }
{}

/// A section has no more entries than bytes, so that a count of them fits where its size does. It does
/// nothing when the program runs.
#[tactic(auto, using(crate::proofs::Laws::entries_within_bytes))]
pub fn sections_have_no_more_entries_than_bytes()
    ensures { (section : FrameSection) → HasNoMoreThanBytes section }
{}
