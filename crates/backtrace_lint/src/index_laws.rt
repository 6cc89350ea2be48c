//! Laws of what is said of a section and what an unwinder's index of it holds. They do nothing when the program runs.

ghost use Rattle.std.specs.Prelude.{◌≡◌, is_none, length, map, option_map};
ghost use Rattle.dwarf_frame_rows.specs.FrameSection.{FrameSection};
ghost use Rattle.framehop_index.specs.EntryFor.{has_index, index_error, indexed_fdes, left_out as left_out_by_index};
ghost use Rattle.backtrace_lint.specs.Faults.{fault_of};
ghost use Rattle.backtrace_lint.specs.IndexLaws.{index_fault, kept_fdes, left_outs, listed_whole};

/// An index of a section, as `framehop_index` makes it with 0 as `base_svma`, leaves out as many FDEs as are said to be left
/// out, and holds those of which that isn't said.
pub fn left_outs_are_those_of_an_index()
    ensures count { (section : FrameSection) → length (left_outs section) ≡ left_out_by_index 0 section }
    ensures held { (section : FrameSection) → kept_fdes section ≡ map listed_whole (indexed_fdes 0 section) }
{}

/// A section has an index exactly if no error is said to end its list of entries; else the error is why it has none.
pub fn faults_are_why_there_is_no_index()
    ensures has { (section : FrameSection) → has_index section ≡ is_none (fault_of section) }
    ensures error { (section : FrameSection) → index_error section ≡ option_map index_fault (fault_of section) }
{}
