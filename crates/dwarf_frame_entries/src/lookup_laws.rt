//! A law of the lookups of an address.

ghost use Rattle.std.specs.Prelude.{ℕ};
ghost use Rattle.dwarf_frame_rows.specs.FrameSection.{FrameSection};
ghost use Rattle.dwarf_frame_entries.specs.LookupLaws.{AllFdesAreRead, LookupsAgree};

/// If each FDE of a section can be read, `fde_for_address` and `fde_for_address_skipping` give the
/// same for every address. The function does nothing when the program runs.
pub fn lookups_agree_if_fdes_are_read()
    ensures { (section : FrameSection) (address : ℕ) → AllFdesAreRead section
        → LookupsAgree section address }
{}
