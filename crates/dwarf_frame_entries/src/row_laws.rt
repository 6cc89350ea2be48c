//! A law of the rows of FDEs.

ghost use Rattle.dwarf_constants.specs.declared.common.Vendor.{Vendor};
ghost use Rattle.dwarf_frame_rows.specs.Effects.{Limits};
ghost use Rattle.dwarf_frame_rows.specs.FrameSection.{FrameSection};
ghost use Rattle.dwarf_frame_entries.specs.Entries.{Fde};
ghost use Rattle.dwarf_frame_entries.specs.EntryPrograms.{RowsCoverCode};

use dwarf_frame_instructions::each_address_has_one_row;

/// Each address of an FDE's code is in exactly one of the FDE's rows, if no error ends them. The
/// function does nothing when the program runs.
pub fn each_address_of_an_fde_has_one_row()
    ensures { (limits : Limits) (section : FrameSection) (vendor : Vendor) (fde : Fde)
        → RowsCoverCode limits section vendor fde }
{
    each_address_has_one_row::<u64>();
}
