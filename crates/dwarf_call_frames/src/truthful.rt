//! Laws of truthful headers. They do nothing when the program runs. A scan of a section passes over FDEs that can't be
//! read, and a truthful header has no row for one.

ghost use Rattle.std.specs.Prelude.{◌≡◌, ◌<◌, ℕ, Some, None};
ghost use Rattle.std.specs.List.{Contains};
ghost use Rattle.dwarf_frame_entries.specs.AddressLookups.{fde_for_address_skipping};
ghost use Rattle.dwarf_frame_entries.specs.Entries.{Fde};
ghost use Rattle.dwarf_frame_entries.specs.SectionFdes.{whole_fdes};
ghost use Rattle.dwarf_call_frames.specs.Truthful.{AllFind, HasFdeFor, HeaderFinds, HeaderFindsAbove, TruthfulHeader, fde_found_by_header, nearest_in};

/// Under a truthful header, the FDE that contains an address is the one that the header gives, the
/// nearest by its start, and the first that a scan of the section finds.
pub fn contained_addresses_have_one_fde()
    ensures { (t : TruthfulHeader) (address : ℕ) (fde : Fde) → HasFdeFor t.section address fde
        → AllFind t address fde }
{}

/// For an address at or above the lowest start, a truthful header gives the FDE that is nearest by
/// its start. If that doesn't contain the address, none does.
pub fn truthful_headers_name_the_nearest_fde()
    ensures { (t : TruthfulHeader) (address : ℕ) (fde : Fde) → nearest_in t.section address ≡ Some fde
        → HeaderFinds t address fde }
{}

/// For an address below the lowest start, a truthful header that has rows gives an FDE that starts
/// above the address, and no FDE contains the address. The header has rows if the section has an
/// FDE.
pub fn truthful_headers_name_an_fde_below_all()
    ensures below { (t : TruthfulHeader) (address : ℕ) → nearest_in t.section address ≡ None
        → HeaderFindsAbove t address }
    ensures rows { (t : TruthfulHeader) (fde : Fde) → Contains (whole_fdes t.section) fde
        → 0 < t.header.count }
{}

/// For any address, a lookup by a truthful header finds the FDE that a scan of the section does, or
/// none as that does. So both find the same row, or fail alike.
///
/// The lookups are [`EhHdrTable::fde_for_address`] and [`UnwindSection::fde_for_address_skipping`].
///
/// [`EhHdrTable::fde_for_address`]: crate::EhHdrTable::fde_for_address
/// [`UnwindSection::fde_for_address_skipping`]: crate::UnwindSection::fde_for_address_skipping
pub fn truthful_headers_find_as_scans_do()
    ensures { (t : TruthfulHeader) (address : ℕ)
        → fde_found_by_header t address ≡ fde_for_address_skipping t.section address }
{}
