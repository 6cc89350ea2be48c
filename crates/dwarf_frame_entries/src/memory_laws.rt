//! A law of lookups. It does nothing when the program runs.

ghost use Rattle.std.specs.Prelude.{ℕ};
ghost use Rattle.dwarf_readers.specs.Memory.{NeverWantsMemory};
ghost use Rattle.dwarf_frame_rows.specs.FrameSection.{FrameSection};
ghost use Rattle.dwarf_frame_entries.specs.AddressLookups.{fde_for_address, fde_for_address_skipping};
ghost use Rattle.dwarf_frame_entries.specs.Entries.{cie_from_offset, fde_from_offset};

/// No lookup of an entry fails because memory ran out. So where a function reads CIEs as
/// [`cie_from_offset`](crate::UnwindSection::cie_from_offset) does, no lookup by it returns `OutOfMemory`.
pub fn lookups_never_want_memory()
    ensures cie { (section : FrameSection) (offset : ℕ)
        → NeverWantsMemory (cie_from_offset section offset) }
    ensures fde { (section : FrameSection) (offset : ℕ)
        → NeverWantsMemory (fde_from_offset section offset) }
    ensures address { (section : FrameSection) (address : ℕ)
        → NeverWantsMemory (fde_for_address section address) }
    ensures skipping { (section : FrameSection) (address : ℕ)
        → NeverWantsMemory (fde_for_address_skipping section address) }
{}
