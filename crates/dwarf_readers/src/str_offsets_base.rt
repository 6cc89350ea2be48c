//! Where the string offsets of a unit begin.

use dwarf_constants::{DwarfFileType, Encoding, Format};
use dwarf_endianity::ReaderOffset;

/// The offset of a unit's entries in `.debug_str_offsets`, in bytes.
#[derive(Debug, Clone, Copy, PartialEq, Eq, PartialOrd, Ord, Hash)]
pub struct DebugStrOffsetsBase<T = usize>(pub T);

impl<Offset: ReaderOffset> DebugStrOffsetsBase<Offset> {
    ghost use Rattle.std.specs.Prelude.{◌≡◌};
    ghost use Rattle.dwarf_constants.specs.Format.{default_str_offsets_base};

    /// The base of a unit that has no attribute for it: in a `.dwo` file of version 5 after the header
    /// of the entries (DWARF 5, 7.26), else the section's start.
    pub fn default_for_encoding_and_file(
        encoding: Encoding,
        file_type: DwarfFileType,
    ) -> DebugStrOffsetsBase<Offset>
        ensures { Offset.value result.0 ≡ default_str_offsets_base encoding file_type }
    {
        let base = if encoding.version >= 5 && file_type == DwarfFileType::Dwo {
            match encoding.format {
                Format::Dwarf64 => 16,
                Format::Dwarf32 => 8,
            }
        } else {
            0
        };
        DebugStrOffsetsBase(Offset::from_u8(base))
    }
}
