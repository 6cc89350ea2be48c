//! Plain values, and the sections of debugging information.

ghost use Rattle.std.specs.Prelude.{◌≡◌, ◌↔◌, negsuc, true, IsTrue, Contains, option_map};

/// Whether lengths and offsets in a section have 64 or 32 bits (DWARF 5, 7.4).
#[derive(Debug, Clone, Copy, PartialEq, Eq, Hash)]
pub enum Format {
    Dwarf64,
    Dwarf32,
}

impl Format {
    ghost use Rattle.dwarf_constants.specs.Format.{initial_length_size, word_size};

    /// The size of an initial length, in bytes.
    pub fn initial_length_size(self) -> u8
        ensures { result ≡ initial_length_size self }
    {
        match self {
            Format::Dwarf64 => 12,
            Format::Dwarf32 => 4,
        }
    }

    /// The size of an offset, and of a length within a unit, in bytes.
    pub fn word_size(self) -> u8
        ensures { result ≡ word_size self }
    {
        match self {
            Format::Dwarf64 => 8,
            Format::Dwarf32 => 4,
        }
    }
}

/// The vendor whose extensions of call frame instructions are read.
#[derive(Debug, Clone, Copy, PartialEq, Eq, Hash)]
pub enum Vendor {
    Default,
    AArch64,
}

/// The parameters on which the encoding of a unit's values depends.
#[derive(Debug, Clone, Copy, PartialEq, Eq, Hash)]
pub struct Encoding {
    /// The size of an address, in bytes.
    pub address_size: u8,
    pub format: Format,
    /// The version of the unit.
    pub version: u16,
}

/// The parameters of a line number program (DWARF 5, 6.2.4).
#[derive(Debug, Clone, Copy, PartialEq, Eq, Hash)]
pub struct LineEncoding {
    /// The size of the smallest instruction, in bytes.
    pub minimum_instruction_length: u8,
    /// How many operations an instruction has at most.
    pub maximum_operations_per_instruction: u8,
    /// Whether a row begins a statement unless its program says otherwise.
    pub default_is_stmt: bool,
    /// The least advance of the line by a special opcode.
    pub line_base: i8,
    /// How many advances of the line the special opcodes have.
    pub line_range: u8,
}

/// The parameters that compilers use for machines with one operation an instruction.
impl Default for LineEncoding {
    ghost is_default = { λ encoding. encoding ≡ record {
      minimum_instruction_length = 1;
      maximum_operations_per_instruction = 1;
      default_is_stmt = true;
      line_base = negsuc 4;
      line_range = 14;
    } };

    fn default() -> LineEncoding {
        LineEncoding {
            minimum_instruction_length: 1,
            maximum_operations_per_instruction: 1,
            default_is_stmt: true,
            line_base: -5,
            line_range: 14,
        }
    }
}

/// A DWARF register number (DWARF 5, 6.4.1). Its meaning is the architecture's.
#[derive(Debug, Clone, Copy, PartialEq, Eq, PartialOrd, Ord, Hash)]
pub struct Register(pub u16);

/// An offset into a section, in bytes, as an error names it.
#[derive(Debug, Clone, Copy, PartialEq, Eq, PartialOrd, Ord, Hash)]
pub struct ReaderOffsetId(pub u64);

/// The signature that names a type of another unit (DWARF 5, 7.32).
#[derive(Debug, Clone, Copy, PartialEq, Eq, PartialOrd, Ord, Hash)]
pub struct DebugTypeSignature(pub u64);

/// The number by which a unit finds its part in a `.dwo` file (DWARF 5, 7.3.5.3).
#[derive(Debug, Clone, Copy, PartialEq, Eq, PartialOrd, Ord, Hash)]
pub struct DwoId(pub u64);

/// Whether a file is the program's own or one that was split off it (DWARF 5, 7.3.2).
#[derive(Debug, Clone, Copy, PartialEq, Eq, Hash)]
pub enum DwarfFileType {
    Main,
    Dwo,
}

/// A section of debugging information.
#[derive(Debug, Clone, Copy, PartialEq, Eq, PartialOrd, Ord, Hash)]
pub enum SectionId {
    DebugAbbrev,
    DebugAddr,
    DebugAranges,
    DebugCuIndex,
    DebugFrame,
    EhFrame,
    EhFrameHdr,
    DebugGnuPubNames,
    DebugGnuPubTypes,
    DebugInfo,
    DebugLine,
    DebugLineStr,
    DebugLoc,
    DebugLocLists,
    DebugMacinfo,
    DebugMacro,
    DebugNames,
    DebugPubNames,
    DebugPubTypes,
    DebugRanges,
    DebugRngLists,
    DebugStr,
    DebugStrOffsets,
    DebugTuIndex,
    DebugTypes,
}

impl SectionId {
    ghost use Rattle.dwarf_constants.specs.Section.{section_name, dwo_section_name, string_sections};

    /// The section's name in an ELF file.
    pub fn name(self) -> &'static str
        ensures { result.now ≡ section_name self }
    {
        match self {
            SectionId::DebugAbbrev => ".debug_abbrev",
            SectionId::DebugAddr => ".debug_addr",
            SectionId::DebugAranges => ".debug_aranges",
            SectionId::DebugCuIndex => ".debug_cu_index",
            SectionId::DebugFrame => ".debug_frame",
            SectionId::EhFrame => ".eh_frame",
            SectionId::EhFrameHdr => ".eh_frame_hdr",
            SectionId::DebugGnuPubNames => ".debug_gnu_pubnames",
            SectionId::DebugGnuPubTypes => ".debug_gnu_pubtypes",
            SectionId::DebugInfo => ".debug_info",
            SectionId::DebugLine => ".debug_line",
            SectionId::DebugLineStr => ".debug_line_str",
            SectionId::DebugLoc => ".debug_loc",
            SectionId::DebugLocLists => ".debug_loclists",
            SectionId::DebugMacinfo => ".debug_macinfo",
            SectionId::DebugMacro => ".debug_macro",
            SectionId::DebugNames => ".debug_names",
            SectionId::DebugPubNames => ".debug_pubnames",
            SectionId::DebugPubTypes => ".debug_pubtypes",
            SectionId::DebugRanges => ".debug_ranges",
            SectionId::DebugRngLists => ".debug_rnglists",
            SectionId::DebugStr => ".debug_str",
            SectionId::DebugStrOffsets => ".debug_str_offsets",
            SectionId::DebugTuIndex => ".debug_tu_index",
            SectionId::DebugTypes => ".debug_types",
        }
    }

    /// The section's name in a `.dwo` or `.dwp` file, if such a file can have it.
    pub fn dwo_name(self) -> Option<&'static str>
        ensures { option_map (λ s. s.now) result ≡ dwo_section_name self }
    {
        match self {
            SectionId::DebugAbbrev => Some(".debug_abbrev.dwo"),
            SectionId::DebugInfo => Some(".debug_info.dwo"),
            SectionId::DebugLine => Some(".debug_line.dwo"),
            SectionId::DebugLoc => Some(".debug_loc.dwo"),
            SectionId::DebugLocLists => Some(".debug_loclists.dwo"),
            SectionId::DebugMacinfo => Some(".debug_macinfo.dwo"),
            SectionId::DebugMacro => Some(".debug_macro.dwo"),
            SectionId::DebugRngLists => Some(".debug_rnglists.dwo"),
            SectionId::DebugStr => Some(".debug_str.dwo"),
            SectionId::DebugStrOffsets => Some(".debug_str_offsets.dwo"),
            SectionId::DebugTypes => Some(".debug_types.dwo"),
            SectionId::DebugCuIndex | SectionId::DebugTuIndex => Some(self.name()),
            _ => None,
        }
    }

    /// Whether the section consists of strings that end with a zero byte.
    pub fn is_string(self) -> bool
        ensures { IsTrue result ↔ Contains string_sections self }
    {
        matches!(self, SectionId::DebugStr | SectionId::DebugLineStr)
    }
}
