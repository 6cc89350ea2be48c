//! Reading of DWARF sections: readers that know their offset, and the tables that more than one
//! section uses. A user needs this crate alone: it re-exports the constants, offsets and readers.
#![tactic(auto)]

mod abbrev;
mod addr;
pub mod laws;
pub mod more;
mod section;
mod str;

pub use abbrev::{
    Abbreviation, Abbreviations, AbbreviationsCache, AbbreviationsCacheStrategy,
    AttributeSpecification, DebugAbbrev,
};
pub use addr::{AddrEntryIter, AddrHeader, AddrHeaderIter, DebugAddr};
pub use dwarf_constants::codes::{
    DwAccess, DwAddr, DwAte, DwCc, DwDefaulted, DwDs, DwDsc, DwEnd, DwId, DwIdx, DwInl, DwLang,
    DwLle, DwLnct, DwLne, DwLns, DwMacinfo, DwMacro, DwOrd, DwRle, DwSect, DwSectV2, DwUt,
    DwVirtuality, DwVis,
};
pub use dwarf_constants::{
    AArch64, DebugTypeSignature, DwCfa, DwChildren, DwEhPe, DwForm, DwOp, DwarfFileType, DwoId,
    Encoding, Error, Format, LineEncoding, ReaderOffsetId, Register, Result, SectionId, Vendor,
    X86_64, constants,
};
pub use dwarf_offsets::{
    DebugAbbrevOffset, DebugAddrBase, DebugAddrIndex, DebugAddrOffset, DebugArangesOffset,
    DebugFrameOffset, DebugInfoOffset, DebugLineOffset, DebugLineStrOffset, DebugLocListsBase,
    DebugLocListsIndex, DebugMacinfoOffset, DebugMacroOffset, DebugNamesOffset, DebugRngListsBase,
    DebugRngListsIndex, DebugStrOffset, DebugStrOffsetsIndex, DebugTypesOffset, EhFrameOffset,
    LocationListsOffset, RangeListsOffset, RawRangeListsOffset, UnitOffset, UnitSectionOffset,
};
pub use dwarf_readers::{
    BigEndian, Counted, DebugStrOffsetsBase, EndianSlice, Endianity, LittleEndian, NativeEndian,
    Reader, ReaderOffset, RunTimeEndian, Steps, TwoPieces, count_steps, leb128, read_u8_array,
};
pub use section::Section;
pub use str::{DebugLineStr, DebugStr, DebugStrOffsets};
