//! Why a file is refused.

use thiserror::Error;

/// Why an ELF file is refused, with the place: an offset in the file, in bytes.
#[derive(Debug, Clone, Copy, PartialEq, Eq, Error)]
pub enum ElfError {
    /// The file doesn't begin with 0x7f and `ELF`.
    #[error("not an ELF file (at offset 0x{offset:x})")]
    NotElf {
        /// 0.
        offset: u64,
    },

    /// The bytes from this offset on end before what is there does.
    #[error("the file ends within what is at offset 0x{offset:x}")]
    Truncated {
        /// Where that begins.
        offset: u64,
    },

    /// The file isn't of 64 bits (`ELFCLASS64`).
    #[error("unsupported class (at offset 0x{offset:x})")]
    UnsupportedClass {
        /// Where its class is.
        offset: u64,
    },

    /// The least significant bytes of its numbers don't come first (`ELFDATA2LSB`).
    #[error("unsupported byte order (at offset 0x{offset:x})")]
    UnsupportedByteOrder {
        /// Where its byte order is.
        offset: u64,
    },

    /// A version isn't 1 (`EV_CURRENT`).
    #[error("unsupported version (at offset 0x{offset:x})")]
    UnsupportedVersion {
        /// Where the version is.
        offset: u64,
    },

    /// The file is of another machine than x86_64 and aarch64.
    #[error("unsupported machine (at offset 0x{offset:x})")]
    UnsupportedMachine {
        /// Where its machine is.
        offset: u64,
    },

    /// The entries of a table have another size than the standard's.
    #[error("unexpected size of entries (at offset 0x{offset:x})")]
    BadEntrySize {
        /// Where their size is.
        offset: u64,
    },

    /// A member of the ELF header refers to the section header at index 0, and there are no section headers.
    #[error("no section header for extended numbering (at offset 0x{offset:x})")]
    NoInitialSection {
        /// Where the member is.
        offset: u64,
    },

    /// The bytes of a section are compressed (`SHF_COMPRESSED`).
    #[error("compressed section (at offset 0x{offset:x})")]
    CompressedSection {
        /// Where the bytes are.
        offset: u64,
    },

    /// There is no section with an index.
    #[error("no section with the index (at offset 0x{offset:x})")]
    NoSuchSection {
        /// Where the index is, or the symbol table that has it.
        offset: u64,
    },

    /// The section with an index isn't a string table (`SHT_STRTAB`).
    #[error("the section with the index is no string table (at offset 0x{offset:x})")]
    NotStringTable {
        /// Where the index is, or the symbol table that has it.
        offset: u64,
    },

    /// A string isn't in its string table, or doesn't end there.
    #[error("no string that ends (at offset 0x{offset:x})")]
    BadString {
        /// Where it begins.
        offset: u64,
    },
}
