ghost use Rattle.std.specs.Prelude.{◌≡◌, Some};
ghost use Rattle.dwarf_constants.specs.declared.error.Error.TheVariants.{OutOfMemory};

use crate::common::ReaderOffsetId;
use crate::constants::{DwCfa, DwChildren, DwEhPe};
use std::alloc::{AllocError, AllocFailed};
use std::fmt;

/// Why bytes of a section can't be read.
#[derive(Debug, Clone, Copy, PartialEq, Eq)]
pub enum Error {
    // Lengths, addresses, strings and numbers of variable length (DWARF 5, 7.2.2, 7.5.5, 7.6).
    /// The bytes end here, before the value does.
    UnexpectedEof(ReaderOffsetId),
    BadUnsignedLeb128,
    BadSignedLeb128,
    UnknownReservedLength,
    UnsupportedAddressSize(u8),
    UnsupportedOffsetSize(u8),
    UnsupportedSegmentSize,
    UnsupportedOffset,
    OffsetOutOfBounds,
    UnknownVersion(u64),
    BadUtf8,

    // Abbreviations (DWARF 5, 7.5.3).
    AbbreviationTagZero,
    InvalidAbbreviationChildren(DwChildren),
    AttributeNameZero,
    AttributeFormZero,
    DuplicateAbbreviationCode(u64),

    // Encoded pointers (LSB 5.0, 10.5).
    UnknownPointerEncoding(DwEhPe),
    UnsupportedPointerEncoding,
    CannotParseOmitPointerEncoding,
    PcRelativePointerButSectionBaseIsUndefined,
    TextRelativePointerButTextBaseIsUndefined,
    DataRelativePointerButDataBaseIsUndefined,
    FuncRelativePointerInBadContext,

    // Entries of call frame information (DWARF 5, 6.4.1; LSB 5.0, 10.6).
    /// The entry at this offset is an FDE, and not a CIE.
    NotCieId(u64),
    /// The entry at this offset is a CIE, and not an FDE.
    NotCiePointer(u64),
    UnknownAugmentation,
    NoEntryAtGivenOffset,
    NoUnwindInfoForAddress,

    // Call frame instructions (DWARF 5, 6.4.2) and the rows that they make.
    UnknownCallFrameInstruction(DwCfa),
    CfiInstructionInInvalidContext,
    InvalidCfiSetLoc(u64),
    AddressOverflow,
    PopWithEmptyStack,
    StackFull,
    TooManyRegisterRules,

    // The search table of `.eh_frame_hdr` (LSB 5.0, 10.6.2).
    VariableLengthSearchTable,

    // Expressions (DWARF 5, 2.5).
    UnsupportedEvaluation,
    NotEnoughStackItems,
    DivisionByZero,
    BadBranchTarget(u64),
    TooManyIterations,

    OutOfMemory,
}

/// The name of the variant, of those listed: first those without a number, then those with one.
macro_rules! variant_of {
    ($error:expr; $($plain:ident),*; $($numbered:ident),* $(,)?) => {
        match $error {
            $(Error::$plain => stringify!($plain),)*
            $(Error::$numbered(_) => stringify!($numbered),)*
        }
    };
}

impl Error {
    ghost use Rattle.dwarf_constants.specs.Error.{variant_name};

    // The variant's name.
    fn name(&self) -> &'static str
        ensures { result.now ≡ variant_name self.now }
    {
        variant_of!(*self;
            BadUnsignedLeb128, BadSignedLeb128, UnknownReservedLength, UnsupportedSegmentSize,
            UnsupportedOffset, OffsetOutOfBounds, BadUtf8, AbbreviationTagZero, AttributeNameZero,
            AttributeFormZero, UnsupportedPointerEncoding, CannotParseOmitPointerEncoding,
            PcRelativePointerButSectionBaseIsUndefined, TextRelativePointerButTextBaseIsUndefined,
            DataRelativePointerButDataBaseIsUndefined, FuncRelativePointerInBadContext,
            UnknownAugmentation, NoEntryAtGivenOffset, NoUnwindInfoForAddress,
            CfiInstructionInInvalidContext, AddressOverflow, PopWithEmptyStack, StackFull,
            TooManyRegisterRules, VariableLengthSearchTable, UnsupportedEvaluation,
            NotEnoughStackItems, DivisionByZero, TooManyIterations, OutOfMemory;
            UnexpectedEof, UnsupportedAddressSize, UnsupportedOffsetSize, UnknownVersion,
            InvalidAbbreviationChildren, DuplicateAbbreviationCode, UnknownPointerEncoding,
            NotCieId, NotCiePointer, UnknownCallFrameInstruction, InvalidCfiSetLoc, BadBranchTarget,
        )
    }
}

/// Prints the variant's name.
impl fmt::Display for Error {
    ghost use Rattle.dwarf_constants.specs.Error.{variant_name};

    ghost output = { λ error. Some (variant_name error) };

    fn fmt<W: fmt::Write>(&self, f: &mut fmt::Formatter<W>) -> fmt::Result {
        f.write_str(self.name())
    }
}

impl std::error::Error for Error {}

impl From<AllocError> for Error {
    ghost from_gives = { λ _ e. e ≡ OutOfMemory };

    fn from(_e: AllocError) -> Error {
        Error::OutOfMemory
    }
}

impl<T: Drop> From<AllocFailed<T>> for Error {
    ghost from_gives = { λ _ e. e ≡ OutOfMemory };

    fn from(_e: AllocFailed<T>) -> Error {
        Error::OutOfMemory
    }
}

/// A value of a section, or why its bytes can't be read.
pub type Result<T> = std::result::Result<T, Error>;
