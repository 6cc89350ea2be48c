//! What the sections of call frames have in common, and what they differ in.

ghost use Rattle.std.specs.Prelude.{◌≡◌, ℕ, option_map};

use dwarf_constants::{Format, Vendor};
use dwarf_offsets::{DebugFrameOffset, EhFrameOffset};
use dwarf_readers::{Reader, ReaderOffset};
use std::fmt::Debug;

/// The width of the field of an entry that tells CIEs from FDEs and has the offset of an FDE's CIE.
#[derive(Debug, Clone, Copy, PartialEq, Eq)]
pub enum CieOffsetEncoding {
    /// 32 bits.
    U32,
    /// 64 bits.
    U64,
}

/// The type of the offsets in a section of call frames, which says which section they are in.
pub trait UnwindOffset<T: ReaderOffset>: Copy + Debug + Eq + From<T> {
    /// The offset as a number.
    ghost number: { Self → ℕ };

    /// The plain offset.
    fn into(self) -> T
        ensures { T.value result ≡ number self };

    /// An offset made from a plain one is the same number.
    ghost of: { (plain : T) (offset : Self) → Self.from_gives plain offset
        → number offset ≡ T.value plain };
}

impl<T: ReaderOffset> UnwindOffset<T> for DebugFrameOffset<T> {
    ghost use Rattle.std.proofs.Common.{ap};

    ghost number = { λ offset. T.value offset.0 };

    ghost of = { λ plain offset gives. ap T.value gives };

    fn into(self) -> T {
        self.0
    }
}

impl<T: ReaderOffset> UnwindOffset<T> for EhFrameOffset<T> {
    ghost use Rattle.std.proofs.Common.{ap};

    ghost number = { λ offset. T.value offset.0 };

    ghost of = { λ plain offset gives. ap T.value gives };

    fn into(self) -> T {
        self.0
    }
}

/// What a reader of entries asks of a section of call frames. `.eh_frame` (LSB 5.0, 10.6.1) and
/// `.debug_frame` (DWARF 5, 6.4.1) differ in no more.
pub trait _UnwindSectionPrivate<R: Reader> {
    ghost use Rattle.dwarf_constants.specs.declared.common.Vendor.{Vendor};
    ghost use Rattle.dwarf_frame_rows.specs.FrameSection.{FrameSection, frame_section};
    ghost use Rattle.dwarf_frame_rows.specs.SectionKind.{FrameSectionKind};
    ghost use Rattle.dwarf_frame_rows.specs.declared.base_addresses.BaseAddresses.{BaseAddresses};

    /// The reader of the section, from its start on.
    ghost reader: { Self → R };

    /// What the section differs in from others.
    ghost kind: { FrameSectionKind };

    /// The size of an address in bytes, if no CIE says it.
    ghost size: { Self → ℕ };

    /// Whose instructions are read.
    ghost extensions: { Self → Vendor };

    /// The section as its entries are read, where its pointers are relative to these addresses.
    ghost frame: { Self → BaseAddresses → FrameSection };

    /// The section from its start on.
    fn section(&self) -> &R
        ensures { result.now ≡ reader self.now };

    /// Whether a length of 0 ends the section.
    fn has_zero_terminator() -> bool
        ensures { result ≡ kind.ends_at_zero };

    /// Whether an entry of this format and with this id is a CIE.
    fn is_cie(format: Format, id: u64) -> bool
        ensures { result ≡ kind.is_cie format id };

    /// How wide the id of an entry of this format is.
    fn cie_offset_encoding(format: Format) -> CieOffsetEncoding
        ensures { result ≡ kind.id_width format };

    /// The offset of an FDE's CIE, by the offset of the FDE's id, `base`, and the id itself, `offset`.
    /// There is none if it would be before the section.
    fn resolve_cie_offset(&self, base: R::Offset, offset: R::Offset) -> Option<R::Offset>
        ensures { option_map R.Offset.value result
            ≡ kind.cie_place (R.Offset.value base) (R.Offset.value offset) };

    /// Whether CIEs of this version say the sizes of addresses and of segments.
    fn has_address_and_segment_sizes(version: u8) -> bool
        ensures { result ≡ kind.has_sizes version };

    /// The size of an address in bytes, if no CIE says it.
    fn address_size(&self) -> u8
        ensures { result ≡ size self.now };

    /// Whose extensions of call frame instructions are read.
    fn vendor(&self) -> Vendor
        ensures { result ≡ extensions self.now };

    /// The entries are read from the section's bytes, with its kind and its size of an address.
    ghost framed: { (section : Self) (bases : BaseAddresses) → frame section bases
        ≡ frame_section R.Offset.limit kind (size section) (R.stretch (reader section)) bases };
}
