//! `.eh_frame` and `.debug_frame`.

ghost use Rattle.std.specs.Prelude.{◌≡◌, IsTrue};
ghost use Rattle.dwarf_constants.specs.declared.common.SectionId.TheVariants as id;
ghost use Rattle.dwarf_constants.specs.declared.common.Vendor.TheVariants as vendor;
ghost use Rattle.dwarf_readers.specs.EndianSlice.{stretch_of};
ghost use Rattle.dwarf_readers.specs.InitialLength.{is_size};
ghost use Rattle.dwarf_readers.specs.Stretch.{whole};
ghost use Rattle.dwarf_frame_rows.specs.FrameSection.{frame_section};
ghost use Rattle.dwarf_frame_sections.specs.Sections.{FrameData, debug_frame, eh_frame, plain_data};

use dwarf_constants::{Format, SectionId, Vendor};
use dwarf_frame_rows::{_UnwindSectionPrivate, CieOffsetEncoding};
use dwarf_read_core::Section;
use dwarf_readers::{EndianSlice, Endianity, Reader, ReaderOffset};
use std::marker::Model;

/// The size of an address in bytes if neither a CIE nor the user says it.
const DEFAULT_ADDRESS_SIZE: u8 = 8;

/// The section `.eh_frame` (LSB 5.0, 10.6.1).
#[derive(Debug, Clone, Copy)]
pub struct EhFrame<R> {
    section: R,
    address_size: u8,
    vendor: Vendor,
}

impl<R> Model for EhFrame<R> {
    ghost Value = { FrameData R };

    ghost view = { λ s. record {
      reader = s.section;
      address_size = s.address_size;
      vendor = s.vendor;
    } };

    ghost inverse = { λ v. record {
      section = v.reader;
      address_size = v.address_size;
      vendor = v.vendor;
    } };
}

impl<'a, E: Endianity> EhFrame<EndianSlice<'a, E>> {
    /// The section with these bytes. Addresses have 8 bytes, and no vendor's instructions are read.
    pub fn new(section: &'a [u8], endian: E) -> Self
        ensures section { stretch_of E.is_big result.reader
            ≡ whole (E.is_big endian) section.now }
        ensures others { result ≡ plain_data result.reader }
    {
        Self::from(EndianSlice::new(section, endian))
    }
}

impl<R> EhFrame<R> {
    /// Sets the size of an address in bytes, which no entry of this section says: 1, 2, 4 or 8.
    pub fn set_address_size(&mut self, address_size: u8)
        requires { IsTrue (is_size address_size) }
        ensures { self.new ≡ record self.old { address_size = address_size } }
    {
        self.address_size = address_size;
    }

    /// Sets whose extensions of call frame instructions are read.
    pub fn set_vendor(&mut self, vendor: Vendor)
        ensures { self.new ≡ record self.old { vendor = vendor } }
    {
        self.vendor = vendor;
    }
}

impl<R> From<R> for EhFrame<R> {
    ghost from_gives = { λ r s. s ≡ plain_data r };

    fn from(section: R) -> EhFrame<R> {
        EhFrame {
            section,
            address_size: DEFAULT_ADDRESS_SIZE,
            vendor: Vendor::Default,
        }
    }
}

impl<R: Reader> Section<R> for EhFrame<R> {
    ghost use Rattle.std.proofs.Common.{ap};

    ghost which = { id.EhFrame };

    ghost section = { λ s. s.reader };

    ghost of = { λ r s gives. ap (λ parts. parts.reader) gives };

    fn id() -> SectionId {
        SectionId::EhFrame
    }

    fn reader(&self) -> &R {
        &self.section
    }
}

impl<R: Reader> _UnwindSectionPrivate<R> for EhFrame<R> {
    ghost use Rattle.std.proofs.Common.{refl};

    ghost reader = { λ s. s.reader };

    ghost kind = { eh_frame };

    ghost size = { λ s. s.address_size };

    ghost extensions = { λ s. s.vendor };

    ghost frame = { λ s bases. frame_section R.Offset.limit eh_frame s.address_size
        (R.stretch s.reader) bases };

    ghost framed = { λ section bases. refl };

    fn section(&self) -> &R {
        &self.section
    }

    fn has_zero_terminator() -> bool {
        true
    }

    fn is_cie(_format: Format, id: u64) -> bool {
        id == 0
    }

    fn cie_offset_encoding(_format: Format) -> CieOffsetEncoding {
        CieOffsetEncoding::U32
    }

    // The id is the distance back from its own offset.
    fn resolve_cie_offset(&self, base: R::Offset, offset: R::Offset) -> Option<R::Offset> {
        base.checked_sub(offset)
    }

    fn has_address_and_segment_sizes(_version: u8) -> bool {
        false
    }

    fn address_size(&self) -> u8 {
        self.address_size
    }

    fn vendor(&self) -> Vendor {
        self.vendor
    }
}

/// The section `.debug_frame` (DWARF 5, 6.4.1).
#[derive(Debug, Clone, Copy)]
pub struct DebugFrame<R> {
    section: R,
    address_size: u8,
    vendor: Vendor,
}

impl<R> Model for DebugFrame<R> {
    ghost Value = { FrameData R };

    ghost view = { λ s. record {
      reader = s.section;
      address_size = s.address_size;
      vendor = s.vendor;
    } };

    ghost inverse = { λ v. record {
      section = v.reader;
      address_size = v.address_size;
      vendor = v.vendor;
    } };
}

impl<'a, E: Endianity> DebugFrame<EndianSlice<'a, E>> {
    /// The section with these bytes. Addresses have 8 bytes if no CIE says their size, and no vendor's
    /// instructions are read.
    pub fn new(section: &'a [u8], endian: E) -> Self
        ensures section { stretch_of E.is_big result.reader
            ≡ whole (E.is_big endian) section.now }
        ensures others { result ≡ plain_data result.reader }
    {
        Self::from(EndianSlice::new(section, endian))
    }
}

impl<R> DebugFrame<R> {
    /// Sets the size of an address in bytes if no CIE says it: 1, 2, 4 or 8.
    pub fn set_address_size(&mut self, address_size: u8)
        requires { IsTrue (is_size address_size) }
        ensures { self.new ≡ record self.old { address_size = address_size } }
    {
        self.address_size = address_size;
    }

    /// Sets whose extensions of call frame instructions are read.
    pub fn set_vendor(&mut self, vendor: Vendor)
        ensures { self.new ≡ record self.old { vendor = vendor } }
    {
        self.vendor = vendor;
    }
}

impl<R> From<R> for DebugFrame<R> {
    ghost from_gives = { λ r s. s ≡ plain_data r };

    fn from(section: R) -> DebugFrame<R> {
        DebugFrame {
            section,
            address_size: DEFAULT_ADDRESS_SIZE,
            vendor: Vendor::Default,
        }
    }
}

impl<R: Reader> Section<R> for DebugFrame<R> {
    ghost use Rattle.std.proofs.Common.{ap};

    ghost which = { id.DebugFrame };

    ghost section = { λ s. s.reader };

    ghost of = { λ r s gives. ap (λ parts. parts.reader) gives };

    fn id() -> SectionId {
        SectionId::DebugFrame
    }

    fn reader(&self) -> &R {
        &self.section
    }
}

impl<R: Reader> _UnwindSectionPrivate<R> for DebugFrame<R> {
    ghost use Rattle.std.proofs.Common.{refl};

    ghost reader = { λ s. s.reader };

    ghost kind = { debug_frame };

    ghost size = { λ s. s.address_size };

    ghost extensions = { λ s. s.vendor };

    ghost frame = { λ s bases. frame_section R.Offset.limit debug_frame s.address_size
        (R.stretch s.reader) bases };

    ghost framed = { λ section bases. refl };

    fn section(&self) -> &R {
        &self.section
    }

    fn has_zero_terminator() -> bool {
        false
    }

    fn is_cie(format: Format, id: u64) -> bool {
        match format {
            Format::Dwarf32 => id == 0xffff_ffff,
            Format::Dwarf64 => id == 0xffff_ffff_ffff_ffff,
        }
    }

    fn cie_offset_encoding(format: Format) -> CieOffsetEncoding {
        match format {
            Format::Dwarf32 => CieOffsetEncoding::U32,
            Format::Dwarf64 => CieOffsetEncoding::U64,
        }
    }

    fn resolve_cie_offset(&self, _base: R::Offset, offset: R::Offset) -> Option<R::Offset> {
        Some(offset)
    }

    fn has_address_and_segment_sizes(version: u8) -> bool {
        version == 4
    }

    fn address_size(&self) -> u8 {
        self.address_size
    }

    fn vendor(&self) -> Vendor {
        self.vendor
    }
}
