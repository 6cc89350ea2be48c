//! CIEs that are kept without the bytes of their section.

ghost use Rattle.std.specs.Prelude.{◌≡◌, IfOk, IfSome};
ghost use Rattle.dwarf_endianity.specs.Answers.{Gives};
ghost use Rattle.dwarf_frame_entries.specs.Entries.{fde_of};
ghost use Rattle.dwarf_frame_entries.specs.EntryViews.{cie_view};
ghost use Rattle.dwarf_frame_entries.specs.KeptCies.{IsKeptAt, IsKeptOf, IsSomeOf, cie_kept};
ghost use Rattle.dwarf_frame_entries.specs.SectionWithin.{section_within};

use crate::augmentation::Augmentation;
use crate::cie::{CommonInformationEntry, Head};
use crate::fde::{FrameDescriptionEntry, PartialFrameDescriptionEntry};
use crate::section::UnwindSection;
use dwarf_constants::{Format, Register, Result};
use dwarf_frame_rows::_UnwindSectionPrivate;
use dwarf_readers::{Reader, ReaderOffset};

/// A CIE without the bytes of its section: its fields, and where its own instructions are. With it an FDE that names the CIE is read
/// without reading the CIE again.
#[derive(Debug, Clone, Copy)]
pub struct KeptCie {
    head: Head<u64>,
    format: Format,
    version: u8,
    address_size: u8,
    augmentation: Option<Augmentation>,
    code_alignment_factor: u64,
    data_alignment_factor: i64,
    return_address_register: Register,
    // Where its own instructions begin, from the section's start, in bytes.
    skipped: u64,
    // How many bytes they have.
    count: u64,
}

impl KeptCie {
    /// What is kept of a CIE of a section. `None` if it isn't one of this section.
    pub fn of<R: Reader, Section: UnwindSection<R>>(
        section: &Section,
        cie: &CommonInformationEntry<R>,
    ) -> Option<KeptCie>
        ensures kept { IfSome result (IsKeptOf (Section.frame section.now)
            (cie_view R.stretch R.Offset.value cie.now)) }
        ensures there { IsSomeOf (Section.frame section.now)
            (cie_view R.stretch R.Offset.value cie.now) result }
    {
        let start = section.section().offset_id().0;
        let skipped = cie.instructions.offset_id().0.checked_sub(start)?;
        let count = cie.instructions.len().into_u64();
        Some(KeptCie {
            head: Head {
                offset: cie.head.offset.into_u64(),
                length: cie.head.length.into_u64(),
            },
            format: cie.format,
            version: cie.version,
            address_size: cie.address_size,
            augmentation: cie.augmentation,
            code_alignment_factor: cie.code_alignment_factor,
            data_alignment_factor: cie.data_alignment_factor,
            return_address_register: cie.return_address_register,
            skipped,
            count,
        })
    }

    /// The offset of the entry from the section's start, in bytes.
    #[inline(always)]
    pub fn offset(&self) -> u64
        ensures { result ≡ self.now.head.offset }
    {
        self.head.offset
    }

    // The CIE over the section with these bytes.
    #[inline(always)]
    fn cie<R: Reader>(&self, section: &R) -> Result<CommonInformationEntry<R>>
        ensures { IfOk result (λ cie. cie_view R.stretch R.Offset.value cie
            ≡ cie_kept (R.stretch section.now) self.now) }
    {
        let offset = R::Offset::from_u64(self.head.offset)?;
        let length = R::Offset::from_u64(self.head.length)?;
        let skipped = R::Offset::from_u64(self.skipped)?;
        let count = R::Offset::from_u64(self.count)?;
        let mut rest = *section;
        rest.skip(skipped)?;
        let instructions = rest.split(count)?;
        Ok(CommonInformationEntry {
            head: Head { offset, length },
            format: self.format,
            version: self.version,
            address_size: self.address_size,
            augmentation: self.augmentation,
            code_alignment_factor: self.code_alignment_factor,
            data_alignment_factor: self.data_alignment_factor,
            return_address_register: self.return_address_register,
            instructions,
        })
    }
}

impl<'bases, Section: UnwindSection<R>, R: Reader> PartialFrameDescriptionEntry<
    'bases,
    Section,
    R,
> {
    /// Reads the whole entry, as [`parse_by_offset`](Self::parse_by_offset) does, by what is kept of its CIE.
    #[inline(always)]
    pub fn parse_by_kept(&self, kept: &KeptCie) -> Result<FrameDescriptionEntry<R>>
        requires { IsKeptAt (section_within R.Offset.limit Section.kind self.now.within)
            self.now.cie_offset kept.now }
        ensures { Gives (λ fde. fde) result (fde_of R.Offset.limit Section.kind self.now) }
    {
        match kept.cie(self.section.section()) {
            Ok(cie) => self.with_cie(cie),
            Err(_) => self.parse_by_offset(),
        }
    }
}
