//! Frame description entries.

ghost use Rattle.std.specs.Prelude.{◌≡◌, ◌≤◌, Some};
ghost use Rattle.dwarf_endianity.specs.Answers.{Gives};
ghost use Rattle.dwarf_frame_rows.specs.EncodedPointer.{pointer_at};
ghost use Rattle.dwarf_frame_entries.specs.CieReaders.{GivesByCies, ReadsCieOf};
ghost use Rattle.dwarf_frame_entries.specs.Entries.{code_range_at, contains, end_address, fde_of, fde_with, lsda_at};
ghost use Rattle.dwarf_frame_entries.specs.EntryViews.{cie_view};
ghost use Rattle.dwarf_frame_entries.specs.Getters.{is_signal_trampoline, personality};
ghost use Rattle.dwarf_frame_entries.specs.PointerViews.{ReadsIn};

use crate::augmentation::{Augmentation, read_data};
use crate::cie::{CommonInformationEntry, Head};
use crate::section::UnwindSection;
use dwarf_constants::{DwEhPe, Result};
use dwarf_frame_rows::{
    _UnwindSectionPrivate, BaseAddresses, Pointer, PointerEncodingParameters,
    parse_encoded_pointer, parse_encoded_value, sum_in_address_size,
};
use dwarf_readers::{Reader, ReaderOffset};
use std::marker::Model;

/// A frame description entry (FDE) whose CIE isn't read yet.
#[derive(Debug, Drop)]
pub struct PartialFrameDescriptionEntry<'bases, Section: UnwindSection<R>, R: Reader> {
    pub(crate) head: Head<R::Offset>,
    pub(crate) cie_offset: Section::Offset,
    pub(crate) rest: R,
    pub(crate) section: Section,
    pub(crate) bases: &'bases BaseAddresses,
}

impl<'bases, Section: UnwindSection<R>, R: Reader> Model
    for PartialFrameDescriptionEntry<'bases, Section, R> {
    ghost use Rattle.std.specs.Prelude.{◌≤◌};
    ghost use Rattle.dwarf_frame_entries.specs.Entries.{PartialFde};
    ghost use Rattle.dwarf_frame_entries.specs.HeadViews.{head_view};
    ghost use Rattle.dwarf_frame_rows.specs.FrameSection.{section_data};

    ghost Value = { PartialFde };

    ghost view = { λ fde. record {
      head = head_view R.Offset.value fde.head;
      cie_offset = Section.Offset.number fde.cie_offset;
      within = section_data (Section.size fde.section)
          (R.stretch (Section.reader fde.section)) fde.bases.now;
      rest = R.stretch fde.rest;
    } };

    ghost invariant = { λ fde.
        (R.stretch (Section.reader fde.section)).offset ≤ (R.stretch fde.rest).offset };
}

impl<'bases, Section: UnwindSection<R>, R: Reader> PartialFrameDescriptionEntry<
    'bases,
    Section,
    R,
> {
    /// The offset of the entry from the section's start, in bytes.
    pub fn offset(&self) -> R::Offset
        ensures { R.Offset.value result ≡ self.now.head.offset }
    {
        self.head.offset
    }

    /// The offset of its CIE from the section's start, in bytes.
    pub fn cie_offset(&self) -> Section::Offset
        ensures { Section.Offset.number result ≡ self.now.cie_offset }
    {
        self.cie_offset
    }

    /// The length with which the entry begins: how many bytes follow it.
    pub fn entry_len(&self) -> R::Offset
        ensures { R.Offset.value result ≡ self.now.head.length }
    {
        self.head.length
    }

    /// Reads the whole entry. `get_cie` is called once, with the section in which this entry was
    /// read, its bases, and the offset of the CIE. If it returns what `cie_from_offset` does, or
    /// `OutOfMemory`, this is the entry, or the error of reading it, or that `OutOfMemory`.
    #[inline(always)]
    pub fn parse<
        F: FnMut(&Section, &BaseAddresses, Section::Offset) -> Result<CommonInformationEntry<R>>,
    >(&self, mut get_cie: F) -> Result<FrameDescriptionEntry<R>>
        requires { F.IsAlwaysCallable get_cie }
        ensures { GivesByCies (ReadsCieOf F.step R.stretch R.Offset.value Section.frame
            Section.Offset.number self.now get_cie) result
            (fde_of R.Offset.limit Section.kind self.now) }
    {
        let cie = get_cie(&self.section, self.bases, self.cie_offset)?;
        self.with_cie(cie)
    }

    /// Reads the whole entry, as [`parse`](Self::parse) with `cie_from_offset` does: its CIE is
    /// read at its offset in the section in which this entry was read.
    #[inline(always)]
    pub fn parse_by_offset(&self) -> Result<FrameDescriptionEntry<R>>
        ensures { Gives (λ fde. fde) result (fde_of R.Offset.limit Section.kind self.now) }
    {
        let cie = self.section.cie_from_offset(self.bases, self.cie_offset)?;
        self.with_cie(cie)
    }

    // The whole entry, by its CIE.
    #[inline(always)]
    pub(crate) fn with_cie(
        &self,
        cie: CommonInformationEntry<R>,
    ) -> Result<FrameDescriptionEntry<R>>
        ensures { Gives (λ fde. fde) result (fde_with R.Offset.limit self.now
            (cie_view R.stretch R.Offset.value cie)) }
    {
        let mut rest = self.rest;
        let mut parameters = PointerEncodingParameters {
            bases: &self.bases.eh_frame,
            func_base: None,
            address_size: cie.address_size,
            section: self.section.section(),
        };
        let (initial_address, address_range) = read_addresses(
            cie.fde_address_encoding(),
            &parameters,
            &mut rest,
        )?;
        parameters.func_base = Some(initial_address);
        let lsda = read_lsda(&cie.augmentation, &parameters, &mut rest)?;
        Ok(FrameDescriptionEntry {
            head: self.head,
            cie,
            initial_address,
            address_range,
            lsda,
            instructions: rest,
        })
    }
}

// The encoding that compilers write for the first address of the code: `DW_EH_PE_pcrel` and `DW_EH_PE_sdata4`, that is by four bytes
// from the pointer itself.
const COMPILED: DwEhPe = DwEhPe(0x1b);

// Reads the first address of the code and the size of the code in bytes. The code for the encoding that compilers write is apart, since
// that is known there.
#[inline(always)]
fn read_addresses<R: Reader>(
    encoding: Option<DwEhPe>,
    parameters: &PointerEncodingParameters<'_, R>,
    input: &mut R,
) -> Result<(u64, u64)>
    requires { (R.stretch parameters.now.section.now).offset ≤ (R.stretch input.old).offset }
    ensures { ReadsIn R.stretch parameters.now (λ origins. code_range_at origins encoding)
        input.old result input.new }
{
    let size = parameters.address_size;
    match encoding {
        Some(COMPILED) => read_encoded_addresses(COMPILED, parameters, input),
        Some(encoding) => read_encoded_addresses(encoding, parameters, input),
        None => {
            let initial_address = input.read_address(size)?;
            let address_range = input.read_address(size)?;
            Ok((initial_address, address_range))
        }
    }
}

// Reads the same as they are encoded.
#[inline(always)]
fn read_encoded_addresses<R: Reader>(
    encoding: DwEhPe,
    parameters: &PointerEncodingParameters<'_, R>,
    input: &mut R,
) -> Result<(u64, u64)>
    requires { (R.stretch parameters.now.section.now).offset ≤ (R.stretch input.old).offset }
    ensures { ReadsIn R.stretch parameters.now (λ origins. code_range_at origins (Some encoding))
        input.old result input.new }
{
    // The flag for an indirect pointer is ignored: the code begins at the pointer itself.
    let initial_address = parse_encoded_pointer(encoding, parameters, input)?.pointer();
    let address_range = parse_encoded_value(encoding, parameters.address_size, input)?;
    Ok((initial_address, address_range))
}

// Reads an FDE's augmentation data, if its CIE says that there is any, and in it the pointer to
// language-specific data.
#[inline(always)]
fn read_lsda<R: Reader>(
    augmentation: &Option<Augmentation>,
    parameters: &PointerEncodingParameters<'_, R>,
    input: &mut R,
) -> Result<Option<Pointer>>
    requires { (R.stretch parameters.now.section.now).offset ≤ (R.stretch input.old).offset }
    ensures { ReadsIn R.stretch parameters.now
        (λ origins. lsda_at R.Offset.limit origins augmentation.now) input.old result input.new }
{
    let Some(augmentation) = augmentation else {
        return Ok(None);
    };
    if !augmentation.has_data {
        return Ok(None);
    }
    let mut data = read_data(input)?;
    let Some(encoding) = augmentation.lsda else {
        return Ok(None);
    };
    let pointer = read_lsda_pointer(encoding, parameters, &mut data)?;
    Ok(Some(pointer))
}

// Reads the pointer to language-specific data. Few FDEs have one, so this isn't inlined.
#[inline(never)]
fn read_lsda_pointer<R: Reader>(
    encoding: DwEhPe,
    parameters: &PointerEncodingParameters<'_, R>,
    input: &mut R,
) -> Result<Pointer>
    requires { (R.stretch parameters.now.section.now).offset ≤ (R.stretch input.old).offset }
    ensures { ReadsIn R.stretch parameters.now (λ origins. pointer_at origins encoding.0)
        input.old result input.new }
{
    parse_encoded_pointer(encoding, parameters, input)
}

/// A frame description entry (FDE) with its CIE: how a range of code is unwound (DWARF 5, 6.4.1).
#[derive(Debug, Clone, Drop)]
pub struct FrameDescriptionEntry<R: Reader> {
    head: Head<R::Offset>,
    pub(crate) cie: CommonInformationEntry<R>,
    pub(crate) initial_address: u64,
    address_range: u64,
    lsda: Option<Pointer>,
    pub(crate) instructions: R,
}

impl<R: Reader> Model for FrameDescriptionEntry<R> {
    ghost use Rattle.std.specs.Prelude.{IsTrue};
    ghost use Rattle.dwarf_readers.specs.InitialLength.{is_size};
    ghost use Rattle.dwarf_frame_entries.specs.Entries.{Fde};
    ghost use Rattle.dwarf_frame_entries.specs.EntryViews.{cie_view};
    ghost use Rattle.dwarf_frame_entries.specs.HeadViews.{head_view};

    ghost Value = { Fde };

    ghost view = { λ fde. record {
      head = head_view R.Offset.value fde.head;
      cie = cie_view R.stretch R.Offset.value fde.cie;
      initial_address = fde.initial_address;
      address_range = fde.address_range;
      lsda = fde.lsda;
      instructions = R.stretch fde.instructions;
    } };

    ghost invariant = { λ fde. IsTrue (is_size fde.cie.address_size) };
}

impl<R: Reader> FrameDescriptionEntry<R> {
    /// The offset of the entry from the section's start, in bytes.
    pub fn offset(&self) -> R::Offset
        ensures { R.Offset.value result ≡ self.now.head.offset }
    {
        self.head.offset
    }

    /// Its CIE.
    pub fn cie(&self) -> &CommonInformationEntry<R>
        ensures { cie_view R.stretch R.Offset.value result.now ≡ self.now.cie }
    {
        &self.cie
    }

    /// The length with which the entry begins: how many bytes follow it.
    pub fn entry_len(&self) -> R::Offset
        ensures { R.Offset.value result ≡ self.now.head.length }
    {
        self.head.length
    }

    /// The first address of the code.
    pub fn initial_address(&self) -> u64
        ensures { result ≡ self.now.initial_address }
    {
        self.initial_address
    }

    /// The address after the code, modulo 2^8, 2^16, 2^32 or 2^64 by the size of an address.
    pub fn end_address(&self) -> u64
        ensures { result ≡ end_address self.now }
    {
        sum_in_address_size(
            self.initial_address,
            self.address_range,
            self.cie.address_size,
        )
    }

    /// The size of the code in bytes.
    pub fn len(&self) -> u64
        ensures { result ≡ self.now.address_range }
    {
        self.address_range
    }

    /// Whether the code contains the address: it is at or above the initial address, and below the
    /// end.
    pub fn contains(&self, address: u64) -> bool
        ensures { result ≡ contains address self.now }
    {
        self.initial_address <= address && address < self.end_address()
    }

    /// The pointer to language-specific data, if there is one.
    pub fn lsda(&self) -> Option<Pointer>
        ensures { result ≡ self.now.lsda }
    {
        self.lsda
    }

    /// Whether the frame is that of a signal handler, whose caller was interrupted.
    pub fn is_signal_trampoline(&self) -> bool
        ensures { result ≡ is_signal_trampoline self.now.cie }
    {
        self.cie.is_signal_trampoline()
    }

    /// The pointer to the personality routine, if there is one.
    pub fn personality(&self) -> Option<Pointer>
        ensures { result ≡ personality self.now.cie }
    {
        self.cie.personality()
    }
}
