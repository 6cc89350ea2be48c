//! Common information entries.

ghost use Rattle.std.specs.Prelude.{◌≡◌, option_map, is_some};
ghost use Rattle.dwarf_frame_entries.specs.Getters.{is_signal_trampoline, lsda_encoding, personality, personality_with_encoding, cie_encoding};
ghost use Rattle.dwarf_frame_entries.specs.Entries.{address_encoding};

use crate::augmentation::Augmentation;
use dwarf_constants::{DwEhPe, Encoding, Format, Register};
use dwarf_frame_rows::Pointer;
use dwarf_readers::{Reader, ReaderOffset};
use std::alloc::AllocError;

// What entries of both kinds have.
#[derive(Debug, Clone, Copy)]
pub(crate) struct Head<T> {
    // From the section's start, in bytes.
    pub(crate) offset: T,
    // How many bytes follow the field itself.
    pub(crate) length: T,
}

/// A common information entry (CIE): what several FDEs have in common (DWARF 5, 6.4.1).
#[derive(Debug, Drop)]
pub struct CommonInformationEntry<R: Reader> {
    pub(crate) head: Head<R::Offset>,
    // That of the length. FDEs don't keep theirs.
    pub(crate) format: Format,
    pub(crate) version: u8,
    pub(crate) address_size: u8,
    pub(crate) augmentation: Option<Augmentation>,
    pub(crate) code_alignment_factor: u64,
    pub(crate) data_alignment_factor: i64,
    pub(crate) return_address_register: Register,
    pub(crate) instructions: R,
}

/// A copy takes no memory.
impl<R: Reader> Clone for CommonInformationEntry<R> {
    ghost is_clone = { λ cie copy. copy ≡ cie };

    ghost is_infallible = { λ _. Unit {0} };

    #[inline(always)]
    fn clone(&self) -> std::result::Result<Self, AllocError> {
        Ok(CommonInformationEntry {
            head: self.head,
            format: self.format,
            version: self.version,
            address_size: self.address_size,
            augmentation: self.augmentation,
            code_alignment_factor: self.code_alignment_factor,
            data_alignment_factor: self.data_alignment_factor,
            return_address_register: self.return_address_register,
            instructions: self.instructions,
        })
    }
}

impl<R: Reader> CommonInformationEntry<R> {
    ghost use Rattle.dwarf_frame_entries.specs.EntryViews.{cie_view};

    /// The offset of the entry from the section's start, in bytes.
    pub fn offset(&self) -> R::Offset
        ensures { R.Offset.value result ≡ (cie_view R.stretch R.Offset.value self.now).head.offset }
    {
        self.head.offset
    }

    /// The size of addresses, the format and the version.
    pub fn encoding(&self) -> Encoding
        ensures { result ≡ cie_encoding (cie_view R.stretch R.Offset.value self.now) }
    {
        Encoding {
            address_size: self.address_size,
            format: self.format,
            version: u16::from(self.version),
        }
    }

    /// The size of an address in bytes.
    pub fn address_size(&self) -> u8
        ensures { result ≡ (cie_view R.stretch R.Offset.value self.now).address_size }
    {
        self.address_size
    }

    /// The length with which the entry begins: how many bytes follow it.
    pub fn entry_len(&self) -> R::Offset
        ensures { R.Offset.value result ≡ (cie_view R.stretch R.Offset.value self.now).head.length }
    {
        self.head.length
    }

    /// The version: 1, 3 or 4.
    pub fn version(&self) -> u8
        ensures { result ≡ (cie_view R.stretch R.Offset.value self.now).version }
    {
        self.version
    }

    /// The augmentation, if the entry has one.
    pub fn augmentation(&self) -> Option<&Augmentation>
        ensures { option_map (λ augmentation. augmentation.now) result
            ≡ (cie_view R.stretch R.Offset.value self.now).augmentation }
    {
        self.augmentation.as_ref()
    }

    /// Whether FDEs have a pointer to language-specific data.
    pub fn has_lsda(&self) -> bool
        ensures { result ≡ is_some (lsda_encoding (cie_view R.stretch R.Offset.value self.now)) }
    {
        self.lsda_encoding().is_some()
    }

    /// The encoding of an FDE's pointer to language-specific data, if FDEs have one.
    pub fn lsda_encoding(&self) -> Option<DwEhPe>
        ensures { result ≡ lsda_encoding (cie_view R.stretch R.Offset.value self.now) }
    {
        match self.augmentation {
            Some(augmentation) => augmentation.lsda,
            None => None,
        }
    }

    /// The pointer to the personality routine, with its encoding, if there is one.
    pub fn personality_with_encoding(&self) -> Option<(DwEhPe, Pointer)>
        ensures { result ≡ personality_with_encoding (cie_view R.stretch R.Offset.value self.now) }
    {
        match self.augmentation {
            Some(augmentation) => augmentation.personality,
            None => None,
        }
    }

    /// The pointer to the personality routine, if there is one.
    pub fn personality(&self) -> Option<Pointer>
        ensures { result ≡ personality (cie_view R.stretch R.Offset.value self.now) }
    {
        match self.personality_with_encoding() {
            Some((_, pointer)) => Some(pointer),
            None => None,
        }
    }

    /// The encoding of the addresses of FDEs, unless they are absolute.
    pub fn fde_address_encoding(&self) -> Option<DwEhPe>
        ensures { result ≡ address_encoding (cie_view R.stretch R.Offset.value self.now) }
    {
        match self.augmentation {
            Some(augmentation) => augmentation.fde_address_encoding,
            None => None,
        }
    }

    /// Whether the frame is that of a signal handler, whose caller was interrupted.
    pub fn is_signal_trampoline(&self) -> bool
        ensures { result ≡ is_signal_trampoline (cie_view R.stretch R.Offset.value self.now) }
    {
        match self.augmentation {
            Some(augmentation) => augmentation.is_signal_trampoline,
            None => false,
        }
    }

    /// The factor of the delta of each instruction that advances the location.
    pub fn code_alignment_factor(&self) -> u64
        ensures { result ≡ (cie_view R.stretch R.Offset.value self.now).code_alignment_factor }
    {
        self.code_alignment_factor
    }

    /// The factor of each factored offset.
    pub fn data_alignment_factor(&self) -> i64
        ensures { result ≡ (cie_view R.stretch R.Offset.value self.now).data_alignment_factor }
    {
        self.data_alignment_factor
    }

    /// The register in whose column the rows have the return address.
    pub fn return_address_register(&self) -> Register
        ensures { result ≡ (cie_view R.stretch R.Offset.value self.now).return_address_register }
    {
        self.return_address_register
    }
}
