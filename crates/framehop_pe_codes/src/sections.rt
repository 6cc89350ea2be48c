//! The sections of a PE file that unwinding reads.

ghost use Rattle.std.specs.Prelude.{◌≡◌, Ok, Err, IfOk, IfErr, IfSome, None};
ghost use Rattle.framehop_pe_codes.specs.Sections.{bytes_from, file_of, section_bytes, section_lent, section_of, text_memory, unwind_info_memory};

use framehop_code_rules::CodeRules;
use framehop_errors::PeUnwinderError;
use std::ops::Range;

/// The bytes of a section, and the range of addresses that it takes, relative to the file's base (RVA). The range may be
/// longer than the bytes, or shorter.
#[derive(Debug, Drop)]
pub struct DataAtRvaRange<'a> {
    /// The bytes, from the range's start on.
    pub bytes: &'a [u8],
    /// The addresses.
    pub rva_range: Range<u32>,
}

/// The sections of a PE file that unwinding reads.
#[derive(Debug, Clone, Copy)]
pub struct PeSections<'a> {
    /// The rows of functions, `.pdata`.
    pub pdata: &'a [u8],
    /// Whether the rows of `.pdata` are known to increase. It may be true only if they do (`pdata_is_increasing`).
    pub increasing: bool,
    /// `.rdata`, where unwind info is sought first.
    pub rdata: Option<&'a DataAtRvaRange<'a>>,
    /// `.xdata`, where it is sought next.
    pub xdata: Option<&'a DataAtRvaRange<'a>>,
    /// `.text`, the code.
    pub text: Option<&'a DataAtRvaRange<'a>>,
    /// By which rules the code is read.
    pub code_rules: CodeRules,
}

impl<'a> DataAtRvaRange<'a> {
    // The bytes from an address on.
    #[inline(always)]
    fn bytes_from(&self, address: u32) -> Option<&'a [u8]>
        ensures some { IfSome result (λ bytes. bytes_from (section_of self.now) address ≡ Some bytes.now) }
        ensures none { result ≡ None → bytes_from (section_of self.now) address ≡ None }
    {
        if address < self.rva_range.start || self.rva_range.end <= address {
            return None;
        }
        let offset = (address - self.rva_range.start) as usize;
        if self.bytes.len() < offset {
            return None;
        }
        Some(&self.bytes[offset..])
    }
}

// The bytes of a section from an address on, if there is a section.
#[inline(always)]
fn bytes_of<'a>(section: Option<&'a DataAtRvaRange<'a>>, address: u32) -> Option<&'a [u8]>
    ensures some { IfSome result (λ bytes. section_bytes (section_lent section.entry) address ≡ Some bytes.now) }
    ensures none { result ≡ None → section_bytes (section_lent section.entry) address ≡ None }
{
    match section {
        Some(section) => section.bytes_from(address),
        None => None,
    }
}

impl<'a> PeSections<'a> {
    /// The bytes of unwind info from an address on: those of `.rdata` if the address is in its range and not past its
    /// data, or else those of `.xdata`. Fails with `MissingUnwindInfoData`.
    #[tactic(auto, unfolding(crate::specs::Sections::file_of))]
    #[inline(always)]
    pub fn unwind_info_memory_at_rva(&self, rva: u32) -> Result<&'a [u8], PeUnwinderError>
        ensures ok { IfOk result (λ bytes. unwind_info_memory (file_of self.now) rva ≡ Ok bytes.now) }
        ensures err { IfErr result (λ e. unwind_info_memory (file_of self.now) rva ≡ Err e) }
    {
        if let Some(bytes) = bytes_of(self.rdata, rva) {
            return Ok(bytes);
        }
        if let Some(bytes) = bytes_of(self.xdata, rva) {
            return Ok(bytes);
        }
        Err(PeUnwinderError::MissingUnwindInfoData(rva))
    }

    /// The code from an address on. Fails with `MissingInstructionData` if the address is outside of the range of `.text`
    /// or past its data.
    #[tactic(auto, unfolding(crate::specs::Sections::file_of))]
    #[inline(always)]
    pub fn text_memory_at_rva(&self, rva: u32) -> Result<&'a [u8], PeUnwinderError>
        ensures ok { IfOk result (λ bytes. text_memory (file_of self.now) rva ≡ Ok bytes.now) }
        ensures err { IfErr result (λ e. text_memory (file_of self.now) rva ≡ Err e) }
    {
        match bytes_of(self.text, rva) {
            Some(bytes) => Ok(bytes),
            None => Err(PeUnwinderError::MissingInstructionData(rva)),
        }
    }
}
