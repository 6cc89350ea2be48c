//! The sections of a Mach-O file that compact unwind info needs, and where in them an address is.

ghost use Rattle.std.specs.Prelude.{◌≡◌, ◌≤◌, ◌-◌, length, IfOk, IfSome};
ghost use Rattle.std.specs.Option.{option_map};
ghost use Rattle.framehop_compact_tables.specs.Functions.{ContainsAddress};
ghost use Rattle.framehop_compact.specs.CompactFiles.{code_of, file_of};
ghost use Rattle.framehop_compact.specs.Places.{in_range, place_of, function_text, IfInFunction};

use framehop_code_rules::CodeRules;
use framehop_compact_tables::{Function, UnwindInfo};
use framehop_errors::CompactUnwindInfoUnwinderError;

/// Bytes of code, from an address on, which is relative to the module's base.
#[derive(Debug, Clone, Copy)]
pub struct TextBytes<'a> {
    /// The address of the first.
    pub offset_from_base_address: u32,
    /// The bytes.
    pub bytes: &'a [u8],
}

impl<'a> TextBytes<'a> {
    /// These bytes from this address on.
    pub fn new(offset_from_base_address: u32, bytes: &'a [u8]) -> Self
        ensures offset { result.offset_from_base_address ≡ offset_from_base_address }
        ensures same_bytes { result.bytes.now ≡ bytes.now }
    {
        TextBytes {
            offset_from_base_address,
            bytes,
        }
    }
}

/// The sections that compact unwind info needs. Ranges of addresses are relative to the module's base, and end before
/// their second number.
#[derive(Debug, Clone, Copy)]
pub struct CompactSections<'a> {
    /// `__unwind_info`.
    pub unwind_info: UnwindInfo<'a>,
    /// The code: `__TEXT`, or `__text`.
    pub text: Option<TextBytes<'a>>,
    /// The range of `__stubs`.
    pub stubs: (u32, u32),
    /// The range of `__stub_helper`.
    pub stub_helper: (u32, u32),
    /// By which rules code is read.
    pub code_rules: CodeRules,
}

/// Where an address is.
#[derive(Debug, Clone, Copy, PartialEq, Eq)]
pub enum Place {
    /// In `__stubs`.
    Stubs,
    /// At an offset in `__stub_helper`.
    StubHelper(u32),
    /// In a function.
    Function(Function),
    /// In none of these.
    NoFunction,
}

// Whether a range contains an address.
fn in_range(range: (u32, u32), address: u32) -> bool
    ensures { result ≡ in_range range address }
{
    range.0 <= address && address < range.1
}

impl<'a> CompactSections<'a> {
    /// Where an address is. `__unwind_info` doesn't describe the stubs. Fails with `BadFormat` if its tables can't be read.
    pub fn place_of(&self, address: u32) -> Result<Place, CompactUnwindInfoUnwinderError>
        ensures place { result ≡ place_of (file_of self.now) address }
        ensures contains { IfOk result (λ place. IfInFunction place (λ function. ContainsAddress function address)) }
    {
        if in_range(self.stubs, address) {
            return Ok(Place::Stubs);
        }
        if in_range(self.stub_helper, address) {
            return Ok(Place::StubHelper(address - self.stub_helper.0));
        }
        match self.unwind_info.lookup(address)? {
            Some(function) => Ok(Place::Function(function)),
            None => Ok(Place::NoFunction),
        }
    }

    // The bytes of a function, if the text has it whole.
    pub(crate) fn function_bytes(&self, function: Function) -> Option<&'a [u8]>
        requires { function.start_address ≤ function.end_address }
        ensures some { IfSome result (λ bytes. length bytes.now ≡ function.end_address - function.start_address) }
        ensures text { option_map (λ bytes. bytes.now) result ≡ function_text (option_map code_of self.now.text) function }
    {
        let text = self.text?;
        let first = text.offset_from_base_address;
        if function.start_address < first {
            return None;
        }
        let start = (function.start_address - first) as usize;
        let end = (function.end_address - first) as usize;
        if text.bytes.len() < end {
            return None;
        }
        Some(&text.bytes[start..end])
    }
}
