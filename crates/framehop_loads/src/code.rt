//! The code of a module, as first frames may go by it.

ghost use Rattle.std.specs.Prelude.{◌≡◌, option_and_then, option_map, true};
ghost use Rattle.framehop_code.specs.Places as places;
ghost use Rattle.framehop_compact.specs.CompactFiles.{code_of};
ghost use Rattle.framehop_loads.specs.UnwindData.{bytes_of_code, code_in, goes_by_ways, text_of};
ghost use Rattle.framehop_loads.specs.UnwindDataViews.{UnlessWithTables, taken_bytes};

use crate::relative::relative_to;
use framehop_code::Code;
use framehop_code_rules::CodeRules;
use framehop_compact::TextBytes;
use framehop_modules::{
    ModuleSectionInfo, ModuleSections, SectionBytes, SectionData, text_section,
};
use std::marker::Model;

// Code, and its first address relative to the module's base.
#[derive(Drop)]
pub(crate) struct CodeAt<D: SectionBytes> {
    start: u32,
    bytes: D,
}

impl<D: SectionBytes> Model for CodeAt<D> {
    ghost use Rattle.framehop_compact.specs.CompactFiles.{Code};

    ghost Value = { Code };

    ghost view = { λ given. record { start = given.start; bytes = D.content given.bytes } };
}

// Whether first frames go by ways out of functions.
pub(crate) fn goes_by_ways(code_rules: CodeRules) -> bool
    ensures { result ≡ goes_by_ways code_rules }
{
    match code_rules {
        CodeRules::Published | CodeRules::Known => false,
        CodeRules::Ways => true,
    }
}

// The code of a section with its first address relative to a base, if it fits.
pub(crate) fn code_in<D: SectionBytes + Drop>(
    base_svma: u64,
    section: Option<SectionData<D>>,
) -> Option<CodeAt<D>>
    ensures { result ≡ option_and_then (code_in base_svma) (taken_bytes D.content section) }
{
    let section = section?;
    let start = relative_to(base_svma, section.svma_range.start)?;
    Some(CodeAt {
        start,
        bytes: section.bytes,
    })
}

// The section of code of a module whose tables have no code with them, if first frames go by ways out of functions.
pub(crate) fn text_beside<D: SectionBytes + Drop, I: ModuleSectionInfo<D>>(
    info: &mut I,
    code_rules: CodeRules,
    taken: &ModuleSections<D>,
    base_svma: u64,
) -> Option<CodeAt<D>>
    ensures { UnlessWithTables taken.now
        (goes_by_ways code_rules ≡ true → result ≡ text_of base_svma (I.sections info.old)) }
{
    if !goes_by_ways(code_rules) {
        return None;
    }
    match taken {
        ModuleSections::CompactUnwindInfoAndEhFrame { .. } | ModuleSections::PeUnwindInfo { .. } =>
            None,
        ModuleSections::EhFrame { .. }
        | ModuleSections::DebugFrame { .. }
        | ModuleSections::NoSections => code_in(base_svma, text_section(info)),
    }
}

impl<D: SectionBytes> CodeAt<D> {
    // The code, as compact unwind info takes it.
    pub(crate) fn text_bytes(&self) -> TextBytes<'_>
        ensures { code_of result ≡ self.now }
    {
        TextBytes::new(self.start, self.bytes.bytes())
    }
}

// Code that is lent, if there is some.
pub(crate) fn lent<D: SectionBytes>(code: &Option<CodeAt<D>>) -> Option<Code<'_>>
    ensures { option_map places.code_of result ≡ option_map bytes_of_code code.now }
{
    match code {
        Some(code) => Some(Code {
            begin: code.start.into(),
            bytes: code.bytes.bytes(),
        }),
        None => None,
    }
}
