//! Mach-O files with compact unwind info, as steps take it.

ghost use Rattle.std.specs.Prelude.{◌≡◌, option_map};
ghost use Rattle.framehop_code.specs.Places as places;
ghost use Rattle.framehop_compact.specs.CompactFiles.{code_of, file_of};
ghost use Rattle.framehop_compact.specs.CompactResults.{HasValidCuiRule};
ghost use Rattle.framehop_compact.specs.CompactSteps.{compact_step};
ghost use Rattle.framehop_compact.specs.Places.{place_of};
ghost use Rattle.framehop_loads.specs.UnwindData.{bytes_of_code, stub_range};
ghost use Rattle.framehop_loads.specs.UnwindDataViews.{compact_taken};
ghost use Rattle.framehop_loads.specs.WayBounds.{bounds_in, function_range};

use crate::code::{CodeAt, code_in, lent};
use crate::relative::relative_range;
use framehop_code::{Code, CodeRange};
use framehop_code_rules::CodeRules;
use framehop_compact::{
    CompactUnwindInfoUnwinder, CompactUnwindInfoUnwinding, CuiUnwindResult, Function, Place,
    TextBytes,
};
use framehop_errors::CompactUnwindInfoUnwinderError;
use framehop_modules::{SectionBytes, SectionData};
use std::marker::Model;
use std::ops::Range;

/// A Mach-O file with compact unwind info.
#[derive(Drop)]
pub struct CompactModule<D: SectionBytes> {
    unwind_info: D,
    // Whether the tables are known to increase.
    increasing: bool,
    // The ranges of stubs, relative to the module's base; empty ones if it has none.
    stubs: (u32, u32),
    stub_helper: (u32, u32),
    text: Option<CodeAt<D>>,
    // By which rules code is read.
    code_rules: CodeRules,
}

impl<D: SectionBytes> Model for CompactModule<D> {
    ghost use Rattle.std.specs.Prelude.{IsTrue};
    ghost use Rattle.framehop_compact.specs.CompactFiles.{CompactFile};
    ghost use Rattle.framehop_compact_tables.specs.Increasing.{IsIncreasing};

    ghost Value = { CompactFile };

    ghost view = { λ given. record {
      unwind_info = D.content given.unwind_info;
      text = given.text;
      stubs = given.stubs;
      stub_helper = given.stub_helper;
      code_rules = given.code_rules;
    } };

    // tables that are said to increase do
    ghost invariant = { λ given. IsTrue given.increasing → IsIncreasing (D.content given.unwind_info) };
}

// The range of a section of stubs relative to a base, which is empty if there is none.
fn stub_range(base_svma: u64, svma_range: Option<Range<u64>>) -> (u32, u32)
    ensures { result ≡ stub_range base_svma svma_range }
{
    let Some(svma_range) = svma_range else {
        return (0, 0);
    };
    match relative_range(base_svma, &svma_range) {
        Some(range) => (range.start, range.end),
        None => (0, 0),
    }
}

// The code of a function.
fn function_range(function: Function) -> CodeRange
    ensures { result ≡ function_range function }
{
    CodeRange {
        begin: function.start_address.into(),
        end: function.end_address.into(),
    }
}

// Code that is lent, if there is some.
fn text_of<D: SectionBytes>(code: &Option<CodeAt<D>>) -> Option<TextBytes<'_>>
    ensures { option_map code_of result ≡ code.now }
{
    match code {
        Some(code) => Some(code.text_bytes()),
        None => None,
    }
}

impl<D: SectionBytes + Drop> CompactModule<D> {
    // The Mach-O file of a module with these sections, whose code is read by these rules. Tests whether its tables increase.
    pub(crate) fn new(
        rules: CodeRules,
        base_svma: u64,
        unwind_info: D,
        stubs_svma: Option<Range<u64>>,
        stub_helper_svma: Option<Range<u64>>,
        text: Option<SectionData<D>>,
    ) -> Self
        ensures { result ≡ compact_taken D.content rules base_svma unwind_info stubs_svma
            stub_helper_svma text }
    {
        let increasing = framehop_compact_tables::is_increasing(unwind_info.bytes());
        CompactModule {
            unwind_info,
            increasing,
            stubs: stub_range(base_svma, stubs_svma),
            stub_helper: stub_range(base_svma, stub_helper_svma),
            text: code_in(base_svma, text),
            code_rules: rules,
        }
    }
}

impl<D: SectionBytes> CompactModule<D> {
    // The unwinder by the tables of the file.
    fn unwinder<A: CompactUnwindInfoUnwinding>(&self) -> CompactUnwindInfoUnwinder<'_, A>
        ensures { file_of result.sections ≡ self.now }
    {
        let unwind_info = self.unwind_info.bytes();
        let text = text_of(&self.text);
        let unwinder = if self.increasing {
            CompactUnwindInfoUnwinder::new_increasing(
                unwind_info,
                text,
                self.stubs,
                self.stub_helper,
            )
        } else {
            CompactUnwindInfoUnwinder::new(unwind_info, text, self.stubs, self.stub_helper)
        };
        unwinder.with_code_rules(self.code_rules)
    }

    /// What the tables of the file say of a frame at a relative address.
    pub fn said_by_tables<A: CompactUnwindInfoUnwinding>(
        &self,
        relative_address: u32,
        is_first_frame: bool,
    ) -> Result<CuiUnwindResult<A::UnwindRule>, CompactUnwindInfoUnwinderError>
        ensures step { result ≡ compact_step A.compact self.now relative_address is_first_frame }
        ensures valid { HasValidCuiRule A.UnwindRule.is_valid result }
    {
        self.unwinder::<A>()
            .unwind_frame(relative_address, is_first_frame)
    }

    /// The code of the file, at addresses relative to its base.
    pub(crate) fn code(&self) -> Option<Code<'_>>
        ensures { option_map places.code_of result ≡ option_map bytes_of_code self.now.text }
    {
        lent(&self.text)
    }

    /// The bounds of the code around a relative address, unless that is in stubs.
    pub(crate) fn way_bounds<A: CompactUnwindInfoUnwinding>(
        &self,
        relative_address: u32,
    ) -> Option<CodeRange>
        ensures { result ≡ bounds_in (place_of self.now relative_address) }
    {
        match self.unwinder::<A>().sections.place_of(relative_address) {
            Ok(Place::Stubs) | Ok(Place::StubHelper(_)) => None,
            Ok(Place::Function(function)) => Some(function_range(function)),
            Ok(Place::NoFunction) | Err(_) => Some(CodeRange::everywhere()),
        }
    }
}
