//! Steps by compact unwind info.

ghost use Rattle.std.specs.Prelude.{◌≡◌, ◌≤◌, ◌↔◌, IfOk, IsTrue, true, false};
ghost use Rattle.framehop_code_rules.specs.declared.CodeRules.TheVariants.{Published};
ghost use Rattle.framehop_compact_tables.specs.Functions.{ContainsAddress};
ghost use Rattle.framehop_compact_tables.specs.CountedLookups.{AreFewIfIncreasing};
ghost use Rattle.framehop_compact_tables.specs.Increasing.{IsIncreasing};
ghost use Rattle.framehop_compact.specs.CompactResults.{HasValidCuiRule};
ghost use Rattle.framehop_compact.specs.CompactFiles.{file_of};
ghost use Rattle.framehop_compact.specs.CompactSteps.{compact_step, first_or, found_function, step_in};

use crate::cui_unwind_result::CuiUnwindResult;
use crate::macho::CompactUnwindInfoUnwinding;
use crate::sections::{CompactSections, Place, TextBytes};
use dwarf_readers::Steps;
use framehop_code_rules::CodeRules;
use framehop_compact_tables::{Function, UnwindInfo};
use framehop_errors::CompactUnwindInfoUnwinderError;
use framehop_rules::UnwindRule;
use std::marker::PhantomData;
use std::sync::ledger::Ledger;

/// Unwinds by compact unwind info on the architecture `A`.
#[derive(Debug, Clone, Copy)]
pub struct CompactUnwindInfoUnwinder<'a, A: CompactUnwindInfoUnwinding> {
    /// What it reads.
    pub sections: CompactSections<'a>,
    arch: PhantomData<A>,
}

// The rule in a first frame, or else the error.
fn first_or<R: Copy>(
    is_first_frame: bool,
    rule: R,
    error: CompactUnwindInfoUnwinderError,
) -> Result<CuiUnwindResult<R>, CompactUnwindInfoUnwinderError>
    ensures { result ≡ first_or is_first_frame rule error }
{
    if is_first_frame {
        Ok(CuiUnwindResult::ExecRule(rule))
    } else {
        Err(error)
    }
}

impl<'a, A: CompactUnwindInfoUnwinding> CompactUnwindInfoUnwinder<'a, A> {
    /// An unwinder by the bytes of `__unwind_info`, the bytes of code if they are there, and the ranges of `__stubs` and
    /// `__stub_helper`, which are empty where a file has none. Lookups pass over the tables, and code is read by the rules of the
    /// original.
    pub fn new(
        unwind_info_data: &'a [u8],
        text_bytes: Option<TextBytes<'a>>,
        stubs_range: (u32, u32),
        stub_helper_range: (u32, u32),
    ) -> Self
        ensures tables { result.sections.unwind_info.bytes.now ≡ unwind_info_data.now }
        ensures passes { result.sections.unwind_info.increasing ≡ false }
        ensures text { result.sections.text ≡ text_bytes.entry }
        ensures ranges { (result.sections.stubs ≡ stubs_range)
            × (result.sections.stub_helper ≡ stub_helper_range) }
        ensures code_rules { result.sections.code_rules ≡ Published }
    {
        CompactUnwindInfoUnwinder {
            sections: CompactSections {
                unwind_info: UnwindInfo::new(unwind_info_data),
                text: text_bytes,
                stubs: stubs_range,
                stub_helper: stub_helper_range,
                code_rules: CodeRules::Published,
            },
            arch: PhantomData,
        }
    }

    /// As `new`, for tables that increase (`is_increasing`). Lookups halve them.
    pub fn new_increasing(
        unwind_info_data: &'a [u8],
        text_bytes: Option<TextBytes<'a>>,
        stubs_range: (u32, u32),
        stub_helper_range: (u32, u32),
    ) -> Self
        requires { IsIncreasing unwind_info_data.now }
        ensures tables { result.sections.unwind_info.bytes.now ≡ unwind_info_data.now }
        ensures halves { result.sections.unwind_info.increasing ≡ true }
        ensures text { result.sections.text ≡ text_bytes.entry }
        ensures ranges { (result.sections.stubs ≡ stubs_range)
            × (result.sections.stub_helper ≡ stub_helper_range) }
        ensures code_rules { result.sections.code_rules ≡ Published }
    {
        CompactUnwindInfoUnwinder {
            sections: CompactSections {
                unwind_info: UnwindInfo::new_increasing(unwind_info_data),
                text: text_bytes,
                stubs: stubs_range,
                stub_helper: stub_helper_range,
                code_rules: CodeRules::Published,
            },
            arch: PhantomData,
        }
    }

    /// The same unwinder, which reads code by these rules.
    pub fn with_code_rules(self, code_rules: CodeRules) -> Self
        ensures { result.sections ≡ record self.entry.sections { code_rules = code_rules } }
    {
        CompactUnwindInfoUnwinder {
            sections: CompactSections {
                code_rules,
                ..self.sections
            },
            arch: PhantomData,
        }
    }

    /// Whether the tables of `__unwind_info` are whole and their starts increase strictly. Linkers write them so.
    pub fn is_increasing(unwind_info_data: &[u8]) -> bool
        ensures { IsTrue result ↔ IsIncreasing unwind_info_data.now }
    {
        framehop_compact_tables::is_increasing(unwind_info_data)
    }

    /// The function that contains an address, which is relative to the module's base. Fails with `AddressOutsideRange` if there
    /// is none, and with `BadFormat` if the tables can't be read.
    pub fn function_for_address(
        &self,
        address: u32,
    ) -> Result<Function, CompactUnwindInfoUnwinderError>
        ensures function { result ≡ found_function self.now.sections.unwind_info.bytes.now address }
        ensures contains { IfOk result (λ function. ContainsAddress function address) }
    {
        self.sections.unwind_info.lookup(address)?.ok_or(
            CompactUnwindInfoUnwinderError::AddressOutsideRange(address),
        )
    }

    /// As `function_for_address`. It counts a step for each start that it reads to search; after `new_increasing` they are at
    /// most ceil(log2(n)) + 1 for each of the two tables of n rows.
    pub fn function_for_address_counted<L: Ledger>(
        &self,
        address: u32,
        steps: &mut Steps<L>,
    ) -> Result<Function, CompactUnwindInfoUnwinderError>
        ensures function { result ≡ found_function self.now.sections.unwind_info.bytes.now address }
        ensures contains { IfOk result (λ function. ContainsAddress function address) }
        ensures few { AreFewIfIncreasing self.now.sections.unwind_info address steps.old steps.new }
    {
        self.sections
            .unwind_info
            .lookup_counted(address, steps)?
            .ok_or(CompactUnwindInfoUnwinderError::AddressOutsideRange(address))
    }

    // The step in a function.
    fn unwind_function(
        &self,
        function: Function,
        address: u32,
        is_first_frame: bool,
    ) -> Result<CuiUnwindResult<A::UnwindRule>, CompactUnwindInfoUnwinderError>
        requires { ContainsAddress function address }
        ensures step { result ≡ step_in A.compact (file_of self.now.sections) address is_first_frame function }
        ensures valid { HasValidCuiRule A.UnwindRule.is_valid result }
    {
        if is_first_frame && address == function.start_address {
            return Ok(CuiUnwindResult::ExecRule(A::UnwindRule::rule_for_function_start()));
        }
        let offset = (address - function.start_address) as usize;
        let bytes = self.sections.function_bytes(function);
        A::unwind_frame(function, is_first_frame, offset, bytes)
    }

    /// The step at an address, which is relative to the module's base: that of a return address's frame is looked up one
    /// below.
    pub fn unwind_frame(
        &self,
        address: u32,
        is_first_frame: bool,
    ) -> Result<CuiUnwindResult<A::UnwindRule>, CompactUnwindInfoUnwinderError>
        ensures step { result ≡ compact_step A.compact (file_of self.now.sections) address is_first_frame }
        ensures valid { HasValidCuiRule A.UnwindRule.is_valid result }
    {
        let not_a_caller = CompactUnwindInfoUnwinderError::StubFunctionCannotBeCaller;
        let outside = CompactUnwindInfoUnwinderError::AddressOutsideRange(address);
        match self.sections.place_of(address)? {
            Place::Stubs => {
                let rule = A::UnwindRule::rule_for_stub_functions();
                first_or(is_first_frame, rule, not_a_caller)
            }
            Place::StubHelper(offset) if is_first_frame => {
                A::rule_for_stub_helper(self.sections.code_rules, offset)
            }
            Place::StubHelper(_) => Err(not_a_caller),
            Place::Function(function) => { self.unwind_function(function, address, is_first_frame) }
            Place::NoFunction => {
                let rule = A::UnwindRule::rule_for_stub_functions();
                first_or(is_first_frame, rule, outside)
            }
        }
    }
}
