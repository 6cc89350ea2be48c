//! The step by the encoding of a function, on any architecture.

ghost use Rattle.std.specs.Prelude.{◌≡◌, ◌≤◌, length, Ok, IfSome};
ghost use Rattle.framehop_compact.specs.Analysed.{lent_bytes};
ghost use Rattle.framehop_compact.specs.CompactMeanings.{CompactMeanings};
ghost use Rattle.framehop_compact.specs.CompactResults.{HasValidCuiRule};
ghost use Rattle.framehop_compact.specs.declared.cui_unwind_result.CuiUnwindResult.TheVariants.{ExecRule};

use crate::cui_unwind_result::CuiUnwindResult;
use framehop_code_rules::CodeRules;
use framehop_compact_tables::Function;
use framehop_errors::CompactUnwindInfoUnwinderError;
use framehop_rules::Arch;

/// An architecture whose compact unwind info is read.
pub trait CompactUnwindInfoUnwinding: Arch {
    /// What steps go by: the rules outside of functions and at their starts, and what a step answers in a function.
    ghost compact: { CompactMeanings Self.UnwindRule };

    /// The step at an offset in a function. `function_bytes` are all of its bytes.
    fn unwind_frame(
        function: Function,
        is_first_frame: bool,
        address_offset_within_function: usize,
        function_bytes: Option<&[u8]>,
    ) -> Result<CuiUnwindResult<Self::UnwindRule>, CompactUnwindInfoUnwinderError>
        requires { IfSome function_bytes (λ bytes. address_offset_within_function ≤ length bytes.now) }
        ensures step { result ≡ compact.unwound function is_first_frame address_offset_within_function
            (lent_bytes function_bytes.entry) }
        ensures valid { HasValidCuiRule Self.UnwindRule.is_valid result };

    /// The step of a first frame at an offset in `__stub_helper`, whose code linkers write.
    fn rule_for_stub_helper(
        code_rules: CodeRules,
        offset: u32,
    ) -> Result<CuiUnwindResult<Self::UnwindRule>, CompactUnwindInfoUnwinderError>
        ensures rule { result ≡ Ok (ExecRule (compact.helper_rule code_rules offset)) }
        ensures valid { HasValidCuiRule Self.UnwindRule.is_valid result };

    ghost start_is: { compact.start_rule ≡ Self.UnwindRule.start_rule };

    ghost stub_is: { compact.stub_rule ≡ Self.UnwindRule.stub_rule };
}
