//! The step by the encoding of a function, on x86_64.

ghost use Rattle.std.specs.Prelude.{◌≡◌};
ghost use Rattle.framehop_compact.specs.Analysed.{lent_bytes};
ghost use Rattle.framehop_compact.specs.Unwound.{body_rule, function_rule, helper_has_pushed, uninformed_rule, stub_helper_rule};

use crate::analysis::analysed_rule;
use crate::cui_unwind_result::CuiUnwindResult;
use crate::macho::CompactUnwindInfoUnwinding;
use crate::x86_64::frameless::{immediate_rule, indirect_rule};
use crate::x86_64::opcode::OpcodeX86_64;
use framehop_code_rules::CodeRules;
use framehop_compact_tables::Function;
use framehop_errors::CompactUnwindInfoUnwinderError;
use framehop_rules::x86_64::{ArchX86_64, UnwindRuleX86_64};

// `push rbp`, `mov rbp, rsp`.
const FRAME_SETUP: [u8; 4] = [0x55, 0x48, 0x89, 0xe5];

// The rule in the body of a function.
fn body_rule(
    opcode: OpcodeX86_64,
    function_bytes: Option<&[u8]>,
) -> Result<CuiUnwindResult<UnwindRuleX86_64>, CompactUnwindInfoUnwinderError>
    ensures { result ≡ body_rule opcode (lent_bytes function_bytes.entry) }
{
    match opcode {
        OpcodeX86_64::Null => Err(CompactUnwindInfoUnwinderError::FunctionHasNoInfo),
        OpcodeX86_64::FrameBased => {
            Ok(CuiUnwindResult::ExecRule(UnwindRuleX86_64::UseFramePointer))
        }
        OpcodeX86_64::FramelessImmediate {
            stack_size_by_8,
            saved_after_bp,
        } => immediate_rule(stack_size_by_8, saved_after_bp),
        OpcodeX86_64::FramelessIndirect {
            immediate_offset_from_function_start,
            stack_adjust_in_bytes,
            saved_after_bp,
        } => indirect_rule(
            function_bytes,
            immediate_offset_from_function_start,
            stack_adjust_in_bytes,
            saved_after_bp,
        ),
        OpcodeX86_64::Dwarf { eh_frame_fde } => Ok(CuiUnwindResult::NeedDwarf(eh_frame_fde)),
        OpcodeX86_64::InvalidFrameless => Err(CompactUnwindInfoUnwinderError::InvalidFrameless),
        OpcodeX86_64::UnrecognizedKind(kind) => {
            Err(CompactUnwindInfoUnwinderError::BadOpcodeKind(kind))
        }
    }
}

// The rule of a first frame in a function without info: by its frame pointer if the function begins by setting it up.
fn uninformed_rule(function_bytes: Option<&[u8]>) -> UnwindRuleX86_64
    ensures { result ≡ uninformed_rule (lent_bytes function_bytes.entry) }
{
    match function_bytes {
        Some(bytes) if bytes.starts_with(&FRAME_SETUP) => UnwindRuleX86_64::UseFramePointer,
        _ => UnwindRuleX86_64::JustReturn,
    }
}

// The rule of a function, where no prologue and no epilogue is recognised.
fn function_rule(
    opcode: OpcodeX86_64,
    is_first_frame: bool,
    function_bytes: Option<&[u8]>,
) -> Result<CuiUnwindResult<UnwindRuleX86_64>, CompactUnwindInfoUnwinderError>
    ensures { result ≡ function_rule opcode is_first_frame (lent_bytes function_bytes.entry) }
{
    match opcode {
        OpcodeX86_64::Null if is_first_frame => {
            Ok(CuiUnwindResult::ExecRule(uninformed_rule(function_bytes)))
        }
        _ => body_rule(opcode, function_bytes),
    }
}

// Where the part of `__stub_helper` that all stubs share has pushed its word.
fn helper_has_pushed(code_rules: CodeRules) -> u32
    ensures { result ≡ helper_has_pushed code_rules }
{
    match code_rules {
        CodeRules::Published => 7,
        CodeRules::Known | CodeRules::Ways => 9,
    }
}

// The rule at an offset in `__stub_helper`: a part of 16 bytes that all stubs share, which pushes a word, and then stubs of
// 10 bytes, each of which pushes a word and jumps to it at 5.
fn stub_helper_rule(code_rules: CodeRules, offset: u32) -> UnwindRuleX86_64
    ensures { result ≡ stub_helper_rule code_rules offset }
{
    if offset < helper_has_pushed(code_rules) {
        UnwindRuleX86_64::OffsetSp { sp_offset_by_8: 2 }
    } else if offset < 16 {
        UnwindRuleX86_64::OffsetSp { sp_offset_by_8: 3 }
    } else if (offset - 16) % 10 < 5 {
        UnwindRuleX86_64::JustReturn
    } else {
        UnwindRuleX86_64::OffsetSp { sp_offset_by_8: 2 }
    }
}

impl CompactUnwindInfoUnwinding for ArchX86_64 {
    ghost use Rattle.std.proofs.Common.{refl};
    ghost use Rattle.framehop_compact.specs.Unwound.{compact_x86_64};

    ghost compact = { compact_x86_64 };

    ghost start_is = { refl };

    ghost stub_is = { refl };

    fn unwind_frame(
        function: Function,
        is_first_frame: bool,
        address_offset_within_function: usize,
        function_bytes: Option<&[u8]>,
    ) -> Result<CuiUnwindResult<UnwindRuleX86_64>, CompactUnwindInfoUnwinderError> {
        let offset = address_offset_within_function;
        if let Some(rule) = analysed_rule::<ArchX86_64>(is_first_frame, offset, function_bytes) {
            return Ok(CuiUnwindResult::ExecRule(rule));
        }
        let opcode = OpcodeX86_64::parse(function.opcode);
        function_rule(opcode, is_first_frame, function_bytes)
    }

    fn rule_for_stub_helper(
        code_rules: CodeRules,
        offset: u32,
    ) -> Result<CuiUnwindResult<UnwindRuleX86_64>, CompactUnwindInfoUnwinderError> {
        Ok(CuiUnwindResult::ExecRule(stub_helper_rule(code_rules, offset)))
    }
}
