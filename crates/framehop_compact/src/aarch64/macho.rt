//! The step by the encoding of a function, on aarch64.

ghost use Rattle.std.specs.Prelude.{◌≡◌, ◌↔◌, IsTrue};
ghost use Rattle.framehop_compact.specs.declared.aarch64.opcode.OpcodeArm64.TheVariants.{Null};
ghost use Rattle.framehop_compact.specs.UnwoundAarch64.{body_rule, frameless_rule, stub_helper_rule};

use crate::aarch64::opcode::OpcodeArm64;
use crate::analysis::analysed_rule;
use crate::cui_unwind_result::CuiUnwindResult;
use crate::macho::CompactUnwindInfoUnwinding;
use framehop_code_rules::CodeRules;
use framehop_compact_tables::Function;
use framehop_errors::CompactUnwindInfoUnwinderError;
use framehop_rules::aarch64::{ArchAarch64, UnwindRuleAarch64};

// The rule of a function that calls no other, and so has a first frame alone.
#[inline(always)]
fn frameless_rule(
    stack_size_by_16: u16,
    is_first_frame: bool,
) -> Result<CuiUnwindResult<UnwindRuleAarch64>, CompactUnwindInfoUnwinderError>
    ensures { result ≡ frameless_rule stack_size_by_16 is_first_frame }
{
    if !is_first_frame {
        return Err(CompactUnwindInfoUnwinderError::CallerCannotBeFrameless);
    }
    if stack_size_by_16 == 0 {
        return Ok(CuiUnwindResult::ExecRule(UnwindRuleAarch64::NoOp));
    }
    Ok(CuiUnwindResult::ExecRule(UnwindRuleAarch64::OffsetSp {
        sp_offset_by_16: stack_size_by_16,
    }))
}

// Whether a function has no info.
fn is_null(opcode: OpcodeArm64) -> bool
    ensures { IsTrue result ↔ (opcode ≡ Null) }
{
    match opcode {
        OpcodeArm64::Null => true,
        _ => false,
    }
}

// The rule in the body of a function.
#[inline(always)]
fn body_rule(
    opcode: OpcodeArm64,
    is_first_frame: bool,
) -> Result<CuiUnwindResult<UnwindRuleAarch64>, CompactUnwindInfoUnwinderError>
    ensures { result ≡ body_rule opcode is_first_frame }
{
    match opcode {
        OpcodeArm64::Null => Err(CompactUnwindInfoUnwinderError::FunctionHasNoInfo),
        OpcodeArm64::Frameless { stack_size_by_16 } => {
            frameless_rule(stack_size_by_16, is_first_frame)
        }
        OpcodeArm64::Dwarf { eh_frame_fde } => Ok(CuiUnwindResult::NeedDwarf(eh_frame_fde)),
        OpcodeArm64::FrameBased => Ok(CuiUnwindResult::ExecRule(
            UnwindRuleAarch64::UseFramePointer,
        )),
        OpcodeArm64::UnrecognizedKind(kind) => {
            Err(CompactUnwindInfoUnwinderError::BadOpcodeKind(kind))
        }
    }
}

// The rule at an offset in `__stub_helper`: a part of 24 bytes that all stubs share, which pushes a pair of words at 8, and
// then stubs that push nothing.
fn stub_helper_rule(offset: u32) -> UnwindRuleAarch64
    ensures { result ≡ stub_helper_rule offset }
{
    if offset < 12 || offset >= 24 {
        UnwindRuleAarch64::NoOp
    } else {
        UnwindRuleAarch64::OffsetSp { sp_offset_by_16: 1 }
    }
}

impl CompactUnwindInfoUnwinding for ArchAarch64 {
    ghost use Rattle.std.proofs.Common.{refl};
    ghost use Rattle.framehop_compact.specs.UnwoundAarch64.{compact_aarch64};

    ghost compact = { compact_aarch64 };

    ghost start_is = { refl };

    ghost stub_is = { refl };

    fn unwind_frame(
        function: Function,
        is_first_frame: bool,
        address_offset_within_function: usize,
        function_bytes: Option<&[u8]>,
    ) -> Result<CuiUnwindResult<UnwindRuleAarch64>, CompactUnwindInfoUnwinderError> {
        // The encoding is parsed where its kind is used: of a kind that it keeps meanwhile LLVM makes a table of jumps.
        if !is_first_frame {
            return body_rule(OpcodeArm64::parse(function.opcode), false);
        }
        if is_null(OpcodeArm64::parse(function.opcode)) {
            return Ok(CuiUnwindResult::ExecRule(UnwindRuleAarch64::NoOp));
        }
        let offset = address_offset_within_function;
        if let Some(rule) = analysed_rule::<ArchAarch64>(true, offset, function_bytes) {
            return Ok(CuiUnwindResult::ExecRule(rule));
        }
        body_rule(OpcodeArm64::parse(function.opcode), true)
    }

    fn rule_for_stub_helper(
        _code_rules: CodeRules,
        offset: u32,
    ) -> Result<CuiUnwindResult<UnwindRuleAarch64>, CompactUnwindInfoUnwinderError> {
        Ok(CuiUnwindResult::ExecRule(stub_helper_rule(offset)))
    }
}
