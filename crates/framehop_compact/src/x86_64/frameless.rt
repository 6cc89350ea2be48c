//! The rules of functions without a frame pointer.

ghost use Rattle.std.specs.Prelude.{◌≡◌};
ghost use Rattle.framehop_compact.specs.Analysed.{lent_bytes};
ghost use Rattle.framehop_compact.specs.CompactRules.{frameless_rule, immediate_rule, indirect_rule, stack_size};

use crate::cui_unwind_result::CuiUnwindResult;
use framehop_compact_tables::u32_at;
use framehop_errors::CompactUnwindInfoUnwinderError;
use framehop_rules::x86_64::UnwindRuleX86_64;

// The rule for a stack of so many words of 8 bytes, if RBP is saved before so many registers, or isn't.
fn frameless_rule(
    words: u16,
    saved_after_bp: Option<u8>,
) -> Result<CuiUnwindResult<UnwindRuleX86_64>, CompactUnwindInfoUnwinderError>
    ensures { result ≡ frameless_rule words saved_after_bp }
{
    let Some(after) = saved_after_bp else {
        return Ok(CuiUnwindResult::ExecRule(UnwindRuleX86_64::OffsetSp {
            sp_offset_by_8: words,
        }));
    };
    let bp_offset = i32::from(words) - 2 - i32::from(after);
    match i16::try_from(bp_offset) {
        Ok(bp_storage_offset_from_sp_by_8) => Ok(CuiUnwindResult::ExecRule(
            UnwindRuleX86_64::OffsetSpAndRestoreBp {
                sp_offset_by_8: words,
                bp_storage_offset_from_sp_by_8,
            },
        )),
        Err(_) => Err(CompactUnwindInfoUnwinderError::BpOffsetDoesNotFit),
    }
}

// The rule for a stack size in the encoding, in words of 8 bytes. One word is the return address alone.
pub(crate) fn immediate_rule(
    words: u8,
    saved_after_bp: Option<u8>,
) -> Result<CuiUnwindResult<UnwindRuleX86_64>, CompactUnwindInfoUnwinderError>
    ensures { result ≡ immediate_rule words saved_after_bp }
{
    if words == 1 {
        return Ok(CuiUnwindResult::ExecRule(UnwindRuleX86_64::JustReturn));
    }
    frameless_rule(u16::from(words), saved_after_bp)
}

// The stack size in the code of a function, in words of 8 bytes.
fn stack_size(
    function_bytes: Option<&[u8]>,
    offset: u8,
    adjust: u8,
) -> Result<u16, CompactUnwindInfoUnwinderError>
    ensures { result ≡ stack_size (lent_bytes function_bytes.entry) offset adjust }
{
    let Some(bytes) = function_bytes else {
        return Err(CompactUnwindInfoUnwinderError::NoTextBytesToLookUpIndirectStackOffset);
    };
    let at = usize::from(offset);
    if bytes.len() < at + 4 {
        return Err(CompactUnwindInfoUnwinderError::IndirectStackOffsetOutOfBounds);
    }
    let Some(size) = u32_at(bytes, at).checked_add(u32::from(adjust)) else {
        return Err(CompactUnwindInfoUnwinderError::StackAdjustOverflow);
    };
    if size % 8 != 0 || size / 8 > 0xffff {
        return Err(CompactUnwindInfoUnwinderError::StackSizeDoesNotFit);
    }
    Ok((size / 8) as u16)
}

// The rule for a stack size in the code of the function.
pub(crate) fn indirect_rule(
    function_bytes: Option<&[u8]>,
    offset: u8,
    adjust: u8,
    saved_after_bp: Option<u8>,
) -> Result<CuiUnwindResult<UnwindRuleX86_64>, CompactUnwindInfoUnwinderError>
    ensures { result ≡ indirect_rule (lent_bytes function_bytes.entry) offset adjust saved_after_bp }
{
    let words = stack_size(function_bytes, offset, adjust)?;
    frameless_rule(words, saved_after_bp)
}
