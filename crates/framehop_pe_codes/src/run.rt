//! Passes over the codes that are left: one that reads them all, and one that undoes them.

ghost use Rattle.std.specs.Prelude.{◌≡◌, IfErr, Ok};
ghost use Rattle.framehop_registers.specs.Callback.{OverWords};
ghost use Rattle.framehop_pe_codes.specs.CodesToUndo.{sets_frame};
ghost use Rattle.framehop_pe_codes.specs.InfoViews.{operations_left, OverOperations};
ghost use Rattle.framehop_pe_codes.specs.Refusals.{IsOfStack, result_and_then};
ghost use Rattle.framehop_pe_codes.specs.StepViews.{RunsCodes};

use crate::chain::CodesLeft;
use crate::machine::{FrameBase, return_to_caller, undo};
use crate::operation::UnwindOperation;
use framehop_errors::PeUnwinderError;
use framehop_registers::x86_64::UnwindRegsX86_64;

// Reads all codes that are left, and answers whether one of them sets a frame.
pub(crate) fn has_set_frame(left: CodesLeft<'_>) -> Result<bool, PeUnwinderError>
    ensures { result ≡ result_and_then (operations_left left.entry) (λ operations. Ok (sets_frame operations)) }
{
    let mut rest = left;
    let mut is_set = false;
    'codes: while let Some(operation) = rest.next()? {
        if matches!(operation, UnwindOperation::SetFrame) {
            is_set = true;
        }
    }
    Ok(is_set)
}

// Undoes all codes that are left, and returns. That they can be read was tested before.
pub(crate) fn undo_codes<F: FnMut(u64) -> Result<u64, ()>>(
    left: CodesLeft<'_>,
    frame: &FrameBase,
    regs: &mut UnwindRegsX86_64,
    read_stack: &mut F,
) -> Result<u64, PeUnwinderError>
    requires { F.IsAlwaysCallable read_stack.old }
    ensures callable { F.IsAlwaysCallable read_stack.new }
    ensures run { OverWords F.step read_stack.old read_stack.new
        (RunsCodes frame.now left.entry result regs.old regs.new) }
    ensures refusal { OverOperations left.entry (λ operations. IfErr result IsOfStack) }
{
    let mut rest = left;
    'codes: while let Some(operation) = rest.next()? {
        if let Some(to) = undo(frame, operation, regs, read_stack)? {
            return Ok(to);
        }
    }
    return_to_caller(regs, read_stack)
}
