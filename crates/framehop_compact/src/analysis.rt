//! The machine code of a first frame, where an encoding may not hold.

ghost use Rattle.std.specs.Prelude.{◌≤◌, length, IfSome};
ghost use Rattle.framehop_compact.specs.Analysed.{IsAnalysed, lent_bytes};

use framehop_analysis::InstructionAnalysis;

// The rule of the prologue or the epilogue at an offset in a function: only in a first frame, if the function's bytes are
// there. Encodings hold in a function's body, where all calls are.
pub(crate) fn analysed_rule<A: InstructionAnalysis>(
    is_first_frame: bool,
    offset: usize,
    function_bytes: Option<&[u8]>,
) -> Option<A::UnwindRule>
    requires { IfSome function_bytes (λ bytes. offset ≤ length bytes.now) }
    ensures { IsAnalysed A.IsPrologueRule A.IsEpilogueRule is_first_frame offset
        (lent_bytes function_bytes.entry) result }
{
    if !is_first_frame {
        return None;
    }
    match function_bytes {
        Some(bytes) => A::rule_from_instruction_analysis(bytes, offset),
        None => None,
    }
}
