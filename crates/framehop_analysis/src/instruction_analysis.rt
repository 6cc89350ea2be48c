//! Analysis of the instructions around an address.

ghost use Rattle.std.specs.Prelude.{◌≤◌, ℕ, List, length};
ghost use Rattle.framehop_analysis.specs.Found.{IsFound, IsOfFirst};

use framehop_rules::Arch;

/// Tells from machine code what to do in a first frame, whose address may be anywhere in its function.
/// `text_bytes` are bytes of code, and `pc_offset` is where among them the next instruction begins.
pub trait InstructionAnalysis: Arch {
    /// The rules of prologues that are at an offset of some bytes.
    ghost IsPrologueRule: { List ℕ → ℕ → Self.UnwindRule → Type 0 };

    /// The rules of epilogues that are at an offset of some bytes.
    ghost IsEpilogueRule: { List ℕ → ℕ → Self.UnwindRule → Type 0 };

    /// The rule of the prologue at the offset, if there is one.
    fn rule_from_prologue_analysis(text_bytes: &[u8], pc_offset: usize) -> Option<Self::UnwindRule>
        requires { pc_offset ≤ length text_bytes.now }
        ensures { IsFound (IsPrologueRule text_bytes.now pc_offset) result };

    /// The rule of the epilogue at the offset, if there is one.
    fn rule_from_epilogue_analysis(text_bytes: &[u8], pc_offset: usize) -> Option<Self::UnwindRule>
        requires { pc_offset ≤ length text_bytes.now }
        ensures { IsFound (IsEpilogueRule text_bytes.now pc_offset) result };

    /// The rule of the prologue at the offset; if there is none, that of the epilogue.
    fn rule_from_instruction_analysis(
        text_bytes: &[u8],
        pc_offset: usize,
    ) -> Option<Self::UnwindRule>
        requires { pc_offset ≤ length text_bytes.now }
        ensures { IsFound (IsOfFirst (IsPrologueRule text_bytes.now pc_offset)
            (IsEpilogueRule text_bytes.now pc_offset)) result }
    {
        match Self::rule_from_prologue_analysis(text_bytes, pc_offset) {
            Some(rule) => Some(rule),
            None => Self::rule_from_epilogue_analysis(text_bytes, pc_offset),
        }
    }
}
