//! The step by the unwind data of a PE file, on any architecture.

ghost use Rattle.std.specs.Prelude.{ℕ, Bool, IsTrue};
ghost use Rattle.framehop_rules.specs.UnwindResults.{HasValidRule, KeepsUnlessDirect};
ghost use Rattle.framehop_pe_codes.specs.Sections.{PeFile, file_of};
ghost use Rattle.framehop_pe.specs.PeAttempts.{AnswersPe, PeAttempt};
ghost use Rattle.framehop_pe.specs.Rows.{IsIncreasing};

use framehop_errors::PeUnwinderError;
use framehop_pe_codes::PeSections;
use framehop_rules::{Arch, UnwindResult};

/// An architecture whose unwind data of PE files are read.
pub trait PeUnwinding: Arch {
    /// What the unwind data of a file say of a frame at an address, a first or a later one.
    ghost pe_attempt: { PeFile → ℕ → Bool → PeAttempt Self.UnwindRule Self.UnwindRegs };

    /// The step at an address relative to the file's base (RVA): the unwind rule for what has to be undone, if it has
    /// one, or else the return address, and then the registers are the caller's. An `Err` leaves the registers as they
    /// were. It doesn't allocate.
    fn unwind_frame<F: FnMut(u64) -> Result<u64, ()>>(
        sections: PeSections<'_>,
        address: u32,
        regs: &mut Self::UnwindRegs,
        is_first_frame: bool,
        read_stack: &mut F,
    ) -> Result<UnwindResult<Self::UnwindRule>, PeUnwinderError>
        requires callable { F.IsAlwaysCallable read_stack.old }
        requires increasing { IsTrue sections.increasing → IsIncreasing sections.pdata.now }
        ensures callable { F.IsAlwaysCallable read_stack.new }
        ensures answers { AnswersPe F.step read_stack.old read_stack.new regs.old regs.new result
            (pe_attempt (file_of sections.entry) address is_first_frame) }
        ensures valid { HasValidRule Self.UnwindRule.is_valid result }
        ensures keeps { KeepsUnlessDirect result regs.old regs.new };
}
