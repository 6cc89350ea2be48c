//! Unwind data of Windows on aarch64 aren't read.

use crate::pe::PeUnwinding;
use framehop_errors::PeUnwinderError;
use framehop_pe_codes::PeSections;
use framehop_rules::UnwindResult;
use framehop_rules::aarch64::{ArchAarch64, UnwindRegsAarch64, UnwindRuleAarch64};

/// Every step fails with `Aarch64Unsupported`.
impl PeUnwinding for ArchAarch64 {
    ghost use Rattle.framehop_errors.specs.declared.pe.PeUnwinderError.TheVariants.{Aarch64Unsupported};
    ghost use Rattle.framehop_pe.specs.PeAttempts.{Refuses};

    ghost pe_attempt = { λ file address is_first. Refuses Aarch64Unsupported };

    fn unwind_frame<F: FnMut(u64) -> Result<u64, ()>>(
        _sections: PeSections<'_>,
        _address: u32,
        _regs: &mut UnwindRegsAarch64,
        _is_first_frame: bool,
        _read_stack: &mut F,
    ) -> Result<UnwindResult<UnwindRuleAarch64>, PeUnwinderError> {
        Err(PeUnwinderError::Aarch64Unsupported)
    }
}
