//! The unwind rules of aarch64, and their execution.

ghost use Rattle.std.specs.Prelude.{◌≡◌, ◌*◌, IfErr, OnErr};
ghost use Rattle.framehop_registers.specs.Callback.{OverWords, ReadsOverWords, Leads};
ghost use Rattle.framehop_rules.specs.CodeViewsAarch64.{frame_by_lr, frame_by_base, reads_by_base};
ghost use Rattle.framehop_rules.specs.Outcome.{outcome_of, outcome_or_end_of, IsOfRule};
ghost use Rattle.framehop_rules.specs.OverWords.{IsOverWords};
ghost use Rattle.framehop_rules.specs.RuleMeaningAarch64.{raised_frame, stored_word, if_above, if_chained, moves, return_address, rule_meaning, IsValid};
ghost use Rattle.framehop_rules.specs.RuleReadsAarch64.{reads_of_stored_word, reads_of_stored_lr, rule_reads};
ghost use Rattle.framehop_rules.specs.declared.aarch64.unwind_rule.UnwindRuleAarch64.TheVariants.{NoOp, UseFramePointer};

use crate::unwind_rule::{UnwindRule, address_above, address_at_offset, bytes_of, read_word};
use framehop_registers::Error;
use framehop_registers::aarch64::UnwindRegsAarch64;

/// One step of a stack walk on aarch64: how the caller's link register, stack pointer and frame
/// pointer follow from this frame's. The return address is always the caller's link register
/// without its authentication code. Offsets of the stack pointer are in pairs of words, all others
/// in words of 8 bytes.
#[derive(Clone, Copy, Debug, PartialEq, Eq)]
pub enum UnwindRuleAarch64 {
    /// Nothing changes: in a first frame alone, where LR still has the return address.
    NoOp,
    /// `NoOp` in a first frame, else (lr, sp, fp) = (word at fp + 8, fp + 16, word at fp)
    NoOpIfFirstFrameOtherwiseFp,
    /// (lr, sp, fp) = (lr, sp + 16x, fp), in a first frame alone
    OffsetSp {
        /// x
        sp_offset_by_16: u16,
    },
    /// `OffsetSp` in a first frame; in a later frame the walk ends here. A row without a rule for LR
    /// may mean that LR still has the return address, which only a first frame's can.
    OffsetSpIfFirstFrameOtherwiseStackEndsHere {
        /// x
        sp_offset_by_16: u16,
    },
    /// (lr, sp, fp) = (word at sp + 8y, sp + 16x, fp)
    OffsetSpAndRestoreLr {
        /// x
        sp_offset_by_16: u16,
        /// y
        lr_storage_offset_from_sp_by_8: i16,
    },
    /// (lr, sp, fp) = (word at sp + 8z, sp + 16x, word at sp + 8y)
    OffsetSpAndRestoreFpAndLr {
        /// x
        sp_offset_by_16: u16,
        /// y
        fp_storage_offset_from_sp_by_8: i16,
        /// z
        lr_storage_offset_from_sp_by_8: i16,
    },
    /// (lr, sp, fp) = (word at fp + 8, fp + 16, word at fp); the walk ends if the last is 0.
    UseFramePointer,
    /// (lr, sp, fp) = (word at fp + 8z, fp + 8x, word at fp + 8y); the walk ends if the last is 0.
    UseFramepointerWithOffsets {
        /// x
        sp_offset_from_fp_by_8: u16,
        /// y
        fp_storage_offset_from_fp_by_8: i16,
        /// z
        lr_storage_offset_from_fp_by_8: i16,
    },
}

/// The caller's link register, stack pointer and frame pointer.
type CallerFrame = (u64, u64, u64);

// An offset in pairs of words of 8 bytes, in bytes.
fn bytes_of_pairs(pairs: u16) -> u64
    ensures { result ≡ 16 * pairs }
{
    u64::from(pairs) * 16
}

// The caller's frame where SP is `bytes` higher, and LR and FP are still in their registers.
#[inline(always)]
fn raise_sp(regs: &UnwindRegsAarch64, bytes: u64) -> Result<CallerFrame, Error>
    ensures moves { outcome_of result ≡ raised_frame regs.now bytes }
    ensures refusals { IfErr result IsOfRule }
{
    let sp = address_above(regs.sp(), bytes)?;
    Ok((regs.lr(), sp, regs.fp()))
}

// The word that is stored so many words from an address.
#[inline(always)]
fn read_stored<F: FnMut(u64) -> Result<u64, ()>>(
    read_stack: &mut F,
    base: u64,
    offset: i16,
) -> Result<u64, Error>
    requires { F.IsAlwaysCallable read_stack.old }
    ensures callable { F.IsAlwaysCallable read_stack.new }
    ensures word { OverWords F.step read_stack.old read_stack.new (λ words.
        outcome_of result ≡ stored_word words base offset) }
    ensures order { Leads F.step read_stack.old (reads_of_stored_word base offset) read_stack.new }
    ensures refusals { IfErr result IsOfRule }
{
    let at = address_at_offset(base, i64::from(offset) * 8)?;
    read_word(read_stack, at)
}

// The caller's frame where SP is `bytes` higher, LR is stored so many words from it, and FP is
// still in its register.
#[inline(always)]
fn raise_sp_and_restore_lr<F: FnMut(u64) -> Result<u64, ()>>(
    regs: &UnwindRegsAarch64,
    read_stack: &mut F,
    bytes: u64,
    lr_offset: i16,
) -> Result<CallerFrame, Error>
    requires { F.IsAlwaysCallable read_stack.old }
    ensures callable { F.IsAlwaysCallable read_stack.new }
    ensures moves { IsOverWords F.step read_stack.old read_stack.new
        (outcome_of result) (frame_by_lr regs.now bytes lr_offset) }
    ensures order { Leads F.step read_stack.old
        (reads_of_stored_lr regs.now bytes lr_offset) read_stack.new }
    ensures refusals { IfErr result IsOfRule }
{
    let (_, sp, fp) = raise_sp(regs, bytes)?;
    let lr = read_stored(read_stack, regs.sp(), lr_offset)?;
    Ok((lr, sp, fp))
}

// The caller's frame where SP is `bytes` above an address, and FP and LR are stored so many words
// from that address.
#[inline(always)]
fn restore_fp_and_lr<F: FnMut(u64) -> Result<u64, ()>>(
    read_stack: &mut F,
    base: u64,
    bytes: u64,
    fp_offset: i16,
    lr_offset: i16,
) -> Result<CallerFrame, Error>
    requires { F.IsAlwaysCallable read_stack.old }
    ensures callable { F.IsAlwaysCallable read_stack.new }
    ensures moves { IsOverWords F.step read_stack.old read_stack.new
        (outcome_of result) (frame_by_base base bytes fp_offset lr_offset) }
    ensures order { ReadsOverWords F.step read_stack.old read_stack.new
        (reads_by_base base bytes fp_offset lr_offset) }
    ensures refusals { IfErr result IsOfRule }
{
    let sp = address_above(base, bytes)?;
    let lr = read_stored(read_stack, base, lr_offset)?;
    let fp = read_stored(read_stack, base, fp_offset)?;
    Ok((lr, sp, fp))
}

// The caller's frame, whose SP has to be above this frame's.
#[inline(always)]
fn check_above(regs: &UnwindRegsAarch64, caller: CallerFrame) -> Result<CallerFrame, Error>
    ensures moves { outcome_of result ≡ if_above regs.now caller }
    ensures refusals { IfErr result IsOfRule }
{
    let (_, sp, _) = caller;
    if sp <= regs.sp() {
        return Err(Error::FramepointerUnwindingMovedBackwards);
    }
    Ok(caller)
}

// The caller's frame, as a chain of frame pointers gives it: the chain ends with 0, and else FP
// and SP have to be above this frame's.
#[inline(always)]
fn check_chained(
    regs: &UnwindRegsAarch64,
    caller: CallerFrame,
) -> Result<Option<CallerFrame>, Error>
    ensures moves { outcome_or_end_of result ≡ if_chained regs.now caller }
    ensures refusals { IfErr result IsOfRule }
{
    let (_, sp, fp) = caller;
    if fp == 0 {
        return Ok(None);
    }
    if fp <= regs.fp() || sp <= regs.sp() {
        return Err(Error::FramepointerUnwindingMovedBackwards);
    }
    Ok(Some(caller))
}

// The return address, if the caller's LR and SP are these; `None` if it is 0.
#[inline(always)]
fn find_return_address(
    is_first_frame: bool,
    regs: &UnwindRegsAarch64,
    caller: CallerFrame,
) -> Result<Option<u64>, Error>
    ensures address { outcome_or_end_of result ≡ return_address regs.now is_first_frame caller }
    ensures refusals { IfErr result IsOfRule }
{
    let (lr, sp, _) = caller;
    let return_address = regs.lr_mask().strip_ptr_auth(lr);
    if return_address == 0 {
        return Ok(None);
    }
    if !is_first_frame && sp == regs.sp() {
        return Err(Error::DidNotAdvance);
    }
    Ok(Some(return_address))
}

impl UnwindRuleAarch64 {
    // What the rule makes of LR, SP and FP; `None` at the stack's end.
    #[inline(always)]
    fn caller_frame<F: FnMut(u64) -> Result<u64, ()>>(
        self,
        is_first_frame: bool,
        regs: &UnwindRegsAarch64,
        read_stack: &mut F,
    ) -> Result<Option<CallerFrame>, Error>
        requires { F.IsAlwaysCallable read_stack.old }
        ensures callable { F.IsAlwaysCallable read_stack.new }
        ensures moves { IsOverWords F.step read_stack.old read_stack.new
            (outcome_or_end_of result) (moves self is_first_frame regs.now) }
        ensures order { ReadsOverWords F.step read_stack.old read_stack.new
            (rule_reads self is_first_frame regs.now) }
        ensures refusals { IfErr result IsOfRule }
    {
        match self {
            UnwindRuleAarch64::NoOp => {
                if is_first_frame {
                    Ok(Some((regs.lr(), regs.sp(), regs.fp())))
                } else {
                    Err(Error::DidNotAdvance)
                }
            }
            UnwindRuleAarch64::NoOpIfFirstFrameOtherwiseFp => {
                if is_first_frame {
                    Ok(Some((regs.lr(), regs.sp(), regs.fp())))
                } else {
                    let caller = restore_fp_and_lr(read_stack, regs.fp(), 16, 0, 1)?;
                    check_above(regs, caller).map(Some)
                }
            }
            UnwindRuleAarch64::OffsetSp { sp_offset_by_16 } => {
                if is_first_frame {
                    raise_sp(regs, bytes_of_pairs(sp_offset_by_16)).map(Some)
                } else {
                    Err(Error::DidNotAdvance)
                }
            }
            UnwindRuleAarch64::OffsetSpIfFirstFrameOtherwiseStackEndsHere { sp_offset_by_16 } => {
                if is_first_frame {
                    raise_sp(regs, bytes_of_pairs(sp_offset_by_16)).map(Some)
                } else {
                    Ok(None)
                }
            }
            UnwindRuleAarch64::OffsetSpAndRestoreLr {
                sp_offset_by_16: x,
                lr_storage_offset_from_sp_by_8: y,
            } => raise_sp_and_restore_lr(regs, read_stack, bytes_of_pairs(x), y).map(Some),
            UnwindRuleAarch64::OffsetSpAndRestoreFpAndLr {
                sp_offset_by_16: x,
                fp_storage_offset_from_sp_by_8: y,
                lr_storage_offset_from_sp_by_8: z,
            } => restore_fp_and_lr(read_stack, regs.sp(), bytes_of_pairs(x), y, z).map(Some),
            UnwindRuleAarch64::UseFramePointer => {
                let caller = restore_fp_and_lr(read_stack, regs.fp(), 16, 0, 1)?;
                check_chained(regs, caller)
            }
            UnwindRuleAarch64::UseFramepointerWithOffsets {
                sp_offset_from_fp_by_8: x,
                fp_storage_offset_from_fp_by_8: y,
                lr_storage_offset_from_fp_by_8: z,
            } => {
                let caller = restore_fp_and_lr(read_stack, regs.fp(), bytes_of(x), y, z)?;
                check_chained(regs, caller)
            }
        }
    }
}

impl UnwindRule for UnwindRuleAarch64 {
    type UnwindRegs = UnwindRegsAarch64;

    ghost is_valid = { IsValid };

    ghost meaning = { rule_meaning };

    ghost reads = { rule_reads };

    ghost stub_rule = { NoOp };

    ghost start_rule = { NoOp };

    ghost fallback = { UseFramePointer };

    fn is_valid(self) -> bool {
        true
    }

    #[inline(always)]
    fn exec<F: FnMut(u64) -> Result<u64, ()>>(
        self,
        is_first_frame: bool,
        regs: &mut UnwindRegsAarch64,
        read_stack: &mut F,
    ) -> Result<Option<u64>, Error> {
        let Some(caller) = self.caller_frame(is_first_frame, regs, read_stack)? else {
            return Ok(None);
        };
        let Some(return_address) = find_return_address(is_first_frame, regs, caller)? else {
            return Ok(None);
        };
        let (lr, sp, fp) = caller;
        regs.set_lr(lr);
        regs.set_sp(sp);
        regs.set_fp(fp);
        Ok(Some(return_address))
    }

    fn rule_for_stub_functions() -> Self {
        UnwindRuleAarch64::NoOp
    }

    fn rule_for_function_start() -> Self {
        UnwindRuleAarch64::NoOp
    }

    fn fallback_rule() -> Self {
        UnwindRuleAarch64::UseFramePointer
    }
}
