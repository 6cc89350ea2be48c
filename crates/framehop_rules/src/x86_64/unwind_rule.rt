//! The unwind rules of x86_64, and their execution.

ghost use Rattle.std.specs.Prelude.{◌≡◌, ◌*◌, ◌<◌, ◌^◌, pos, ◌*ℤ◌, ◌+ℤ◌, [], ◌∷◌, IfErr};
ghost use Rattle.framehop_registers.specs.Callback.{OverWords, ReadsOverWords, Leads};
ghost use Rattle.framehop_rules.specs.CodeViews.{restored_by};
ghost use Rattle.framehop_rules.specs.Outcome.{outcome_of, outcome_or_end_of, address, IsOfRule, StaysUnlessAnswered};
ghost use Rattle.framehop_rules.specs.OverWords.{IsOverWords, StepsOverWords};
ghost use Rattle.framehop_rules.specs.RuleMeaning.{raised_frame, by_frame_pointer, stored_bp, moves, return_address, moved_caller, rule_meaning, IsValid};
ghost use Rattle.framehop_rules.specs.RuleReads.{reads_by_frame_pointer, reads_of_stored_bp, reads_of_moves, reads_of_return, reads_after_pops, rule_reads};
ghost use Rattle.framehop_rules.specs.declared.x86_64.unwind_rule.UnwindRuleX86_64.TheVariants.{JustReturn, UseFramePointer};

use crate::unwind_rule::{UnwindRule, address_above, address_at_offset, bytes_of, read_word};
use crate::x86_64::pops::pop_and_return;
use framehop_registers::Error;
use framehop_registers::x86_64::{ORDER_COUNT, UnwindRegsX86_64};

/// One step of a stack walk on x86_64: how the caller's stack pointer and frame pointer follow from
/// this frame's. The return address is always the word below the caller's stack pointer. Offsets
/// are in words of 8 bytes.
#[derive(Clone, Copy, Debug, PartialEq, Eq)]
pub enum UnwindRuleX86_64 {
    /// The walk ends here.
    EndOfStack,
    /// (sp, bp) = (sp + 8, bp)
    JustReturn,
    /// `JustReturn` in a first frame, else (sp, bp) = (bp + 16, word at bp)
    JustReturnIfFirstFrameOtherwiseFp,
    /// (sp, bp) = (sp + 8x, bp)
    OffsetSp {
        /// x
        sp_offset_by_8: u16,
    },
    /// (sp, bp) = (sp + 8x, word at sp + 8y)
    OffsetSpAndRestoreBp {
        /// x
        sp_offset_by_8: u16,
        /// y
        bp_storage_offset_from_sp_by_8: i16,
    },
    /// (sp, bp) = (bp + 16, word at bp); the walk ends if bp is 0.
    UseFramePointer,
    /// From sp + 8x on, so many registers take a word each, in the order that the number says; sp
    /// is then 8 above the last of them, and the others keep their values.
    OffsetSpAndPopRegisters {
        /// x
        sp_offset_by_8: u16,
        /// how many registers, at most 8
        register_count: u8,
        /// the order number that `encode` gives for their list
        encoded_registers_to_pop: u16,
    },
}

// A signed offset in words of 8 bytes, in bytes.
fn signed_bytes_of(words: i16) -> i64
    ensures { result ≡ pos 8 *ℤ words }
{
    i64::from(words) * 8
}

// The caller's stack pointer and frame pointer where the former is `bytes` higher and the latter
// is still in its register.
#[inline(always)]
fn raise_sp(regs: &UnwindRegsX86_64, bytes: u64) -> Result<(u64, u64), Error>
    ensures moves { outcome_of result ≡ raised_frame regs.now bytes }
    ensures refusals { IfErr result IsOfRule }
{
    let new_sp = address_above(regs.sp(), bytes)?;
    Ok((new_sp, regs.bp()))
}

// The caller's stack pointer and frame pointer in code with frame pointers, where RBP points at
// the caller's RBP, and the return address is above that.
#[inline(always)]
fn follow_frame_pointer<F: FnMut(u64) -> Result<u64, ()>>(
    regs: &UnwindRegsX86_64,
    read_stack: &mut F,
) -> Result<(u64, u64), Error>
    requires { F.IsAlwaysCallable read_stack.old }
    ensures callable { F.IsAlwaysCallable read_stack.new }
    ensures moves { OverWords F.step read_stack.old read_stack.new (λ words.
        outcome_of result ≡ by_frame_pointer regs.now words) }
    ensures order { Leads F.step read_stack.old (reads_by_frame_pointer regs.now) read_stack.new }
    ensures refusals { IfErr result IsOfRule }
{
    let bp = regs.bp();
    let new_sp = address_above(bp, 16)?;
    if new_sp <= regs.sp() {
        return Err(Error::FramepointerUnwindingMovedBackwards);
    }
    let new_bp = read_word(read_stack, bp)?;
    Ok((new_sp, new_bp))
}

// The caller's frame pointer, stored at an address.
//
// In a first frame an epilogue may have popped it already, while the unwind information still
// names its address. That is then below the stack pointer, where a recorded stack has no
// bytes, and the register holds the caller's value.
#[inline(always)]
fn read_stored_bp<F: FnMut(u64) -> Result<u64, ()>>(
    is_first_frame: bool,
    regs: &UnwindRegsX86_64,
    read_stack: &mut F,
    at: u64,
) -> Result<u64, Error>
    requires { F.IsAlwaysCallable read_stack.old }
    ensures callable { F.IsAlwaysCallable read_stack.new }
    ensures bp { OverWords F.step read_stack.old read_stack.new (λ words.
        outcome_of result ≡ stored_bp is_first_frame regs.now words at) }
    ensures order { Leads F.step read_stack.old (at ∷ []) read_stack.new }
    ensures refusals { IfErr result IsOfRule }
{
    match read_word(read_stack, at) {
        Ok(bp) => Ok(bp),
        Err(error) => {
            if is_first_frame && at < regs.sp() {
                Ok(regs.bp())
            } else {
                Err(error)
            }
        }
    }
}

// The caller's stack pointer, `bytes` higher, and its frame pointer, stored at `offset` from
// this frame's stack pointer.
#[inline(always)]
fn raise_sp_and_restore_bp<F: FnMut(u64) -> Result<u64, ()>>(
    is_first: bool,
    regs: &UnwindRegsX86_64,
    read_stack: &mut F,
    bytes: u64,
    offset: i64,
) -> Result<(u64, u64), Error>
    requires { F.IsAlwaysCallable read_stack.old }
    ensures callable { F.IsAlwaysCallable read_stack.new }
    ensures moves { IsOverWords F.step read_stack.old read_stack.new
        (outcome_of result) (restored_by is_first regs.now bytes offset) }
    ensures order { Leads F.step read_stack.old
        (reads_of_stored_bp regs.now bytes offset) read_stack.new }
    ensures refusals { IfErr result IsOfRule }
{
    let (new_sp, _) = raise_sp(regs, bytes)?;
    let bp_location = address_at_offset(regs.sp(), offset)?;
    let new_bp = read_stored_bp(is_first, regs, read_stack, bp_location)?;
    Ok((new_sp, new_bp))
}

// The return address, if the caller's stack pointer is `sp`; `None` if it is 0.
#[inline(always)]
fn read_return_address<F: FnMut(u64) -> Result<u64, ()>>(
    regs: &UnwindRegsX86_64,
    sp: u64,
    read_stack: &mut F,
) -> Result<Option<u64>, Error>
    requires { F.IsAlwaysCallable read_stack.old }
    ensures callable { F.IsAlwaysCallable read_stack.new }
    ensures address { OverWords F.step read_stack.old read_stack.new (λ words.
        outcome_or_end_of result ≡ return_address regs.now words sp) }
    ensures order { Leads F.step read_stack.old (reads_of_return sp) read_stack.new }
    ensures refusals { IfErr result IsOfRule }
{
    let location = sp.checked_sub(8).ok_or(Error::IntegerOverflow)?;
    let return_address = read_word(read_stack, location)?;
    if return_address == 0 {
        return Ok(None);
    }
    if sp == regs.sp() && return_address == regs.ip() {
        return Err(Error::DidNotAdvance);
    }
    Ok(Some(return_address))
}

impl UnwindRuleX86_64 {
    // What the rule makes of the stack pointer and the frame pointer; `None` at the stack's end.
    #[inline(always)]
    fn caller_frame<F: FnMut(u64) -> Result<u64, ()>>(
        self,
        is_first_frame: bool,
        regs: &UnwindRegsX86_64,
        read_stack: &mut F,
    ) -> Result<Option<(u64, u64)>, Error>
        requires { F.IsAlwaysCallable read_stack.old }
        ensures callable { F.IsAlwaysCallable read_stack.new }
        ensures moves { IsOverWords F.step read_stack.old read_stack.new
            (outcome_or_end_of result) (moves self is_first_frame regs.now) }
        ensures order { Leads F.step read_stack.old
            (reads_of_moves self is_first_frame regs.now) read_stack.new }
        ensures refusals { IfErr result IsOfRule }
    {
        match self {
            UnwindRuleX86_64::EndOfStack => Ok(None),
            UnwindRuleX86_64::JustReturn => raise_sp(regs, 8).map(Some),
            UnwindRuleX86_64::JustReturnIfFirstFrameOtherwiseFp => {
                if is_first_frame {
                    raise_sp(regs, 8).map(Some)
                } else {
                    follow_frame_pointer(regs, read_stack).map(Some)
                }
            }
            UnwindRuleX86_64::OffsetSp { sp_offset_by_8 } => {
                raise_sp(regs, bytes_of(sp_offset_by_8)).map(Some)
            }
            UnwindRuleX86_64::OffsetSpAndRestoreBp {
                sp_offset_by_8,
                bp_storage_offset_from_sp_by_8,
            } => raise_sp_and_restore_bp(
                is_first_frame,
                regs,
                read_stack,
                bytes_of(sp_offset_by_8),
                signed_bytes_of(bp_storage_offset_from_sp_by_8),
            )
            .map(Some),
            UnwindRuleX86_64::UseFramePointer => {
                if regs.bp() == 0 {
                    Ok(None)
                } else {
                    follow_frame_pointer(regs, read_stack).map(Some)
                }
            }
            // Never reached: `exec` gives the rules that pop registers to `pop_and_return`.
            UnwindRuleX86_64::OffsetSpAndPopRegisters { .. } => raise_sp(regs, 8).map(Some),
        }
    }

    // The step once the rule's registers are popped.
    #[inline(always)]
    fn return_to_caller<F: FnMut(u64) -> Result<u64, ()>>(
        self,
        is_first_frame: bool,
        regs: &mut UnwindRegsX86_64,
        read_stack: &mut F,
    ) -> Result<Option<u64>, Error>
        requires { F.IsAlwaysCallable read_stack.old }
        ensures callable { F.IsAlwaysCallable read_stack.new }
        ensures step { StepsOverWords F.step read_stack.old read_stack.new regs.old regs.new result
            (moved_caller self is_first_frame regs.old) }
        ensures order { ReadsOverWords F.step read_stack.old read_stack.new
            (reads_after_pops self is_first_frame regs.old) }
        ensures stays { StaysUnlessAnswered result regs.old regs.new }
        ensures refusals { IfErr result IsOfRule }
    {
        let Some((new_sp, new_bp)) = self.caller_frame(is_first_frame, regs, read_stack)? else {
            return Ok(None);
        };
        let Some(return_address) = read_return_address(regs, new_sp, read_stack)? else {
            return Ok(None);
        };
        regs.set_ip(return_address);
        regs.set_sp(new_sp);
        regs.set_bp(new_bp);
        Ok(Some(return_address))
    }
}

impl UnwindRule for UnwindRuleX86_64 {
    type UnwindRegs = UnwindRegsX86_64;

    ghost is_valid = { IsValid };

    ghost meaning = { rule_meaning };

    ghost reads = { rule_reads };

    ghost stub_rule = { JustReturn };

    ghost start_rule = { JustReturn };

    ghost fallback = { UseFramePointer };

    fn is_valid(self) -> bool {
        match self {
            UnwindRuleX86_64::OffsetSpAndPopRegisters {
                register_count,
                encoded_registers_to_pop,
                ..
            } => register_count <= 8 && encoded_registers_to_pop < ORDER_COUNT,
            _ => true,
        }
    }

    #[inline(always)]
    fn exec<F: FnMut(u64) -> Result<u64, ()>>(
        self,
        is_first_frame: bool,
        regs: &mut UnwindRegsX86_64,
        read_stack: &mut F,
    ) -> Result<Option<u64>, Error> {
        match self {
            UnwindRuleX86_64::OffsetSpAndPopRegisters {
                sp_offset_by_8,
                register_count,
                encoded_registers_to_pop,
            } => pop_and_return(
                sp_offset_by_8,
                register_count,
                encoded_registers_to_pop,
                regs,
                read_stack,
            ),
            _ => self.return_to_caller(is_first_frame, regs, read_stack),
        }
    }

    fn rule_for_stub_functions() -> Self {
        UnwindRuleX86_64::JustReturn
    }

    fn rule_for_function_start() -> Self {
        UnwindRuleX86_64::JustReturn
    }

    fn fallback_rule() -> Self {
        UnwindRuleX86_64::UseFramePointer
    }
}
