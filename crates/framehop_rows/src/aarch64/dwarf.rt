//! The rows of aarch64: as unwind rules, or evaluated.

ghost use Rattle.std.specs.Prelude.{◌≡◌, ◌≢◌, ◌&&◌, Err, IfErr, not, nat_le};
ghost use Rattle.framehop_registers.specs.Callback.{OverWords};
ghost use Rattle.framehop_registers.specs.RegistersAarch64.{sp_of};
ghost use Rattle.framehop_rules.specs.RuleMeaningAarch64.{rule_meaning, caller_registers};
ghost use Rattle.framehop_rows.specs.DirectRowAarch64.{direct_answer, restored};
ghost use Rattle.framehop_rows.specs.DirectViewsAarch64.{caller_shown};
ghost use Rattle.framehop_rows.specs.Memory.{HasExpressionPart, TakesMemory};
ghost use Rattle.framehop_rows.specs.RowAnswerAarch64.{row_answer, register_value};
ghost use Rattle.framehop_rows.specs.RowErrors.{IsOfRow};
ghost use Rattle.dwarf_frame_parts.specs.RowParts.{parts_as};
ghost use Rattle.framehop_rows.specs.RuleLaws.{RulesAnswerAsRows};
ghost use Rattle.framehop_rows.specs.ScaledRowAarch64.{saved_by, raised_sp, restored_lr, restored_both, from_sp, restored_from_fp, followed_fp, from_fp, scaled_rule};
ghost use Rattle.framehop_errors.specs.declared.dwarf.DwarfUnwinderError.TheVariants.{OutOfMemory};

use crate::dwarf::DwarfUnwinding;
use crate::evaluation::{DwarfUnwindRegs, eval_cfa_rule, eval_register_rule};
use crate::rows::{PartsUnwinding, unwind_frame_by_parts};
use crate::rule_fields::{unsigned_pairs, unsigned_words, words_from_base};
use dwarf_constants::{AArch64, Encoding, Register, Vendor};
use dwarf_expressions::EvaluationStorage;
use dwarf_frame_parts::{Parts, SimpleRow, parts_of_row};
use dwarf_frame_rows::{
    _UnwindSectionPrivate, CfaRule, RegisterRule, RuledRegister, UnwindTableRow,
};
use dwarf_readers::{Reader, ReaderOffset};
use dwarf_storage::ArrayLike;
use framehop_errors::DwarfUnwinderError;
use framehop_rules::UnwindResult;
use framehop_rules::aarch64::{ArchAarch64, UnwindRegsAarch64, UnwindRuleAarch64};
use std::alloc::Global;

/// SP, X29 and X30 (DWARF for the Arm 64-bit Architecture, 4.1).
impl DwarfUnwindRegs for UnwindRegsAarch64 {
    ghost value = { register_value };

    fn get(&self, register: Register) -> Option<u64> {
        match register {
            AArch64::SP => Some(self.sp()),
            AArch64::X29 => Some(self.fp()),
            AArch64::X30 => Some(self.lr()),
            _ => None,
        }
    }
}

// Where a register of the caller is, by a row.
#[derive(Clone, Copy)]
enum Saved {
    // In the register.
    InRegister,
    // In the word at this offset in bytes from the CFA.
    FromCfa(i64),
}

// Where a register of the caller is by its rule, if it is at one of these.
fn saved_by<T: Copy>(column: Option<RegisterRule<T>>) -> Option<Saved>
    ensures { result ≡ saved_by column }
{
    match column {
        None | Some(RegisterRule::Undefined | RegisterRule::SameValue) => Some(Saved::InRegister),
        Some(RegisterRule::Offset(offset)) => Some(Saved::FromCfa(offset)),
        Some(_) => None,
    }
}

// The rule for a CFA that is SP plus an offset, if X29 and X30 are in their registers. `lr` is the register
// rule of X30.
fn rule_that_raises<T: Copy>(offset: i64, lr: Option<RegisterRule<T>>) -> Option<UnwindRuleAarch64>
    ensures { result ≡ raised_sp offset lr }
{
    let sp_offset_by_16 = unsigned_pairs(offset)?;
    match lr {
        Some(RegisterRule::Undefined) => {
            Some(UnwindRuleAarch64::OffsetSpIfFirstFrameOtherwiseStackEndsHere { sp_offset_by_16 })
        }
        _ => Some(UnwindRuleAarch64::OffsetSp { sp_offset_by_16 }),
    }
}

// The rule for a CFA that is SP plus an offset, if X30 is stored at another offset from the CFA.
fn rule_that_restores_lr(offset: i64, lr: i64) -> Option<UnwindRuleAarch64>
    ensures { result ≡ restored_lr offset lr }
{
    Some(UnwindRuleAarch64::OffsetSpAndRestoreLr {
        sp_offset_by_16: unsigned_pairs(offset)?,
        lr_storage_offset_from_sp_by_8: words_from_base(offset, lr)?,
    })
}

// The rule for a CFA that is SP plus an offset, if X29 and X30 are stored at other offsets from the CFA.
fn rule_that_restores_both(offset: i64, fp: i64, lr: i64) -> Option<UnwindRuleAarch64>
    ensures { result ≡ restored_both offset fp lr }
{
    Some(UnwindRuleAarch64::OffsetSpAndRestoreFpAndLr {
        sp_offset_by_16: unsigned_pairs(offset)?,
        fp_storage_offset_from_sp_by_8: words_from_base(offset, fp)?,
        lr_storage_offset_from_sp_by_8: words_from_base(offset, lr)?,
    })
}

// The rule for a CFA that is SP plus an offset.
fn rule_from_sp<T: Copy>(
    offset: i64,
    column: Option<RegisterRule<T>>,
    fp: Saved,
    lr: Saved,
) -> Option<UnwindRuleAarch64>
    ensures { result ≡ from_sp offset column fp lr }
{
    match (fp, lr) {
        (Saved::InRegister, Saved::InRegister) => rule_that_raises(offset, column),
        (Saved::InRegister, Saved::FromCfa(lr)) => rule_that_restores_lr(offset, lr),
        (Saved::FromCfa(fp), Saved::FromCfa(lr)) => rule_that_restores_both(offset, fp, lr),
        (Saved::FromCfa(_), Saved::InRegister) => None,
    }
}

// The rule by the offsets of a CFA from X29, and of X29 and X30 from the CFA.
fn rule_with_offsets_from_fp(offset: i64, fp: i64, lr: i64) -> Option<UnwindRuleAarch64>
    ensures { result ≡ restored_from_fp offset fp lr }
{
    Some(UnwindRuleAarch64::UseFramepointerWithOffsets {
        sp_offset_from_fp_by_8: unsigned_words(offset)?,
        fp_storage_offset_from_fp_by_8: words_from_base(offset, fp)?,
        lr_storage_offset_from_fp_by_8: words_from_base(offset, lr)?,
    })
}

// The rule for a CFA that is X29 plus an offset, if X29 and X30 are stored at other offsets from the CFA.
fn rule_that_follows_fp(offset: i64, fp: i64, lr: i64) -> Option<UnwindRuleAarch64>
    ensures { result ≡ followed_fp offset fp lr }
{
    if offset == 16 && fp == -16 && lr == -8 {
        return Some(UnwindRuleAarch64::UseFramePointer);
    }
    rule_with_offsets_from_fp(offset, fp, lr)
}

// The rule for a CFA that is X29 plus an offset.
fn rule_from_fp(offset: i64, fp: Saved, lr: Saved) -> Option<UnwindRuleAarch64>
    ensures { result ≡ from_fp offset fp lr }
{
    match (fp, lr) {
        (Saved::FromCfa(fp), Saved::FromCfa(lr)) => rule_that_follows_fp(offset, fp, lr),
        _ => None,
    }
}

// The rule that says parts of a row exactly, if one does.
fn translate_into_unwind_rule<T: Copy>(parts: &Parts<T>) -> Option<UnwindRuleAarch64>
    ensures { result ≡ scaled_rule parts.now }
{
    let fp = saved_by(parts.fp)?;
    let lr = saved_by(parts.ra)?;
    match parts.cfa {
        CfaRule::RegisterAndOffset {
            register: AArch64::SP,
            offset,
        } => rule_from_sp(offset, parts.ra, fp, lr),
        CfaRule::RegisterAndOffset {
            register: AArch64::X29,
            offset,
        } => rule_from_fp(offset, fp, lr),
        CfaRule::RegisterAndOffset { .. } | CfaRule::Expression(_) => None,
    }
}

// A register of the caller: what its rule gives, or else, in a first frame, its value in the frame.
fn restored(is_first_frame: bool, own: u64, value: Option<u64>) -> Option<u64>
    ensures { result ≡ restored is_first_frame own value }
{
    match value {
        Some(value) => Some(value),
        None if is_first_frame => Some(own),
        None => None,
    }
}

// Whether a step to this CFA fails: the step of a later frame has to raise the stack pointer.
fn is_refused(cfa: u64, is_first_frame: bool, regs: &UnwindRegsAarch64) -> bool
    ensures { result ≡ (not is_first_frame && nat_le cfa (sp_of regs.now)) }
{
    !is_first_frame && cfa <= regs.sp()
}

// The registers of the caller that parts of a row give. A register whose rule gives no value stays in a first
// frame, and the step of a later one fails.
fn eval_parts<
    S: EvaluationStorage,
    R: Reader,
    Section: _UnwindSectionPrivate<R>,
    F: FnMut(u64) -> Result<u64, ()>,
>(
    alloc: Global,
    section: &Section,
    parts: &Parts<R::Offset>,
    encoding: Encoding,
    is_first_frame: bool,
    regs: &UnwindRegsAarch64,
    read_stack: &mut F,
) -> Result<UnwindRegsAarch64, DwarfUnwinderError>
    requires { F.IsAlwaysCallable read_stack.old }
    ensures callable { F.IsAlwaysCallable read_stack.new }
    ensures caller { OverWords F.step read_stack.old read_stack.new (λ words.
        result ≢ Err OutOfMemory → caller_shown result
        ≡ direct_answer S.Stack.capacity encoding.address_size is_first_frame regs.now words
        (R.stretch (Section.reader section.now)) (parts_as R.Offset.value parts.now)) }
    ensures refusals { IfErr result IsOfRow }
    ensures expression { result ≡ Err OutOfMemory
        → HasExpressionPart (parts_as R.Offset.value parts.now) }
    ensures memory { result ≡ Err OutOfMemory
        → TakesMemory S.Stack.is_made_in_place S.Stack.capacity }
{
    let Some(cfa) = eval_cfa_rule::<S, R, Section, _>(alloc, section, parts.cfa, encoding, regs)?
    else {
        return Err(DwarfUnwinderError::CouldNotRecoverCfa);
    };
    if is_refused(cfa, is_first_frame, regs) {
        return Err(DwarfUnwinderError::StackPointerMovedBackwards);
    }
    let own_fp = regs.fp();
    let stored_fp = eval_register_rule::<S, R, Section, _, F>(
        alloc, section, parts.fp, cfa, encoding, own_fp, regs, read_stack,
    )?;
    let Some(fp) = restored(is_first_frame, own_fp, stored_fp) else {
        return Err(DwarfUnwinderError::CouldNotRecoverFramePointer);
    };
    let own_lr = regs.lr();
    let stored_lr = eval_register_rule::<S, R, Section, _, F>(
        alloc, section, parts.ra, cfa, encoding, own_lr, regs, read_stack,
    )?;
    let Some(lr) = restored(is_first_frame, own_lr, stored_lr) else {
        return Err(DwarfUnwinderError::CouldNotRecoverReturnAddress);
    };
    Ok(registers_with(regs, lr, cfa, fp))
}

// The registers with another link register, which is stripped, stack pointer and frame pointer.
fn registers_with(regs: &UnwindRegsAarch64, lr: u64, sp: u64, fp: u64) -> UnwindRegsAarch64
    ensures { result ≡ caller_registers regs.now (lr, sp, fp) }
{
    let mut caller = *regs;
    caller.set_lr(lr);
    caller.set_sp(sp);
    caller.set_fp(fp);
    caller
}

impl PartsUnwinding for ArchAarch64 {
    ghost use Rattle.framehop_rows.specs.ScaledRowAarch64.{X29, X30};

    ghost fp = { X29 };

    ghost ra = { X30 };

    ghost scaled_rule = { scaled_rule };

    ghost direct_answer = { direct_answer };

    fn frame_pointer() -> Register {
        AArch64::X29
    }

    fn return_address() -> Register {
        AArch64::X30
    }

    fn rule_for_parts<T: ReaderOffset>(parts: &Parts<T>) -> Option<UnwindRuleAarch64> {
        translate_into_unwind_rule(parts)
    }

    fn unwind_by_parts<
        S: EvaluationStorage,
        R: Reader,
        Section: _UnwindSectionPrivate<R>,
        F: FnMut(u64) -> Result<u64, ()>,
    >(
        alloc: Global,
        section: &Section,
        parts: &Parts<R::Offset>,
        encoding: Encoding,
        regs: &mut UnwindRegsAarch64,
        is_first_frame: bool,
        read_stack: &mut F,
    ) -> Result<u64, DwarfUnwinderError> {
        match eval_parts::<S, R, Section, F>(
            alloc,
            section,
            parts,
            encoding,
            is_first_frame,
            regs,
            read_stack,
        ) {
            Ok(caller) => {
                *regs = caller;
                Ok(caller.lr())
            }
            Err(error) => Err(error),
        }
    }
}

impl DwarfUnwinding for ArchAarch64 {
    ghost use Rattle.std.specs.Prelude.{refl};
    ghost use Rattle.framehop_rows.specs.RowAttemptAarch64.{rows, MeetsExpression};
    ghost use Rattle.framehop_rows.specs.ScaledRowAarch64.{X29, X30};

    ghost rows = { rows };

    ghost MeetsExpression = { MeetsExpression };

    ghost fp = { X29 };

    ghost ra = { X30 };

    ghost apart = { (refl, refl) };

    fn unwind_frame<
        S: EvaluationStorage,
        R: Reader,
        Section: _UnwindSectionPrivate<R>,
        Rules: ArrayLike<Item = RuledRegister<RegisterRule<R::Offset>>>,
        F: FnMut(u64) -> Result<u64, ()>,
    >(
        alloc: Global,
        section: &Section,
        row: &UnwindTableRow<R::Offset, Rules>,
        encoding: Encoding,
        regs: &mut UnwindRegsAarch64,
        is_first_frame: bool,
        read_stack: &mut F,
    ) -> Result<UnwindResult<UnwindRuleAarch64>, DwarfUnwinderError> {
        let parts = parts_of_row(row, AArch64::X29, AArch64::X30);
        unwind_frame_by_parts::<ArchAarch64, S, R, Section, F>(
            alloc,
            section,
            &parts,
            encoding,
            regs,
            is_first_frame,
            read_stack,
        )
    }

    #[inline(always)]
    fn unwind_frame_by_parts<
        S: EvaluationStorage,
        R: Reader,
        Section: _UnwindSectionPrivate<R>,
        F: FnMut(u64) -> Result<u64, ()>,
    >(
        alloc: Global,
        section: &Section,
        parts: &SimpleRow,
        encoding: Encoding,
        regs: &mut UnwindRegsAarch64,
        is_first_frame: bool,
        read_stack: &mut F,
    ) -> Result<UnwindResult<UnwindRuleAarch64>, DwarfUnwinderError> {
        unwind_frame_by_parts::<ArchAarch64, S, R, Section, F>(
            alloc,
            section,
            &parts.parts(),
            encoding,
            regs,
            is_first_frame,
            read_stack,
        )
    }

    fn frame_pointer() -> Register {
        <ArchAarch64 as PartsUnwinding>::frame_pointer()
    }

    fn return_address() -> Register {
        <ArchAarch64 as PartsUnwinding>::return_address()
    }

    fn rule_if_uncovered_by_fde() -> UnwindRuleAarch64 {
        UnwindRuleAarch64::NoOpIfFirstFrameOtherwiseFp
    }

    fn vendor() -> Vendor {
        Vendor::AArch64
    }
}

/// A law of scaled rows: if a rule says a row exactly and gives a caller, that is the row's, for all
/// registers and all stacks: LR, SP and FP of the caller are those that the row's CFA and register rules
/// give. So a row that is translated needs no evaluation of its own. The function does nothing when the
/// program runs.
pub fn rule_answers_as_its_row()
    ensures { RulesAnswerAsRows scaled_rule rule_meaning row_answer }
{}
