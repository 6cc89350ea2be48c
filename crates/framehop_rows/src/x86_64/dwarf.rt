//! The rows of x86_64: as unwind rules, or evaluated.

ghost use Rattle.std.specs.Prelude.{◌≡◌, ◌≢◌, Err, IfErr, IfSome};
ghost use Rattle.framehop_registers.specs.Callback.{OverWords};
ghost use Rattle.framehop_rows.specs.DirectRow.{direct_refusal, direct_answer};
ghost use Rattle.framehop_rows.specs.DirectViews.{caller_shown, return_address_in};
ghost use Rattle.framehop_rows.specs.RowValues.{EvaluatesOver};
ghost use Rattle.framehop_rows.specs.Memory.{HasExpressionPart, IsColumnExpression, TakesMemory};
ghost use Rattle.framehop_rules.specs.RuleMeaning.{rule_meaning, IsValid};
ghost use Rattle.framehop_rows.specs.RowAnswer.{row_answer, register_value};
ghost use Rattle.framehop_errors.specs.declared.dwarf.DwarfUnwinderError.TheVariants.{OutOfMemory};
ghost use Rattle.framehop_rows.specs.RowErrors.{IsOfRow};
ghost use Rattle.dwarf_frame_parts.specs.RowParts.{column_as, parts_as};
ghost use Rattle.framehop_rows.specs.RuleLaws.{RulesAnswerAsRows};
ghost use Rattle.framehop_rows.specs.ScaledRow.{raised_sp, restored_bp, from_sp, from_bp, scaled_rule};

use crate::dwarf::DwarfUnwinding;
use crate::evaluation::{DwarfUnwindRegs, eval_cfa_rule, eval_register_rule, read_below};
use crate::rows::{PartsUnwinding, unwind_frame_by_parts};
use crate::rule_fields::{unsigned_words, words_from_base};
use dwarf_constants::{Encoding, Register, Vendor, X86_64};
use dwarf_expressions::EvaluationStorage;
use dwarf_frame_parts::{Parts, SimpleRow, parts_of_row};
use dwarf_frame_rows::{
    _UnwindSectionPrivate, CfaRule, RegisterRule, RuledRegister, UnwindTableRow,
};
use dwarf_readers::{Reader, ReaderOffset};
use dwarf_storage::ArrayLike;
use framehop_errors::DwarfUnwinderError;
use framehop_rules::UnwindResult;
use framehop_rules::x86_64::{ArchX86_64, UnwindRegsX86_64, UnwindRuleX86_64};
use std::alloc::{AllocError, Global};

/// RSP, RBP, and RIP by the number of the return address (System V ABI for AMD64, figure 3.36).
impl DwarfUnwindRegs for UnwindRegsX86_64 {
    ghost value = { register_value };

    fn get(&self, register: Register) -> Option<u64> {
        match register {
            X86_64::RA => Some(self.ip()),
            X86_64::RSP => Some(self.sp()),
            X86_64::RBP => Some(self.bp()),
            _ => None,
        }
    }
}

// The rule for a CFA that is RSP plus an offset, if RBP stays.
#[inline(always)]
fn rule_that_raises(offset: i64) -> Option<UnwindRuleX86_64>
    ensures rule { result ≡ raised_sp offset }
    ensures valid { IfSome result IsValid }
{
    let sp_offset_by_8 = unsigned_words(offset)?;
    Some(UnwindRuleX86_64::OffsetSp { sp_offset_by_8 })
}

// The rule for a CFA that is RSP plus an offset, if RBP is stored at another offset from the CFA.
#[inline(always)]
fn rule_that_restores(offset: i64, stored: i64) -> Option<UnwindRuleX86_64>
    ensures rule { result ≡ restored_bp offset stored }
    ensures valid { IfSome result IsValid }
{
    let sp_offset_by_8 = unsigned_words(offset)?;
    let bp_storage_offset_from_sp_by_8 = words_from_base(offset, stored)?;
    Some(UnwindRuleX86_64::OffsetSpAndRestoreBp {
        sp_offset_by_8,
        bp_storage_offset_from_sp_by_8,
    })
}

// The rule for a CFA that is RSP plus an offset.
#[inline(always)]
fn rule_from_sp<T: Copy>(offset: i64, bp: Option<RegisterRule<T>>) -> Option<UnwindRuleX86_64>
    ensures rule { result ≡ from_sp offset bp }
    ensures valid { IfSome result IsValid }
{
    match bp {
        None | Some(RegisterRule::Undefined | RegisterRule::SameValue) => rule_that_raises(offset),
        Some(RegisterRule::Offset(stored)) => rule_that_restores(offset, stored),
        Some(_) => None,
    }
}

// The rule for a CFA that is RBP plus an offset. Only the frame of `push rbp; mov rbp, rsp` has one; rows with
// other offsets from RBP are evaluated.
#[inline(always)]
fn rule_from_bp<T: Copy>(offset: i64, bp: Option<RegisterRule<T>>) -> Option<UnwindRuleX86_64>
    ensures rule { result ≡ from_bp offset bp }
    ensures valid { IfSome result IsValid }
{
    match bp {
        Some(RegisterRule::Offset(-16)) if offset == 16 => Some(UnwindRuleX86_64::UseFramePointer),
        _ => None,
    }
}

// The rule that says parts of a row exactly, if one does.
#[inline(always)]
fn translate_into_unwind_rule<T: Copy>(parts: &Parts<T>) -> Option<UnwindRuleX86_64>
    ensures rule { result ≡ scaled_rule parts.now }
    ensures valid { IfSome result IsValid }
{
    match parts.ra {
        None | Some(RegisterRule::Undefined) => return Some(UnwindRuleX86_64::EndOfStack),
        Some(RegisterRule::Offset(-8)) => {}
        Some(_) => return None,
    }
    match parts.cfa {
        CfaRule::RegisterAndOffset {
            register: X86_64::RSP,
            offset,
        } => rule_from_sp(offset, parts.fp),
        CfaRule::RegisterAndOffset {
            register: X86_64::RBP,
            offset,
        } => rule_from_bp(offset, parts.fp),
        CfaRule::RegisterAndOffset { .. } | CfaRule::Expression(_) => None,
    }
}

// The caller of a frame, as parts of a row give it.
#[derive(Clone, Copy)]
struct DirectCaller {
    return_address: u64,
    sp: u64,
    bp: u64,
}

// The return address at a CFA: what its register rule gives, or else the word below the CFA. Only the values
// of an expression may allocate.
fn eval_return_address<
    S: EvaluationStorage,
    R: Reader,
    Section: _UnwindSectionPrivate<R>,
    F: FnMut(u64) -> Result<u64, ()>,
>(
    alloc: Global,
    section: &Section,
    rule: Option<RegisterRule<R::Offset>>,
    cfa: u64,
    encoding: Encoding,
    regs: &UnwindRegsX86_64,
    read_stack: &mut F,
) -> Result<Option<u64>, AllocError>
    requires { F.IsAlwaysCallable read_stack.old }
    ensures callable { F.IsAlwaysCallable read_stack.new }
    ensures value { EvaluatesOver F.step read_stack.old read_stack.new result
        (return_address_in S.Stack.capacity encoding
        (R.stretch (Section.reader section.now)) regs.now
        cfa (column_as R.Offset.value rule)) }
    ensures expression { IfErr result (λ _.
        IsColumnExpression (column_as R.Offset.value rule)) }
    ensures memory { IfErr result (λ _. TakesMemory S.Stack.is_made_in_place S.Stack.capacity) }
{
    let ip = regs.ip();
    let stored = eval_register_rule::<S, R, Section, _, F>(
        alloc, section, rule, cfa, encoding, ip, regs, read_stack,
    )?;
    match stored {
        Some(return_address) => Ok(Some(return_address)),
        None => Ok(read_below(cfa, read_stack)),
    }
}

// Why a step to this CFA and return address fails, if it does.
fn refusal(
    cfa: u64,
    return_address: u64,
    is_first_frame: bool,
    regs: &UnwindRegsX86_64,
) -> Option<DwarfUnwinderError>
    ensures refusal { result ≡ direct_refusal is_first_frame regs.now cfa return_address }
    ensures of_row { IfSome result IsOfRow }
{
    if cfa == regs.sp() && return_address == regs.ip() {
        return Some(DwarfUnwinderError::DidNotAdvance);
    }
    if !is_first_frame && cfa < regs.sp() {
        return Some(DwarfUnwinderError::StackPointerMovedBackwards);
    }
    None
}

// The caller that parts of a row give. RBP stays if its register rule gives no value.
fn eval_parts<
    S: EvaluationStorage,
    R: Reader,
    Section: _UnwindSectionPrivate<R>,
    F: FnMut(u64) -> Result<u64, ()>,
>(
    alloc: Global,
    section: &Section,
    parts: &Parts<R::Offset>,
    encoding: Encoding,
    is_first_frame: bool,
    regs: &UnwindRegsX86_64,
    read_stack: &mut F,
) -> Result<DirectCaller, DwarfUnwinderError>
    requires { F.IsAlwaysCallable read_stack.old }
    ensures callable { F.IsAlwaysCallable read_stack.new }
    ensures caller { OverWords F.step read_stack.old read_stack.new (λ words.
        result ≢ Err OutOfMemory → caller_shown regs.now result
        ≡ direct_answer S.Stack.capacity encoding.address_size is_first_frame regs.now words
        (R.stretch (Section.reader section.now)) (parts_as R.Offset.value parts.now)) }
    ensures refusals { IfErr result IsOfRow }
    ensures expression { result ≡ Err OutOfMemory
        → HasExpressionPart (parts_as R.Offset.value parts.now) }
    ensures memory { result ≡ Err OutOfMemory
        → TakesMemory S.Stack.is_made_in_place S.Stack.capacity }
{
    let Some(cfa) = eval_cfa_rule::<S, R, Section, _>(alloc, section, parts.cfa, encoding, regs)?
    else {
        return Err(DwarfUnwinderError::CouldNotRecoverCfa);
    };
    let bp = regs.bp();
    let stored_bp = eval_register_rule::<S, R, Section, _, F>(
        alloc, section, parts.fp, cfa, encoding, bp, regs, read_stack,
    )?;
    let Some(return_address) = eval_return_address::<S, R, Section, F>(
        alloc, section, parts.ra, cfa, encoding, regs, read_stack,
    )?
    else {
        return Err(DwarfUnwinderError::CouldNotRecoverReturnAddress);
    };
    match refusal(cfa, return_address, is_first_frame, regs) {
        Some(refusal) => Err(refusal),
        None => Ok(DirectCaller {
            return_address,
            sp: cfa,
            bp: stored_bp.unwrap_or(bp),
        }),
    }
}

impl PartsUnwinding for ArchX86_64 {
    ghost use Rattle.framehop_rows.specs.ScaledRow.{RBP, RA};

    ghost fp = { RBP };

    ghost ra = { RA };

    ghost scaled_rule = { scaled_rule };

    ghost direct_answer = { direct_answer };

    fn frame_pointer() -> Register {
        X86_64::RBP
    }

    fn return_address() -> Register {
        X86_64::RA
    }

    fn rule_for_parts<T: ReaderOffset>(parts: &Parts<T>) -> Option<UnwindRuleX86_64> {
        translate_into_unwind_rule(parts)
    }

    fn unwind_by_parts<
        S: EvaluationStorage,
        R: Reader,
        Section: _UnwindSectionPrivate<R>,
        F: FnMut(u64) -> Result<u64, ()>,
    >(
        alloc: Global,
        section: &Section,
        parts: &Parts<R::Offset>,
        encoding: Encoding,
        regs: &mut UnwindRegsX86_64,
        is_first_frame: bool,
        read_stack: &mut F,
    ) -> Result<u64, DwarfUnwinderError> {
        match eval_parts::<S, R, Section, F>(
            alloc,
            section,
            parts,
            encoding,
            is_first_frame,
            regs,
            read_stack,
        ) {
            Ok(caller) => {
                regs.set_ip(caller.return_address);
                regs.set_sp(caller.sp);
                regs.set_bp(caller.bp);
                Ok(caller.return_address)
            }
            Err(error) => Err(error),
        }
    }
}

impl DwarfUnwinding for ArchX86_64 {
    ghost use Rattle.std.specs.Prelude.{refl};
    ghost use Rattle.framehop_rows.specs.RowAttemptX86_64.{rows, MeetsExpression};
    ghost use Rattle.framehop_rows.specs.ScaledRow.{RBP, RA};

    ghost rows = { rows };

    ghost MeetsExpression = { MeetsExpression };

    ghost fp = { RBP };

    ghost ra = { RA };

    ghost apart = { (refl, refl) };

    fn unwind_frame<
        S: EvaluationStorage,
        R: Reader,
        Section: _UnwindSectionPrivate<R>,
        Rules: ArrayLike<Item = RuledRegister<RegisterRule<R::Offset>>>,
        F: FnMut(u64) -> Result<u64, ()>,
    >(
        alloc: Global,
        section: &Section,
        row: &UnwindTableRow<R::Offset, Rules>,
        encoding: Encoding,
        regs: &mut UnwindRegsX86_64,
        is_first_frame: bool,
        read_stack: &mut F,
    ) -> Result<UnwindResult<UnwindRuleX86_64>, DwarfUnwinderError> {
        let parts = parts_of_row(row, X86_64::RBP, X86_64::RA);
        unwind_frame_by_parts::<ArchX86_64, S, R, Section, F>(
            alloc,
            section,
            &parts,
            encoding,
            regs,
            is_first_frame,
            read_stack,
        )
    }

    #[inline(always)]
    fn unwind_frame_by_parts<
        S: EvaluationStorage,
        R: Reader,
        Section: _UnwindSectionPrivate<R>,
        F: FnMut(u64) -> Result<u64, ()>,
    >(
        alloc: Global,
        section: &Section,
        parts: &SimpleRow,
        encoding: Encoding,
        regs: &mut UnwindRegsX86_64,
        is_first_frame: bool,
        read_stack: &mut F,
    ) -> Result<UnwindResult<UnwindRuleX86_64>, DwarfUnwinderError> {
        unwind_frame_by_parts::<ArchX86_64, S, R, Section, F>(
            alloc,
            section,
            &parts.parts(),
            encoding,
            regs,
            is_first_frame,
            read_stack,
        )
    }

    fn frame_pointer() -> Register {
        <ArchX86_64 as PartsUnwinding>::frame_pointer()
    }

    fn return_address() -> Register {
        <ArchX86_64 as PartsUnwinding>::return_address()
    }

    fn rule_if_uncovered_by_fde() -> UnwindRuleX86_64 {
        UnwindRuleX86_64::JustReturnIfFirstFrameOtherwiseFp
    }

    fn vendor() -> Vendor {
        Vendor::Default
    }
}

/// A law of scaled rows: if a rule says a row exactly and gives a caller, that is the row's, for all
/// registers and all stacks: RIP, RSP and RBP of the caller are those that the row's CFA and register rules
/// give. So a row that is translated needs no evaluation of its own. The function does nothing when the
/// program runs.
pub fn rule_answers_as_its_row()
    ensures { RulesAnswerAsRows scaled_rule rule_meaning row_answer }
{}
