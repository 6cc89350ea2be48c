//! The step by the unwind data of a PE file, on x86_64.

ghost use Rattle.std.specs.Prelude.{◌≡◌, ◌<◌, ◌≤◌, Ok, Err, IfOk, IfErr, IsTrue, IsSome};
ghost use Rattle.framehop_rules.specs.RuleMeaning.{IsValid};
ghost use Rattle.framehop_rules.specs.UnwindResults.{HasValidRule, KeepsUnlessDirect};
ghost use Rattle.framehop_pe_codes.specs.Epilogs.{pops_of};
ghost use Rattle.framehop_pe_codes.specs.Sections.{file_of};
ghost use Rattle.framehop_pe.specs.PartViews.{IsEpilogRead, IsFoundRead, IsRead};
ghost use Rattle.framehop_pe.specs.Rows.{IsIncreasing};
ghost use Rattle.framehop_pe.specs.ToUndo.{ToUndo, code_to_end, ends_by, epilog_at, row_code, to_undo_in, to_undo_at};
ghost use Rattle.framehop_pe.specs.UndoneViews.{Undoes};
ghost use Rattle.framehop_pe.specs.declared.x86_64.pe.Undoing.TheVariants as undoing;

use crate::pdata::{RuntimeFunction, function_of};
use crate::pe::PeUnwinding;
use crate::rules::{rule_of_codes, rule_of_epilog};
use framehop_errors::PeUnwinderError;
use framehop_pe_codes::{
    CodeRules, Epilog, EpilogEnds, PeSections, PrologCodes, RowCode, first_info, read_chain,
    read_epilog, unwind_by_codes, unwind_by_epilog,
};
use framehop_registers::x86_64::{Reg, UnwindRegsX86_64};
use framehop_rules::UnwindResult;
use framehop_rules::x86_64::{ArchX86_64, UnwindRuleX86_64, rules_of_sequences};

/// What is undone before a function returns.
#[derive(Clone, Copy, Debug)]
pub(crate) enum Undoing<'a> {
    // Nothing, in a leaf function.
    Leaf,
    // What is left of an epilog, of a function with this frame register.
    Epilog(Option<Reg>, Epilog<'a>),
    // The codes of a prolog.
    Codes(PrologCodes<'a>),
}

// The code of a function from an address to its end.
#[inline(always)]
fn code_to_end<'a>(
    sections: PeSections<'a>,
    address: u32,
    end: u32,
) -> Result<&'a [u8], PeUnwinderError>
    requires { address ≤ end }
    ensures ok { IfOk result (λ bytes. code_to_end (file_of sections.entry) address end ≡ Ok bytes.now) }
    ensures err { IfErr result (λ e. code_to_end (file_of sections.entry) address end ≡ Err e) }
{
    let bytes = sections.text_memory_at_rva(address)?;
    let size = (end - address) as usize;
    if bytes.len() < size {
        return Err(PeUnwinderError::MissingInstructionData(address));
    }
    Ok(&bytes[..size])
}

// The code of a row, by the next info of the chain that its info begins.
fn row_code(function: RuntimeFunction, chained: Option<u32>) -> RowCode
    ensures { result ≡ row_code function chained }
{
    RowCode {
        begin: function.begin_address,
        end: function.end_address,
        begins_function: chained.is_none(),
    }
}

// Which instructions end an epilog there.
fn ends_by(code_rules: CodeRules, row: RowCode) -> EpilogEnds
    ensures { result ≡ ends_by code_rules row }
{
    match code_rules {
        CodeRules::Published => EpilogEnds::Published,
        CodeRules::Known | CodeRules::Ways => EpilogEnds::Known(row),
    }
}

// The epilog that is left at an address in the code of a row, in a first frame.
#[tactic(auto, unfolding(framehop_pe_codes::specs::Sections::file_of))]
#[inline(always)]
fn epilog_at<'a>(
    sections: PeSections<'a>,
    row: RowCode,
    frame_register: Option<Reg>,
    address: u32,
    is_first_frame: bool,
) -> Result<Option<Epilog<'a>>, PeUnwinderError>
    requires { address ≤ row.end }
    ensures ok { IfOk result (IsEpilogRead
        (epilog_at (file_of sections.entry) row frame_register address is_first_frame)) }
    ensures err { IfErr result (λ e.
        epilog_at (file_of sections.entry) row frame_register address is_first_frame ≡ Err e) }
{
    if !is_first_frame {
        return Ok(None);
    }
    let bytes = code_to_end(sections, address, row.end)?;
    let ends = ends_by(sections.code_rules, row);
    Ok(read_epilog(ends, frame_register, bytes))
}

// What is undone at an address in a function. Its first unwind info is read before all else.
#[inline(always)]
fn to_undo_in<'a>(
    sections: PeSections<'a>,
    function: RuntimeFunction,
    address: u32,
    is_first_frame: bool,
) -> Result<Undoing<'a>, PeUnwinderError>
    requires begin { function.begin_address ≤ address }
    requires end { address < function.end_address }
    ensures ok { IfOk result (IsFoundRead
        (to_undo_in (file_of sections.entry) function address is_first_frame)) }
    ensures err { IfErr result (λ e.
        to_undo_in (file_of sections.entry) function address is_first_frame ≡ Err e) }
{
    let info = first_info(sections, function.unwind_info_address)?;
    let row = row_code(function, info.chained);
    let found = epilog_at(sections, row, info.frame_register, address, is_first_frame)?;
    match found {
        Some(epilog) => Ok(Undoing::Epilog(info.frame_register, epilog)),
        None => {
            let codes = read_chain(sections, info, address - function.begin_address)?;
            Ok(Undoing::Codes(codes))
        }
    }
}

// What is left of an epilog undone: the rule for it, or the step by it.
fn undo_epilog<F: FnMut(u64) -> Result<u64, ()>>(
    frame_register: Option<Reg>,
    epilog: Epilog<'_>,
    regs: &mut UnwindRegsX86_64,
    read_stack: &mut F,
) -> Result<UnwindResult<UnwindRuleX86_64>, PeUnwinderError>
    requires callable { F.IsAlwaysCallable read_stack.old }
    requires pops { IsSome (pops_of epilog.rest.now) }
    ensures callable { F.IsAlwaysCallable read_stack.new }
    ensures undone { Undoes F.step read_stack.old read_stack.new regs.old regs.new result
        (undoing.Epilog frame_register epilog.entry) }
    ensures valid { HasValidRule IsValid result }
    ensures keeps { KeepsUnlessDirect result regs.old regs.new }
{
    if let Some(rule) = rule_of_epilog(epilog) {
        return Ok(UnwindResult::ExecRule(rule));
    }
    let to = unwind_by_epilog(frame_register, &epilog, regs, read_stack)?;
    Ok(UnwindResult::Uncacheable(to))
}

// The codes of a prolog undone: the rule for them, or the step by them.
fn undo_codes<F: FnMut(u64) -> Result<u64, ()>>(
    codes: PrologCodes<'_>,
    regs: &mut UnwindRegsX86_64,
    read_stack: &mut F,
) -> Result<UnwindResult<UnwindRuleX86_64>, PeUnwinderError>
    requires { F.IsAlwaysCallable read_stack.old }
    ensures callable { F.IsAlwaysCallable read_stack.new }
    ensures undone { Undoes F.step read_stack.old read_stack.new regs.old regs.new result
        (undoing.Codes codes.entry) }
    ensures valid { HasValidRule IsValid result }
    ensures keeps { KeepsUnlessDirect result regs.old regs.new }
{
    if let Some(rule) = rule_of_codes(codes.left) {
        return Ok(UnwindResult::ExecRule(rule));
    }
    let to = unwind_by_codes(codes, regs, read_stack)?;
    Ok(UnwindResult::Uncacheable(to))
}

// What was read, undone.
fn undo<F: FnMut(u64) -> Result<u64, ()>>(
    undoing: Undoing<'_>,
    regs: &mut UnwindRegsX86_64,
    read_stack: &mut F,
) -> Result<UnwindResult<UnwindRuleX86_64>, PeUnwinderError>
    requires callable { F.IsAlwaysCallable read_stack.old }
    requires read { (undo : ToUndo) × IsRead undoing undo }
    ensures callable { F.IsAlwaysCallable read_stack.new }
    ensures undone { Undoes F.step read_stack.old read_stack.new regs.old regs.new result
        undoing.entry }
    ensures valid { HasValidRule IsValid result }
    ensures keeps { KeepsUnlessDirect result regs.old regs.new }
{
    match undoing {
        Undoing::Leaf => Ok(UnwindResult::ExecRule(UnwindRuleX86_64::JustReturn)),
        Undoing::Epilog(frame_register, epilog) => {
            undo_epilog(frame_register, epilog, regs, read_stack)
        }
        Undoing::Codes(codes) => undo_codes(codes, regs, read_stack),
    }
}

// What is undone at an address.
#[tactic(auto, unfolding(framehop_pe_codes::specs::Sections::file_of))]
#[inline(always)]
fn to_undo_at<'a>(
    sections: PeSections<'a>,
    address: u32,
    is_first_frame: bool,
) -> Result<Undoing<'a>, PeUnwinderError>
    requires { IsTrue sections.increasing → IsIncreasing sections.pdata.now }
    ensures ok { IfOk result (IsFoundRead
        (to_undo_at (file_of sections.entry) address is_first_frame)) }
    ensures err { IfErr result (λ e.
        to_undo_at (file_of sections.entry) address is_first_frame ≡ Err e) }
{
    match function_of(&sections, address) {
        Some(function) => to_undo_in(sections, function, address, is_first_frame),
        None => Ok(Undoing::Leaf),
    }
}

impl PeUnwinding for ArchX86_64 {
    ghost use Rattle.framehop_pe.specs.PeSteps.{attempt_x86_64};

    ghost pe_attempt = { attempt_x86_64 };

    fn unwind_frame<F: FnMut(u64) -> Result<u64, ()>>(
        sections: PeSections<'_>,
        address: u32,
        regs: &mut UnwindRegsX86_64,
        is_first_frame: bool,
        read_stack: &mut F,
    ) -> Result<UnwindResult<UnwindRuleX86_64>, PeUnwinderError> {
        let undoing = to_undo_at(sections, address, is_first_frame)?;
        undo(undoing, regs, read_stack)
    }
}
