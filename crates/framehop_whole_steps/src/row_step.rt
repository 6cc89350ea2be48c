//! The step by a row that is taken whole.

ghost use Rattle.std.specs.Prelude.{◌≡◌, IfNone, false};
ghost use Rattle.dwarf_frame_parts.specs.RowParts.{column_as};
ghost use Rattle.framehop_expressions.specs.Registers.{known};
ghost use Rattle.framehop_rules.specs.UnwindResults.{HasValidRule};
ghost use Rattle.framehop_unwinder.specs.Trials.{AnswersAttempt, has_wanted};
ghost use Rattle.framehop_whole_steps.specs.Attempts.{attempt_by_row, caller_at, caller_taken, is_at, is_value, registers_with};
ghost use Rattle.framehop_whole_steps.specs.FoundRows.{ends_at, is_undefined};
ghost use Rattle.framehop_whole_steps.specs.Rules.{is_valid_by};
ghost use Rattle.framehop_whole_steps.specs.Views.{Finds, FindsOver, answer_of, caller_seen, row_seen};

use crate::carrying::CarriesRegisters;
use crate::found_row::FoundRow;
use crate::known::{known_of, values_of};
use crate::registers::WholeRegs;
use crate::rule::WholeRule;
use dwarf_constants::Register;
use dwarf_frame_entries::EhFrame;
use dwarf_frame_rows::{RegisterRule, RuledRegister};
use dwarf_read_core::LittleEndian;
use dwarf_storage::ArrayLike;
use framehop_rules::{Arch, UnwindResult};
use framehop_unwinder::UnwindFailure;
use framehop_whole_rows::{KnownCaller, KnownRegisters, RowPlace};

// Whether a register is known to have this value.
fn is_value(value: u64, known: Option<u64>) -> bool
    ensures { result ≡ is_value value known }
{
    match known {
        Some(known) => known == value,
        None => false,
    }
}

// Whether a frame with these registers has this instruction pointer and this stack pointer.
fn is_at(registers: &KnownRegisters, return_address: u64, sp: u64) -> bool
    ensures { result ≡ is_at registers.now.architecture (known registers.now) return_address sp }
{
    let architecture = registers.architecture();
    let ip = registers.get(Register(architecture.instruction_pointer()));
    is_value(return_address, ip)
        && is_value(sp, registers.get(Register(architecture.stack_pointer())))
}

// Makes the registers those of a caller, whose stack pointer is this.
fn set_caller<A: CarriesRegisters>(
    regs: &mut WholeRegs<A::UnwindRegs>,
    caller: &KnownCaller,
    sp: u64,
)
    ensures { regs.new ≡ registers_with A.carrying regs.old (caller_seen caller.now) sp }
{
    let number = Register(A::frame_pointer_number());
    let fp = caller.registers.get(number).unwrap_or(0);
    A::set_frame(&mut regs.regs, caller.return_address, sp, fp);
    regs.others = Some(values_of(&caller.registers));
}

// Makes the registers those of a caller, and returns the return address, unless its stack pointer isn't known, or neither that nor the
// instruction pointer changes.
fn take_caller<A: CarriesRegisters>(
    regs: &mut WholeRegs<A::UnwindRegs>,
    registers: &KnownRegisters,
    caller: &KnownCaller,
) -> Option<u64>
    requires { registers.now.architecture ≡ A.carrying.architecture }
    ensures caller { Finds result regs.old regs.new
        (caller_taken A.carrying (known registers.now) regs.old (caller_seen caller.now)) }
    ensures stays { IfNone result (regs.new ≡ regs.old) }
{
    let number = Register(registers.architecture().stack_pointer());
    let Some(sp) = caller.registers.get(number) else {
        return None;
    };
    if is_at(registers, caller.return_address, sp) {
        return None;
    }
    set_caller::<A>(regs, caller, sp);
    Some(caller.return_address)
}

// Whether a rule of a register says that it is undefined.
fn is_undefined(rule: Option<RegisterRule<usize>>) -> bool
    ensures { result ≡ is_undefined (column_as (λ offset. offset) rule) }
{
    match rule {
        Some(RegisterRule::Undefined) => true,
        _ => false,
    }
}

// Whether a row says that there is no caller.
fn ends_at<Rules: ArrayLike<Item = RuledRegister<RegisterRule<usize>>>>(
    found: &FoundRow<'_, Rules>,
) -> bool
    ensures { result ≡ ends_at (row_seen found.now) }
{
    is_undefined(found.row.register(found.column))
}

// What is answered for a caller that was found, or for none.
fn answer_of<R>(return_address: Option<u64>) -> Result<UnwindResult<WholeRule<R>>, UnwindFailure>
    ensures { result ≡ answer_of return_address }
{
    match return_address {
        Some(return_address) => Ok(UnwindResult::Uncacheable(return_address)),
        None => Err(UnwindFailure::OfFrame),
    }
}

// The caller by a row, if there is one: its return address.
fn caller_by_row<
    A: CarriesRegisters,
    Rules: ArrayLike<Item = RuledRegister<RegisterRule<usize>>>,
    F: FnMut(u64) -> Result<u64, ()>,
>(
    found: &FoundRow<'_, Rules>,
    first: bool,
    regs: &mut WholeRegs<A::UnwindRegs>,
    read: &mut F,
) -> Option<u64>
    requires { F.IsAlwaysCallable read.old }
    ensures callable { F.IsAlwaysCallable read.new }
    ensures caller { FindsOver F.step read.old read.new result regs.old regs.new
        (caller_at A.carrying first (row_seen found.now)) }
    ensures stays { IfNone result (regs.new ≡ regs.old) }
{
    let registers = known_of::<A>(first, regs);
    let section = EhFrame::new(found.section, LittleEndian);
    let place = RowPlace::new(&section, found.row, found.column, &registers);
    match place.caller_by_row(read) {
        Ok(Some(caller)) => take_caller::<A>(regs, &registers, &caller),
        Ok(None) => None,
        Err(_) => None,
    }
}

/// The step by a row: the caller, or none for these registers, or that the walk ends.
pub fn step_by_row<
    A: CarriesRegisters,
    Rules: ArrayLike<Item = RuledRegister<RegisterRule<usize>>>,
    F: FnMut(u64) -> Result<u64, ()>,
>(
    found: &FoundRow<'_, Rules>,
    first: bool,
    regs: &mut WholeRegs<A::UnwindRegs>,
    read: &mut F,
) -> Result<UnwindResult<WholeRule<<A as Arch>::UnwindRule>>, UnwindFailure>
    requires { F.IsAlwaysCallable read.old }
    ensures callable { F.IsAlwaysCallable read.new }
    ensures answers { AnswersAttempt F.step read.old read.new regs.old regs.new result
        (attempt_by_row A.carrying first (row_seen found.now)) }
    ensures valid { HasValidRule (is_valid_by A.UnwindRule.is_valid) result }
    ensures memory { has_wanted result ≡ false }
{
    if ends_at(found) {
        return Ok(UnwindResult::ExecRule(WholeRule::Ends));
    }
    answer_of(caller_by_row::<A, Rules, F>(found, first, regs, read))
}
