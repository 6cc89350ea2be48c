//! The rows that a program makes, one after the other (DWARF 5, 6.4.3).

ghost use Rattle.std.specs.Prelude.{◌≡◌, ◌≢◌, ◌<◌, IfErr, IfOk, IsOk, OnSome, None, option_map, true};
ghost use Rattle.dwarf_constants.specs.declared.error.Error.TheVariants.{OutOfMemory};
ghost use Rattle.dwarf_frame_instructions.specs.Execution.{StepsIn, RunsIn, StartsIn};
ghost use Rattle.dwarf_frame_instructions.specs.InstructionViews.{HasFewerBy};
ghost use Rattle.dwarf_frame_instructions.specs.ProgramRows.{IsRowFor, program_of};
ghost use Rattle.dwarf_frame_instructions.specs.Programs.{destination_of, row_for};

use crate::instructions::Coding;
use crate::{CallFrameInstruction, CallFrameInstructionIter, Factors};
use dwarf_constants::{Error, Result};
use dwarf_frame_rows::{Effect, UnwindContext, UnwindContextStorage, UnwindTableRow};
use dwarf_readers::{Reader, ReaderOffset};
use dwarf_storage::ArrayLike;

// Executes an instruction in a context. Returns the location that it moves to, if it moves; any other
// instruction has its effect on the row.
#[inline(always)]
fn execute<T: ReaderOffset, S: UnwindContextStorage<T>>(
    context: &mut UnwindContext<T, S>,
    factors: &Factors,
    location: u64,
    instruction: CallFrameInstruction<T>,
) -> Result<Option<u64>>
    ensures executed { StepsIn T.value S.Stack.items S.limits S.never_allocates
        factors.now location instruction context.old context.new result }
    ensures memory { S.never_allocates → IfErr result (λ e. e ≢ OutOfMemory) }
{
    let effect = factors.effect(location, instruction)?;
    match destination(effect) {
        Some(next) => Ok(Some(next)),
        None => {
            context.apply(effect)?;
            Ok(None)
        }
    }
}

// The same by a call.
#[inline(never)]
fn execute_rare<T: ReaderOffset, S: UnwindContextStorage<T>>(
    context: &mut UnwindContext<T, S>,
    factors: &Factors,
    location: u64,
    instruction: CallFrameInstruction<T>,
) -> Result<Option<u64>>
    ensures executed { StepsIn T.value S.Stack.items S.limits S.never_allocates
        factors.now location instruction context.old context.new result }
    ensures memory { S.never_allocates → IfErr result (λ e. e ≢ OutOfMemory) }
{
    execute(context, factors, location, instruction)
}

// The same, with code of its own for the instructions that most programs have most of.
#[inline(always)]
fn execute_frequent<T: ReaderOffset, S: UnwindContextStorage<T>>(
    context: &mut UnwindContext<T, S>,
    factors: &Factors,
    location: u64,
    instruction: CallFrameInstruction<T>,
) -> Result<Option<u64>>
    ensures executed { StepsIn T.value S.Stack.items S.limits S.never_allocates
        factors.now location instruction context.old context.new result }
    ensures memory { S.never_allocates → IfErr result (λ e. e ≢ OutOfMemory) }
{
    match instruction {
        CallFrameInstruction::Nop => Ok(None),
        CallFrameInstruction::DefCfaOffset { offset } => {
            context.apply(Effect::CfaOffset(offset.cast_signed()))?;
            Ok(None)
        }
        CallFrameInstruction::Offset {
            register,
            factored_offset,
        } => {
            context.apply(factors.stored_at(register, factored_offset))?;
            Ok(None)
        }
        _ => execute(context, factors, location, instruction),
    }
}

// The location that an effect moves to, if it does.
fn destination<T: Copy>(effect: Effect<T>) -> Option<u64>
    ensures { result ≡ destination_of effect }
{
    match effect {
        Effect::Move(next) => Some(next),
        _ => None,
    }
}

// Executes instructions up to the first that moves the location, and returns that location; or all of
// them, and returns `None`.
#[inline(always)]
fn run<R: Reader, S: UnwindContextStorage<R::Offset>>(
    context: &mut UnwindContext<R::Offset, S>,
    factors: &Factors,
    location: u64,
    coding: &Coding<'_, R>,
    input: &mut R,
) -> Result<Option<u64>>
    ensures prefix { RunsIn R.stretch R.Offset.limit R.Offset.value S.Stack.items S.limits
        S.never_allocates factors.now location coding.now context.old input.old result
        context.new input.new }
    ensures falls { IfOk result (λ next. OnSome next
        (HasFewerBy R.stretch R.Offset.limit coding.now input.old input.new)) }
    ensures memory { S.never_allocates → IfErr result (λ e. e ≢ OutOfMemory) }
{
    let mut rest = *input;
    'instructions: loop {
        if rest.is_empty() {
            *input = rest;
            return Ok(None);
        }
        let next = match coding.next_if_frequent(&mut rest) {
            Some(instruction) => execute_frequent(context, factors, location, instruction)?,
            None => {
                let Some(instruction) = coding.next_by_call(&mut rest)? else {
                    *input = rest;
                    return Ok(None);
                };
                execute_rare(context, factors, location, instruction)?
            }
        };
        if next.is_some() {
            *input = rest;
            return Ok(next);
        }
    }
}

// Clears a context, executes the CIE's own instructions in it, and keeps the rules that they leave.
// They move a location of their own.
fn start<R: Reader, S: UnwindContextStorage<R::Offset>>(
    context: &mut UnwindContext<R::Offset, S>,
    factors: &Factors,
    coding: &Coding<'_, R>,
    input: R,
) -> Result<()>
    ensures started { StartsIn R.stretch R.Offset.limit R.Offset.value S.Stack.items S.limits
        S.never_allocates factors.now coding.now input context.new result }
    ensures memory { S.never_allocates → IfErr result (λ e. e ≢ OutOfMemory) }
{
    context.clear();
    let mut location = 0;
    let mut rest = input;
    while let Some(next) = run(context, factors, location, coding, &mut rest)? {
        location = next;
    }
    context.save_initial_rules()
}

/// A program: the instructions of a CIE and of an FDE, and what their execution depends on.
#[derive(Debug, Drop)]
pub struct FrameProgram<'a, R: Reader> {
    /// What operands are multiplied by, and the size of an address.
    pub factors: Factors,
    /// The first address of the code.
    pub initial_address: u64,
    /// The first address after the code, where the last row ends.
    pub end_address: u64,
    /// The CIE's own instructions.
    pub initial_instructions: CallFrameInstructionIter<'a, R>,
    /// The FDE's instructions.
    pub instructions: CallFrameInstructionIter<'a, R>,
}

/// The rows of a program that are left, in their order. After an error none are.
#[derive(Drop)]
pub struct ProgramRows<'a, 'ctx, R: Reader, S: UnwindContextStorage<R::Offset>> {
    context: &'ctx mut UnwindContext<R::Offset, S>,
    factors: Factors,
    next_start_address: u64,
    end_address: u64,
    // The FDE's instructions that are left.
    coding: Coding<'a, R>,
    input: R,
    // No further row is left.
    is_ended: bool,
    // The context holds the row that was given last.
    has_row: bool,
}

impl<'a, 'ctx, R: Reader, S: UnwindContextStorage<R::Offset>> ProgramRows<'a, 'ctx, R, S> {
    ghost use Rattle.std.specs.Bool.{OnTrue};
    ghost use Rattle.dwarf_frame_rows.specs.Row.{holds_at};
    ghost use Rattle.dwarf_frame_instructions.specs.Execution.{IsRefusal, row_in};
    ghost use Rattle.dwarf_frame_instructions.specs.Programs.{effects_of_cie};
    ghost use Rattle.dwarf_frame_instructions.specs.ProgramRows.{Advances, EndsRow, HasAllRows, current_row, rows_state, steps_left};

    /// Executes the CIE's own instructions, after which the rows are made. The context is cleared first.
    /// Fails if one of these instructions does, with `StackFull` if there is no room for the rules that
    /// they leave, and with `OutOfMemory` only in a storage that grows.
    pub fn new(
        context: &'ctx mut UnwindContext<R::Offset, S>,
        program: FrameProgram<'a, R>,
    ) -> Result<Self>
        ensures rows { IfOk result (HasAllRows R.stretch R.Offset.limit R.Offset.value
            S.Stack.items S.limits (program_of program.entry)) }
        ensures started { IfOk result (λ _. IsOk (effects_of_cie S.limits (program_of program.entry))) }
        ensures refused { IfErr result (λ e. IsRefusal S.never_allocates e
            → effects_of_cie S.limits (program_of program.entry) ≡ Err e) }
        ensures none_yet { IfOk result (λ rows.
            current_row R.Offset.value S.Stack.items rows ≡ None) }
        ensures memory { S.never_allocates → IfErr result (λ e. e ≢ OutOfMemory) }
    {
        let factors = program.factors;
        let (coding, input) = program.initial_instructions.into_parts();
        start(context, &factors, &coding, input)?;
        let (coding, input) = program.instructions.into_parts();
        Ok(ProgramRows {
            context,
            factors,
            next_start_address: program.initial_address,
            end_address: program.end_address,
            coding,
            input,
            is_ended: false,
            has_row: false,
        })
    }

    /// Goes on to the next row, which is then the current one, and returns whether there is one. Fails
    /// if an instruction before the end of that row fails, and with `OutOfMemory` only in a storage that
    /// allocates. After an error no row is left.
    #[inline(always)]
    pub fn advance(&mut self) -> Result<bool>
        ensures row { Advances R.stretch R.Offset.limit R.Offset.value S.Stack.items S.limits
            S.never_allocates self.old result self.new }
        ensures falls { let steps = steps_left R.stretch R.Offset.limit in
            IfOk result (λ more. OnTrue more (steps self.new < steps self.old)) }
        ensures same_reference { self.new.context.ghost_name ≡ self.old.context.ghost_name }
        ensures memory { S.never_allocates → IfErr result (λ e. e ≢ OutOfMemory) }
    {
        self.has_row = false;
        if self.is_ended {
            return Ok(false);
        }
        match run(
            self.context,
            &self.factors,
            self.next_start_address,
            &self.coding,
            &mut self.input,
        ) {
            Ok(Some(location)) => {
                self.end_row(location);
                Ok(true)
            }
            Ok(None) => {
                self.is_ended = true;
                self.end_row(self.end_address);
                Ok(true)
            }
            Err(error) => {
                self.is_ended = true;
                Err(error)
            }
        }
    }

    // Ends the row at this address, where the next one starts.
    fn end_row(&mut self, end: u64)
        ensures row { EndsRow R.Offset.value S.Stack.items end self.old self.new }
        ensures kept { self.new ≡ record self.old {
          context = self.new.context;
          next_start_address = end;
          has_row = true;
        } }
        ensures same_reference { self.new.context.ghost_name ≡ self.old.context.ghost_name }
    {
        self.context.set_bounds(self.next_start_address, end);
        self.next_start_address = end;
        self.has_row = true;
    }

    /// The current row: the one that the last call gave, if it gave one.
    pub fn current_row(&self) -> Option<&UnwindTableRow<R::Offset, S::Rules>>
        ensures { option_map (λ row. row_in R.Offset.value row.now) result
            ≡ current_row R.Offset.value S.Stack.items self.now }
    {
        if self.has_row {
            Some(self.context.row())
        } else {
            None
        }
    }

    /// The current row, for as long as the context is borrowed.
    pub fn into_current_row(self) -> Option<&'ctx UnwindTableRow<R::Offset, S::Rules>>
        ensures { option_map (λ row. row_in R.Offset.value row.now) result
            ≡ current_row R.Offset.value S.Stack.items self.entry }
    {
        if !self.has_row {
            return None;
        }
        Some(self.into_row())
    }

    // Whether the row of the context contains the address.
    fn is_at(&self, address: u64) -> bool
        ensures { result ≡ holds_at address
            (rows_state R.Offset.value S.Stack.items self.now).row }
    {
        self.context.row().contains(address)
    }

    // The row of the context.
    fn into_row(self) -> &'ctx UnwindTableRow<R::Offset, S::Rules>
        ensures { row_in R.Offset.value result.now
            ≡ (rows_state R.Offset.value S.Stack.items self.entry).row }
    {
        let context = self.context;
        context.row()
    }
}

/// The row of a program for an address: the first that contains it. Fails with the error of an
/// instruction before the end of that row, with `NoUnwindInfoForAddress` if no row contains the
/// address, and with `OutOfMemory` only in a storage that grows. The context is cleared first.
pub fn row_for_address<'a, 'ctx, R: Reader, S: UnwindContextStorage<R::Offset>>(
    context: &'ctx mut UnwindContext<R::Offset, S>,
    program: FrameProgram<'a, R>,
    address: u64,
) -> Result<&'ctx UnwindTableRow<R::Offset, S::Rules>>
    ensures row { IsRowFor R.Offset.value S.never_allocates
        (row_for S.limits (program_of program.entry) address) result }
    ensures memory { S.never_allocates → IfErr result (λ e. e ≢ OutOfMemory) }
{
    let mut rows = ProgramRows::new(context, program)?;
    while rows.advance()? {
        if rows.is_at(address) {
            return Ok(rows.into_row());
        }
    }
    Err(Error::NoUnwindInfoForAddress)
}
