//! What an instruction does to the parts of a row, without a context. What may fail in a context is given up.

ghost use Rattle.dwarf_frame_instructions.specs.InstructionViews.{GivesNextBy, instruction_as, instructions_by};
ghost use Rattle.dwarf_frame_parts.specs.Execution.{Executes, ExecutesNext};

use crate::parts_state::PartsState;
use crate::simple_row::Columns;
use dwarf_constants::Result;
use dwarf_frame_instructions::{CallFrameInstruction, Coding, Factors};
use dwarf_frame_rows::Effect;
use dwarf_readers::{Reader, ReaderOffset};

// What an instruction does.
#[derive(Clone, Copy)]
pub(crate) enum Action {
    // It moves the location.
    Moves(u64),
    // It writes to the row.
    Writes,
    // It may fail.
    GivesUp,
}

// Executes an instruction without a context.
#[inline(always)]
fn execute<T: ReaderOffset>(
    state: &mut PartsState,
    columns: Columns,
    factors: &Factors,
    location: u64,
    instruction: CallFrameInstruction<T>,
) -> Action
    ensures { Executes columns factors.now location (instruction_as T.value instruction)
        state.old state.new result }
{
    let Ok(effect) = factors.effect(location, instruction) else {
        return Action::GivesUp;
    };
    if let Effect::Move(next) = effect {
        return Action::Moves(next);
    }
    if state.apply(columns, effect) {
        Action::Writes
    } else {
        Action::GivesUp
    }
}

// The same, with code of its own for each of the instructions that most programs have most of: what is known of the instruction is
// known of its effect then.
#[inline(always)]
fn execute_frequent<T: ReaderOffset>(
    state: &mut PartsState,
    columns: Columns,
    factors: &Factors,
    location: u64,
    instruction: CallFrameInstruction<T>,
) -> Action
    ensures { Executes columns factors.now location (instruction_as T.value instruction)
        state.old state.new result }
{
    match instruction {
        CallFrameInstruction::AdvanceLoc { delta } => {
            let instruction = CallFrameInstruction::AdvanceLoc { delta };
            execute::<T>(state, columns, factors, location, instruction)
        }
        CallFrameInstruction::DefCfaOffset { offset } => {
            let instruction = CallFrameInstruction::DefCfaOffset { offset };
            execute::<T>(state, columns, factors, location, instruction)
        }
        CallFrameInstruction::Offset {
            register,
            factored_offset,
        } => {
            let instruction = CallFrameInstruction::Offset {
                register,
                factored_offset,
            };
            execute::<T>(state, columns, factors, location, instruction)
        }
        CallFrameInstruction::Restore { register } => {
            let instruction = CallFrameInstruction::Restore { register };
            execute::<T>(state, columns, factors, location, instruction)
        }
        CallFrameInstruction::RememberState => {
            let instruction = CallFrameInstruction::RememberState;
            execute::<T>(state, columns, factors, location, instruction)
        }
        CallFrameInstruction::RestoreState => {
            let instruction = CallFrameInstruction::RestoreState;
            execute::<T>(state, columns, factors, location, instruction)
        }
        CallFrameInstruction::Nop => {
            let instruction = CallFrameInstruction::Nop;
            execute::<T>(state, columns, factors, location, instruction)
        }
        other => execute(state, columns, factors, location, other),
    }
}

// The next instruction, by a call if bytes are left: most programs end after a frequent one.
#[inline(always)]
pub(crate) fn next_left<R: Reader>(
    coding: &Coding<'_, R>,
    input: &mut R,
) -> Result<Option<CallFrameInstruction<R::Offset>>>
    ensures { GivesNextBy R.stretch R.Offset.limit R.Offset.value coding.now result input.old input.new }
{
    if input.is_empty() {
        return Ok(None);
    }
    coding.next_by_call(input)
}

// Executes the next instruction without a context, if one is left. One that can't be read is given up. If it isn't a frequent one, the
// state is passed to a call as a copy, and so it needn't be kept in memory.
#[inline(always)]
pub(crate) fn execute_next<R: Reader>(
    state: &mut PartsState,
    columns: Columns,
    factors: &Factors,
    location: u64,
    coding: &Coding<'_, R>,
    input: &mut R,
) -> Option<Action>
    ensures { let instructions = instructions_by R.stretch R.Offset.limit coding.now in
        ExecutesNext columns factors.now location (instructions input.old) (instructions input.new) state.old state.new result }
{
    if let Some(instruction) = coding.next_if_frequent(input) {
        return Some(execute_frequent(state, columns, factors, location, instruction));
    }
    let Ok(next) = next_left(coding, input) else {
        return Some(Action::GivesUp);
    };
    let instruction = next?;
    let mut after = *state;
    let action = execute_by_call(&mut after, columns, factors, location, instruction);
    *state = after;
    Some(action)
}

// Executes an instruction by a call, so that the code for those that are frequent is short.
#[inline(never)]
fn execute_by_call<T: ReaderOffset>(
    state: &mut PartsState,
    columns: Columns,
    factors: &Factors,
    location: u64,
    instruction: CallFrameInstruction<T>,
) -> Action
    ensures { Executes columns factors.now location (instruction_as T.value instruction)
        state.old state.new result }
{
    execute(state, columns, factors, location, instruction)
}
