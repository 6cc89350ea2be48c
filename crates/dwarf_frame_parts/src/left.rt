//! What a CIE's own instructions leave of the parts of a row.

ghost use Rattle.std.specs.Prelude.{IsTrue, IfSome};
ghost use Rattle.dwarf_frame_parts.specs.Execution.{AreLeftBy, Sets};

use crate::execution::next_left;
use crate::simple_row::{Columns, SimpleRow, SimpleRule};
use dwarf_frame_instructions::{CallFrameInstruction, CallFrameInstructionIter, Factors};
use dwarf_frame_rows::Effect;
use dwarf_readers::{Reader, ReaderOffset};

/// What a CIE's own instructions leave of the parts of a row. It is the same for each FDE that has the CIE.
#[derive(Debug, Clone, Copy)]
pub struct LeftByCie {
    pub(crate) row: SimpleRow,
}

// Executes one of a CIE's own instructions, if it sets the CFA or a rule, or does nothing.
#[inline(always)]
fn set_by<T: ReaderOffset>(
    row: &mut SimpleRow,
    columns: Columns,
    factors: &Factors,
    instruction: CallFrameInstruction<T>,
) -> bool
    ensures { IsTrue result → Sets columns T.value factors.now instruction row.old row.new }
{
    match factors.effect(0, instruction) {
        Ok(Effect::Cfa(rule)) => row.set_cfa(rule),
        Ok(Effect::Rule(register, rule)) => match SimpleRule::of(rule) {
            Some(rule) => row.set_rule(columns, register, rule),
            None => row.pass_rule(columns, register),
        },
        Ok(Effect::Nothing) => true,
        _ => false,
    }
}

/// What a CIE's own instructions leave, if they only set the CFA and rules, each without an expression if it is kept.
#[inline(always)]
pub fn left_by_cie<R: Reader>(
    columns: Columns,
    factors: &Factors,
    instructions: CallFrameInstructionIter<'_, R>,
) -> Option<LeftByCie>
    ensures { IfSome result (AreLeftBy columns factors.now instructions.entry) }
{
    let (coding, input) = instructions.into_parts();
    let mut input = input;
    let mut row = SimpleRow::new();
    'instructions: loop {
        let instruction = match coding.next_if_frequent(&mut input) {
            Some(instruction) => instruction,
            None => {
                let Ok(next) = next_left(&coding, &mut input) else {
                    return None;
                };
                let Some(instruction) = next else {
                    return Some(LeftByCie { row });
                };
                instruction
            }
        };
        if !set_by(&mut row, columns, factors, instruction) {
            return None;
        }
    }
}
