//! The columns of an entry's table.

ghost use Rattle.std.specs.Prelude.{◌≡◌, IfOk, OnOk};
ghost use Rattle.frame_table.specs.Columns.{all_nops, columns_with, is_nop, register_named, with_column};

use dwarf_frame_instructions::{CallFrameInstruction, CallFrameInstructionIter};
use dwarf_readers::Reader;
use std::alloc::AllocError;
use std::collections::BTreeSet;

// The register whose rule an instruction sets or restores, if it does.
fn register_named<T>(instruction: &CallFrameInstruction<T>) -> Option<u16>
    ensures { result ≡ register_named instruction.now }
{
    match instruction {
        CallFrameInstruction::Undefined { register }
        | CallFrameInstruction::SameValue { register }
        | CallFrameInstruction::Offset { register, .. }
        | CallFrameInstruction::OffsetExtendedSf { register, .. }
        | CallFrameInstruction::ValOffset { register, .. }
        | CallFrameInstruction::ValOffsetSf { register, .. }
        | CallFrameInstruction::Register {
            dest_register: register,
            ..
        }
        | CallFrameInstruction::Expression { register, .. }
        | CallFrameInstruction::ValExpression { register, .. }
        | CallFrameInstruction::Restore { register } => Some(register.0),
        _ => None,
    }
}

// Whether an instruction is padding.
fn is_nop<T>(instruction: &CallFrameInstruction<T>) -> bool
    ensures { result ≡ is_nop instruction.now }
{
    matches!(instruction, CallFrameInstruction::Nop)
}

// Adds the column of a register, if there is one.
fn add_column(columns: &mut BTreeSet<u16>, register: Option<u16>) -> Result<(), AllocError>
    ensures { OnOk result (columns.new.keys ≡ with_column columns.old.keys register) }
{
    if let Some(register) = register {
        columns.insert(register)?;
    }
    Ok(())
}

/// Adds the columns of the registers that instructions name, and returns whether all of them are
/// padding. An instruction that can't be read is none.
pub fn add_columns<'a, R: Reader>(
    columns: &mut BTreeSet<u16>,
    mut instructions: CallFrameInstructionIter<'a, R>,
) -> Result<bool, AllocError>
    ensures columns { OnOk result
        (columns.new.keys ≡ columns_with columns.old.keys instructions.entry) }
    ensures nops { IfOk result (λ nops. nops ≡ all_nops instructions.entry) }
{
    let mut nops = true;
    'instructions: loop {
        match instructions.next() {
            Ok(Some(instruction)) => {
                add_column(columns, register_named(&instruction))?;
                nops = nops && is_nop(&instruction);
            }
            Ok(None) => return Ok(nops),
            Err(_) => return Ok(false),
        }
    }
}
