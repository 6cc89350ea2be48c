//! Questions to expressions about their operations and their values.

use crate::answers::question::{Question, unknown, with_errors};
use crate::answers::stored::{Fixed, Reserved};
use dwarf_constants::{Encoding, Error, Format, Register, Result, X86_64};
use dwarf_expressions::{
    Evaluation, EvaluationResult, EvaluationStorage, Expression, StoreOnHeap, Value,
};
use dwarf_readers::{Reader, ReaderOffset};
use std::alloc::Global;

fn sized(address_size: u8) -> Encoding {
    Encoding {
        address_size,
        format: Format::Dwarf32,
        version: 5,
    }
}

/// What an expression of a reader's bytes answers.
pub fn answer<R: Reader>(
    alloc: Global,
    reader: R,
    question: Question<'_>,
) -> anyhow::Result<String> {
    match question.name {
        "value" => values(alloc, reader, question.byte()),
        "value_by" => {
            let value = value_by(alloc, reader, question.numbers);
            with_errors(alloc, shown(alloc, value))
        }
        "operations" => operations(alloc, reader),
        _ => Ok(unknown(alloc)?),
    }
}

// The text of a value.
fn shown(alloc: Global, value: Result<u64>) -> Result<String> {
    let value = value?;
    Ok(format!(in alloc; "{value:#x}")?)
}

// The value of an expression that asks for no register.
fn value_of<R: Reader, S: EvaluationStorage>(
    alloc: Global,
    reader: R,
    address_size: u8,
) -> Result<u64> {
    let mut evaluation = Evaluation::<R, S>::new_in(
        alloc,
        Expression(reader),
        sized(address_size),
    )?;
    match evaluation.evaluate()? {
        EvaluationResult::Complete => evaluation
            .value_result()
            .ok_or(Error::UnsupportedEvaluation),
        EvaluationResult::RequiresRegister { .. } => Err(Error::UnsupportedEvaluation),
    }
}

// The value of an expression, over a stack of each storage, or all three values if they differ.
fn values<R: Reader>(alloc: Global, reader: R, address_size: u8) -> anyhow::Result<String> {
    let fixed = value_of::<R, Fixed>(alloc, reader, address_size);
    let reserved = value_of::<R, Reserved>(alloc, reader, address_size);
    let growing = value_of::<R, StoreOnHeap>(alloc, reader, address_size);
    if fixed == growing && reserved == growing {
        return with_errors(alloc, shown(alloc, growing));
    }
    Ok(format!(in alloc; "{fixed:?}, {reserved:?}, {growing:?}")?)
}

// The values of RSP, RBP and RIP.
fn register_of([sp, bp, ip]: [u64; 3], register: Register) -> u64 {
    match register {
        X86_64::RSP => sp,
        X86_64::RBP => bp,
        X86_64::RA => ip,
        _ => 0,
    }
}

// The value of an expression by these registers.
fn value_by<R: Reader>(alloc: Global, reader: R, registers: [u64; 3]) -> Result<u64> {
    let mut evaluation = Evaluation::<R, Fixed>::new_in(alloc, Expression(reader), sized(8))?;
    let mut answer = evaluation.evaluate()?;
    'requests: while let EvaluationResult::RequiresRegister { register } = answer {
        let value = Value::Generic(register_of(registers, register));
        answer = evaluation.resume_with_register(value)?;
    }
    evaluation
        .value_result()
        .ok_or(Error::UnsupportedEvaluation)
}

// The operations of an expression, the fault if there is one, and the end, which is asked for twice.
fn operations<R: Reader>(alloc: Global, reader: R) -> anyhow::Result<String> {
    let mut shown = String::new(alloc);
    let mut operations = Expression(reader).operations(sized(8));
    let mut is_over = false;
    for _ in 0..reader.len().into_u64().saturating_add(3) {
        match operations.next() {
            Ok(Some(operation)) => write!(shown, "{operation:?}, ")?,
            Err(fault) => write!(shown, "{fault:?}, ")?,
            Ok(None) if is_over => break,
            Ok(None) => {
                shown.write("end")?;
                is_over = true;
            }
        }
    }
    Ok(shown)
}
