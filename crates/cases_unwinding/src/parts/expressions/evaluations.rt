//! Evaluations of one expression.

ghost use Rattle.std.specs.Prelude.{◌≡◌};

use arrayvec::ArrayVec;
use dwarf_constants::{Encoding, Error, Format, Register, Result, X86_64};
use dwarf_expressions::{Evaluation, EvaluationResult, EvaluationStorage, Expression, Value};
use dwarf_readers::{EndianSlice, LittleEndian, Reader};
use std::alloc::Global;

const ENCODING: Encoding = Encoding {
    address_size: 8,
    format: Format::Dwarf32,
    version: 5,
};

/// Room for 64 values, in place.
struct Fixed;

impl EvaluationStorage for Fixed {
    type Stack = ArrayVec<u64, 64>;
}

/// The values of RSP and RIP.
#[derive(Clone, Copy)]
pub struct Registers {
    sp: u64,
    ip: u64,
}

impl Registers {
    /// Those at an address of code.
    pub fn at(ip: u64) -> Registers {
        Registers { sp: 0x7000, ip }
    }

    fn get(&self, register: Register) -> u64 {
        match register {
            X86_64::RSP => self.sp,
            X86_64::RA => self.ip,
            _ => 0,
        }
    }
}

/// The value of an expression that asks for at most eight registers.
pub fn value_of(
    alloc: Global,
    expression: EndianSlice<'_, LittleEndian>,
    registers: Registers,
) -> Result<u64> {
    let expression = Expression(expression);
    let mut evaluation = Evaluation::<_, Fixed>::new_in(alloc, expression, ENCODING)?;
    evaluate(&mut evaluation, registers)?;
    evaluation
        .value_result()
        .ok_or(Error::UnsupportedEvaluation)
}

// Evaluates, and answers what is asked for.
#[inline(always)]
fn evaluate<R: Reader, S: EvaluationStorage>(
    evaluation: &mut Evaluation<R, S>,
    registers: Registers,
) -> Result<()> {
    let mut answer = evaluation.evaluate()?;
    for _ in 0..8 {
        match answer {
            EvaluationResult::Complete => break,
            EvaluationResult::RequiresRegister { register } => {
                let value = Value::Generic(registers.get(register));
                answer = evaluation.resume_with_register(value)?;
            }
        }
    }
    Ok(())
}

/// The sum of `count` values, in turn at each address of an entry of a PLT. An error counts as 0.
pub fn sum_of_values(alloc: Global, expression: EndianSlice<'_, LittleEndian>, count: u64) -> u64 {
    let mut sum: u64 = 0;
    for offset in 0..count {
        let registers = Registers::at(0x1020 + offset % 16);
        let value = value_of(alloc, expression, registers).unwrap_or(0);
        sum = sum.wrapping_add(value);
    }
    sum
}
