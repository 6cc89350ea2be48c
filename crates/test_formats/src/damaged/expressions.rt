//! Values of expressions.

use crate::damaged::readings::{OverReaders, Reading, check_all};
use crate::damaged::values::{COUNT, EXPRESSIONS, PLT};
use dwarf_constants::{Encoding, Error, Format, Result as Answer};
use dwarf_expressions::{Evaluation, EvaluationResult, Expression, StoreOnHeap, Value};
use dwarf_readers::Reader;
use std::alloc::Global;
use std::test::Fail;
use test_readers::Outcome;

// The value where register n is 16n + 16.
#[derive(Drop)]
struct ValueOf;

// More registers than an expression of the tests asks for.
const MOST_REGISTERS: usize = 100;

const ENCODING: Encoding = Encoding {
    address_size: 8,
    format: Format::Dwarf32,
    version: 5,
};

// The value of an expression.
fn value_of<R: Reader>(alloc: Global, reader: R) -> Answer<u64> {
    let mut evaluation = Evaluation::<R, StoreOnHeap>::new_in(alloc, Expression(reader), ENCODING)?;
    for _ in 0..MOST_REGISTERS {
        match evaluation.evaluate()? {
            EvaluationResult::Complete => {
                return evaluation.value_result().ok_or(Error::OutOfMemory);
            }
            EvaluationResult::RequiresRegister { register } => {
                let value = 16 * u64::from(register.0) + 16;
                evaluation.resume_with_register(Value::Generic(value))?;
            }
        }
    }
    Err(Error::TooManyIterations)
}

impl Reading for ValueOf {
    fn text<R: Reader>(&self, alloc: Global, reader: R) -> Result<String, Fail> {
        Ok(match value_of(alloc, reader) {
            Ok(value) => format!(in alloc; "{value:x}")?,
            Err(error) => format!(in alloc; "{error:?}")?,
        })
    }
}

#[test]
fn values_of_expressions(rt: HostRuntime) -> Outcome {
    check_all(&rt, rt.alloc(), &OverReaders(ValueOf), &PLT)?;
    check_all(&rt, rt.alloc(), &OverReaders(ValueOf), &COUNT)?;
    for readings in &EXPRESSIONS {
        check_all(&rt, rt.alloc(), &OverReaders(ValueOf), readings)?;
    }
    Ok(())
}
