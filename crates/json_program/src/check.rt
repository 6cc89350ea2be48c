//! Checks of values, and which of several faults counts.

ghost use Rattle.std.specs.Prelude.{◌≡◌};
ghost use Rattle.json_program.specs.Faults.{both, keep_fault, unit_answer, with_fault};

use crate::fault::{DecodeError, Fault, FaultName};
use std::alloc::AllocError;

/// A value, or the fault that there is in place of it.
pub type Checked<T> = Result<T, FaultName>;

/// Both values, or the fault that counts.
pub fn both<A: Drop, B: Drop>(a: Checked<A>, b: Checked<B>) -> Checked<(A, B)>
    ensures { result ≡ both a b }
{
    match (a, b) {
        (Ok(a), Ok(b)) => Ok((a, b)),
        (Ok(_), Err(name)) => Err(name),
        (Err(name), Ok(_)) => Err(name),
        (Err(first), Err(second)) => Err(first.first_fault(second)),
    }
}

/// The fault that counts, of those so far and one more.
pub fn with_fault(fault: Option<FaultName>, name: FaultName) -> Option<FaultName>
    ensures { result ≡ with_fault fault name }
{
    match fault {
        None => Some(name),
        Some(first) => Some(first.first_fault(name)),
    }
}

/// The result of a unit's check: a fault gets the number of the unit.
pub fn in_unit<T>(
    number: u64,
    answer: Result<T, DecodeError<FaultName>>,
) -> Result<T, DecodeError<Fault>>
    ensures { result ≡ unit_answer number answer }
{
    match answer {
        Ok(value) => Ok(value),
        Err(DecodeError::Fault(name)) => Err(DecodeError::Fault(Fault { name, number })),
        Err(DecodeError::OutOfMemory) => Err(DecodeError::OutOfMemory),
    }
}

/// Keeps a fault as a value, to be compared with those of other fields. Fails if memory ran out,
/// which ends a check at once.
pub fn keep_fault<T>(answer: Result<T, DecodeError<FaultName>>) -> Result<Checked<T>, AllocError>
    ensures { result ≡ keep_fault answer }
{
    match answer {
        Ok(value) => Ok(Ok(value)),
        Err(DecodeError::Fault(name)) => Ok(Err(name)),
        Err(DecodeError::OutOfMemory) => Err(AllocError),
    }
}
