//! How a run of the program ends.

ghost use Rattle.std.specs.Prelude.{◌≡◌, Some, codes};
ghost use Rattle.json_program.specs.declared.status.RunError.TheVariants.{OutOfMemory};

use std::alloc::{AllocError, AllocFailed};
use std::error::Error;
use std::fmt;

/// Why a run of the program stopped before its end.
#[derive(Clone, Copy, Debug, PartialEq, Eq, Hash)]
pub enum RunError {
    /// The document couldn't be read to its end.
    Read,
    /// The text couldn't be written to its end.
    Write,
    /// Memory ran out.
    OutOfMemory,
}

impl fmt::Display for RunError {
    ghost use Rattle.json_program.specs.declared.status.RunError.TheVariants as error;

    ghost output = { elim [
      | error.Read ↦ Some (codes "the document couldn't be read")
      | error.Write ↦ Some (codes "an answer couldn't be written")
      | error.OutOfMemory ↦ Some (codes "out of memory")
    ] };

    fn fmt<W: fmt::Write>(&self, f: &mut fmt::Formatter<W>) -> fmt::Result {
        f.write_str(match self {
            RunError::Read => "the document couldn't be read",
            RunError::Write => "an answer couldn't be written",
            RunError::OutOfMemory => "out of memory",
        })
    }
}

impl Error for RunError {}

impl From<AllocError> for RunError {
    ghost from_gives = { λ _ error. error ≡ OutOfMemory };

    fn from(_error: AllocError) -> RunError {
        RunError::OutOfMemory
    }
}

impl<T: Drop> From<AllocFailed<T>> for RunError {
    ghost from_gives = { λ _ error. error ≡ OutOfMemory };

    fn from(_error: AllocFailed<T>) -> RunError {
        RunError::OutOfMemory
    }
}

/// How a run that wrote its whole text ended.
#[derive(Clone, Copy, Debug, PartialEq, Eq, Hash)]
pub enum Outcome {
    /// Each command of the document was run.
    Completed,
    /// The document has a fault, and nothing was run.
    Faulted,
}

impl Outcome {
    /// The exit status of the process.
    pub fn status(self) -> u8
        ensures completed { self ≡ Outcome.Completed → result ≡ 0 }
        ensures faulted { self ≡ Outcome.Faulted → result ≡ 2 }
    {
        match self {
            Outcome::Completed => 0,
            Outcome::Faulted => 2,
        }
    }
}
