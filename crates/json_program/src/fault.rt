//! The faults of a document.

ghost use Rattle.std.specs.Prelude.{◌≡◌};
ghost use Rattle.json_program.specs.Faults.{class, first_fault, fault_name};

use std::alloc::{AllocError, AllocFailed};
use std::fmt;

/// What is wrong with a document or a command. In one unit, the document's own
/// fields or one command, the fault that counts is the one that is listed first here.
#[derive(Clone, Copy, Debug, PartialEq, Eq)]
pub enum FaultName {
    /// More bytes than a document may have.
    TooLong,
    /// No UTF-8, or no JSON that the reader takes.
    NotJson,
    /// A number that is neither an `i64` nor a `u64`, at any depth.
    FloatNumber,
    /// A field of the document is missing, unknown or wrongly typed.
    BadDocument,
    /// A field of a command is missing, unknown or wrongly typed.
    BadCommand,
    /// An address or a number that is out of its range.
    BadNumber,
    /// Section data that is not an even number of hexadecimal digits.
    BadHex,
    /// The number of an unwinder or a cache that no earlier command made.
    UnknownNumber,
}

impl FaultName {
    /// The name as a fault's line prints it.
    pub fn name(&self) -> &'static str
        ensures { result.now ≡ fault_name self.now }
    {
        match self {
            FaultName::TooLong => "TooLong",
            FaultName::NotJson => "NotJson",
            FaultName::FloatNumber => "FloatNumber",
            FaultName::BadDocument => "BadDocument",
            FaultName::BadCommand => "BadCommand",
            FaultName::BadNumber => "BadNumber",
            FaultName::BadHex => "BadHex",
            FaultName::UnknownNumber => "UnknownNumber",
        }
    }

    // The position of the fault in the order of the classes.
    fn class(self) -> u8
        ensures { result ≡ class self }
    {
        match self {
            FaultName::TooLong => 0,
            FaultName::NotJson => 1,
            FaultName::FloatNumber => 2,
            FaultName::BadDocument => 3,
            FaultName::BadCommand => 4,
            FaultName::BadNumber => 5,
            FaultName::BadHex => 6,
            FaultName::UnknownNumber => 7,
        }
    }

    // Of two faults of one unit the one that counts.
    pub(crate) fn first_fault(self, other: FaultName) -> FaultName
        ensures { result ≡ first_fault self other }
    {
        if self.class() <= other.class() {
            self
        } else {
            other
        }
    }
}

/// The fault of a document: its name, and the unit that has it, 0 for the
/// document itself and from 1 on for the commands.
#[derive(Clone, Copy, Debug, PartialEq, Eq)]
pub struct Fault {
    /// What is wrong.
    pub name: FaultName,
    /// The unit.
    pub number: u64,
}

impl Fault {
    /// A fault of the document itself.
    pub fn of_document(name: FaultName) -> Fault
        ensures { result ≡ record { name = name; number = 0 } }
    {
        Fault { name, number: 0 }
    }
}

impl fmt::Display for Fault {
    ghost use Rattle.json_program.specs.Faults.{fault_line};
    ghost use Rattle.std.specs.Prelude.{Some};

    ghost output = { λ f. Some (fault_line f) };

    // The line of a fault, without its line feed.
    fn fmt<W: fmt::Write>(&self, f: &mut fmt::Formatter<W>) -> fmt::Result {
        write!(f, "fault {} {}", self.name.name(), self.number)
    }
}

/// Why nothing is decoded.
#[derive(Clone, Copy, Debug, PartialEq, Eq)]
pub enum DecodeError<F> {
    /// There is a fault.
    Fault(F),
    /// Memory ran out.
    OutOfMemory,
}

impl From<FaultName> for DecodeError<FaultName> {
    ghost use Rattle.json_program.specs.declared.fault.DecodeError.TheVariants as decode_error;

    ghost from_gives = { λ name given. given ≡ decode_error.Fault name };

    fn from(name: FaultName) -> DecodeError<FaultName> {
        DecodeError::Fault(name)
    }
}

impl From<Fault> for DecodeError<Fault> {
    ghost use Rattle.json_program.specs.declared.fault.DecodeError.TheVariants as decode_error;

    ghost from_gives = { λ fault given. given ≡ decode_error.Fault fault };

    fn from(fault: Fault) -> DecodeError<Fault> {
        DecodeError::Fault(fault)
    }
}

impl<F> From<AllocError> for DecodeError<F> {
    ghost use Rattle.json_program.specs.declared.fault.DecodeError.TheVariants.{OutOfMemory};

    ghost from_gives = { λ _ error. error ≡ OutOfMemory };

    fn from(_error: AllocError) -> DecodeError<F> {
        DecodeError::OutOfMemory
    }
}

impl<F, T: Drop> From<AllocFailed<T>> for DecodeError<F> {
    ghost use Rattle.json_program.specs.declared.fault.DecodeError.TheVariants.{OutOfMemory};

    ghost from_gives = { λ _ error. error ≡ OutOfMemory };

    fn from(_error: AllocFailed<T>) -> DecodeError<F> {
        DecodeError::OutOfMemory
    }
}
