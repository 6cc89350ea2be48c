//! One run of the program: a document in, the listing of its section out.

ghost use Rattle.std.specs.Prelude.{◌≡◌};
ghost use Rattle.frame_table.specs.Text.{ending_by, ending_of, text_of};

use crate::document::decode;
use crate::located::{list, located_in};
use json_program::{DecodeError, Program, RunError, Sink, write_all};
use std::alloc::Global;

/// How a run that wrote all its text ended.
#[derive(Clone, Copy, Debug, PartialEq, Eq, Hash)]
pub enum Ending {
    /// All entries of the section are listed.
    Listed,
    /// The document has a fault, or the section has, and then what can be read of it is listed.
    Faulty,
}

impl Ending {
    /// The exit status of the process.
    pub fn status(self) -> u8
        ensures listed { self ≡ Ending.Listed → result ≡ 0 }
        ensures faulty { self ≡ Ending.Faulty → result ≡ 2 }
    {
        match self {
            Ending::Listed => 0,
            Ending::Faulty => 2,
        }
    }
}

/// How a run ends that wrote a whole listing, or one with a fault.
pub(crate) fn ending_by(is_whole: bool) -> Ending
    ensures { result ≡ ending_by is_whole }
{
    if is_whole {
        Ending::Listed
    } else {
        Ending::Faulty
    }
}

/// The program that lists the section of a document.
pub struct FrameTables;

impl Program for FrameTables {
    ghost use Rattle.frame_table.specs.TooLong.{too_long};

    type Ending = Ending;

    ghost text_of = { text_of };

    ghost ending_of = { ending_of };

    fn answer<W: Sink>(alloc: Global, document: &[u8], writer: &mut W) -> Result<Ending, RunError> {
        match decode(alloc, document) {
            Ok(stated) => Ok(ending_by(list(alloc, &located_in(&stated), writer)?)),
            Err(DecodeError::Fault(fault)) => {
                let line = format!(in alloc; "{fault}\n")?;
                write_all(writer, line.as_bytes())?;
                Ok(Ending::Faulty)
            }
            Err(DecodeError::OutOfMemory) => Err(RunError::OutOfMemory),
        }
    }

    ghost too_long = { too_long };
}
