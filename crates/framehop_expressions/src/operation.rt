//! Operations that may read memory (DWARF 5, 2.5.1.3 and 7.7.1).

ghost use Rattle.std.specs.Prelude.{◌≡◌};
ghost use Rattle.dwarf_readers.specs.Stretch.{Reads};
ghost use Rattle.framehop_expressions.specs.Operations.{memory_operation_at, sized_deref_at};

use dwarf_constants::{Encoding, Error, Format, Result};
use dwarf_operations::Operation;
use dwarf_readers::Reader;

/// `DW_OP_deref`.
pub(crate) const DEREF: u8 = 0x06;

/// `DW_OP_deref_size`.
pub(crate) const DEREF_SIZE: u8 = 0x94;

/// The size of an address in bytes.
const ADDRESS_SIZE: u8 = 8;

/// How operations are encoded. Only the size of an address matters.
const ENCODING: Encoding = Encoding {
    address_size: ADDRESS_SIZE,
    format: Format::Dwarf32,
    version: 5,
};

/// An operation of an expression (DWARF 5, 2.5).
#[derive(Debug, Clone, Copy, PartialEq, Eq)]
pub enum MemoryOperation {
    /// One that reads no memory.
    Plain(Operation),
    /// Replaces the top, an address, by the number in so many bytes there, 1 to 8.
    Deref { size: u8 },
}

impl MemoryOperation {
    /// Reads the operation that the bytes begin with, and leaves what is after it. Fails as `Operation::parse`
    /// does, and with `UnsupportedEvaluation` if a number that is to be read hasn't 1 to 8 bytes.
    pub fn parse<R: Reader>(bytes: &mut R) -> Result<MemoryOperation>
        ensures read { Reads result (memory_operation_at (R.stretch bytes.old))
            (R.stretch bytes.new) }
    {
        let mut rest = *bytes;
        match rest.read_u8()? {
            DEREF => {
                *bytes = rest;
                Ok(MemoryOperation::Deref { size: ADDRESS_SIZE })
            }
            DEREF_SIZE => {
                *bytes = rest;
                read_sized(bytes)
            }
            _ => {
                let operation = Operation::parse(bytes, ENCODING)?;
                Ok(MemoryOperation::Plain(operation))
            }
        }
    }
}

// Reads the operand of `DW_OP_deref_size`.
fn read_sized<R: Reader>(bytes: &mut R) -> Result<MemoryOperation>
    ensures { Reads result (sized_deref_at (R.stretch bytes.old)) (R.stretch bytes.new) }
{
    let size = bytes.read_u8()?;
    if size == 0 || size > ADDRESS_SIZE {
        return Err(Error::UnsupportedEvaluation);
    }
    Ok(MemoryOperation::Deref { size })
}
