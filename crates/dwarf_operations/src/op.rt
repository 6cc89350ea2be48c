//! Expressions and their operations (DWARF 5, 2.5 and 7.7.1).

ghost use Rattle.std.specs.Prelude.{◌≡◌, List, OnErr, Result};
ghost use Rattle.list_laws.specs.Items.{GivesNext};
ghost use Rattle.dwarf_constants.specs.declared.error.Error.{Error};
ghost use Rattle.dwarf_readers.specs.Operands.{look_up};
ghost use Rattle.dwarf_readers.specs.Stretch.{Reads, byte_at};
ghost use Rattle.dwarf_operations.specs.Operations.{left_by_operands, left_by_operation, left_by_tabled, opcode_number, operation_at, operations_of, operation_by, tabled_operation, without_operands};
ghost use Rattle.dwarf_operations.specs.declared.op.Operation.{Operation};

use dwarf_constants::constants::*;
use dwarf_constants::{Encoding, Error, Register, Result};
use dwarf_readers::Reader;
use std::marker::Model;

/// An operation of an expression (DWARF 5, 2.5), its operands as they are encoded. The top of the
/// stack has index 0.
#[derive(Debug, Clone, Copy, PartialEq, Eq)]
pub enum Operation {
    /// An address of the program. It can be read, and not evaluated.
    Address { address: u64 },
    /// Pushes a number, also that of a literal.
    UnsignedConstant { value: u64 },
    /// Pushes a signed number.
    SignedConstant { value: i64 },
    /// Pushes a copy of the value at `index`, which is 0 for `DW_OP_dup` and 1 for `DW_OP_over`.
    Pick { index: u8 },
    /// Pops the top.
    Drop,
    /// Exchanges the top and the value below it.
    Swap,
    /// Moves the top below the two values under it.
    Rot,
    /// The magnitude of the top, as a signed value.
    Abs,
    And,
    /// The signed quotient, rounded toward 0.
    Div,
    Minus,
    /// The unsigned remainder.
    Mod,
    Mul,
    Neg,
    Not,
    Or,
    Plus,
    /// Adds a number to the top.
    PlusConstant { value: u64 },
    /// Shifts to the left.
    Shl,
    /// Shifts to the right, and fills with zeros.
    Shr,
    /// Shifts to the right, and fills with the sign.
    Shra,
    Xor,
    /// Pops the top, and if it isn't 0 goes on at `target`, in bytes from the operation's end.
    Bra { target: i16 },
    Eq,
    Ge,
    Gt,
    Le,
    Lt,
    Ne,
    /// Goes on at `target`, in bytes from the operation's end.
    Skip { target: i16 },
    /// Pushes a register's value plus an offset.
    RegisterOffset { register: Register, offset: i64 },
    Nop,
}

impl Operation {
    /// Reads the operation that the bytes begin with, and leaves what is after it. Fails with
    /// `UnsupportedEvaluation` if the opcode isn't that of an operation on values without a type, and
    /// if an operand can't be read. After an error the opcode is gone, and of its operands the numbers
    /// of variable length, as far as they were read.
    #[inline(always)]
    pub fn parse<R: Reader>(bytes: &mut R, encoding: Encoding) -> Result<Operation>
        ensures read { Reads result (operation_at encoding.address_size (R.stretch bytes.old))
            (R.stretch bytes.new) }
        ensures refused { OnErr result (R.stretch bytes.new
            ≡ left_by_operation (byte_at (R.stretch bytes.old)) (R.stretch bytes.old)) }
    {
        let opcode = bytes.read_u8()?;
        Operation::parse_operands(opcode, bytes, encoding)
    }

    // Reads the operands after an opcode.
    #[inline(always)]
    fn parse_operands<R: Reader>(opcode: u8, bytes: &mut R, encoding: Encoding) -> Result<Operation>
        ensures read { Reads result (operation_by encoding.address_size opcode
            (R.stretch bytes.old)) (R.stretch bytes.new) }
        ensures refused { OnErr result
            (R.stretch bytes.new ≡ left_by_operands opcode (R.stretch bytes.old)) }
    {
        if opcode >= DW_OP_lit0.0 && opcode <= DW_OP_lit31.0 {
            let value = u64::from(opcode - DW_OP_lit0.0);
            return Ok(Operation::UnsignedConstant { value });
        }
        if opcode >= DW_OP_breg0.0 && opcode <= DW_OP_breg31.0 {
            let register = Register(u16::from(opcode - DW_OP_breg0.0));
            let offset = bytes.read_sleb128()?;
            return Ok(Operation::RegisterOffset { register, offset });
        }
        Operation::parse_listed(opcode, bytes, encoding)
    }

    // Reads the operands after an opcode that is in a table of operations.
    #[inline(always)]
    fn parse_listed<R: Reader>(opcode: u8, bytes: &mut R, encoding: Encoding) -> Result<Operation>
        ensures read { Reads result (tabled_operation encoding.address_size opcode
            (R.stretch bytes.old)) (R.stretch bytes.new) }
        ensures refused { OnErr result
            (R.stretch bytes.new ≡ left_by_tabled opcode (R.stretch bytes.old)) }
    {
        let operation = match DwOp(opcode) {
            DW_OP_addr => Operation::Address {
                address: bytes.read_address(encoding.address_size)?,
            },
            DW_OP_const1u => Operation::UnsignedConstant {
                value: u64::from(bytes.read_u8()?),
            },
            DW_OP_const1s => Operation::SignedConstant {
                value: i64::from(bytes.read_i8()?),
            },
            DW_OP_const2u => Operation::UnsignedConstant {
                value: u64::from(bytes.read_u16()?),
            },
            DW_OP_const2s => Operation::SignedConstant {
                value: i64::from(bytes.read_i16()?),
            },
            DW_OP_const4u => Operation::UnsignedConstant {
                value: u64::from(bytes.read_u32()?),
            },
            DW_OP_const4s => Operation::SignedConstant {
                value: i64::from(bytes.read_i32()?),
            },
            DW_OP_const8u => Operation::UnsignedConstant {
                value: bytes.read_u64()?,
            },
            DW_OP_const8s => Operation::SignedConstant {
                value: bytes.read_i64()?,
            },
            DW_OP_constu => Operation::UnsignedConstant {
                value: bytes.read_uleb128()?,
            },
            DW_OP_consts => Operation::SignedConstant {
                value: bytes.read_sleb128()?,
            },
            DW_OP_pick => Operation::Pick {
                index: bytes.read_u8()?,
            },
            DW_OP_plus_uconst => Operation::PlusConstant {
                value: bytes.read_uleb128()?,
            },
            DW_OP_bra => Operation::Bra {
                target: bytes.read_i16()?,
            },
            DW_OP_skip => Operation::Skip {
                target: bytes.read_i16()?,
            },
            DW_OP_bregx => {
                let register = Register(bytes.read_uleb128_u16()?);
                let offset = bytes.read_sleb128()?;
                Operation::RegisterOffset { register, offset }
            }
            _ => match Operation::without_operands(DwOp(opcode)) {
                Some(operation) => operation,
                None => return Err(Error::UnsupportedEvaluation),
            },
        };
        Ok(operation)
    }

    // The operation of an opcode without operands.
    #[inline(always)]
    fn without_operands(opcode: DwOp) -> Option<Operation>
        ensures { result ≡ look_up opcode_number opcode.0 without_operands }
    {
        match opcode {
            DW_OP_dup => Some(Operation::Pick { index: 0 }),
            DW_OP_drop => Some(Operation::Drop),
            DW_OP_over => Some(Operation::Pick { index: 1 }),
            DW_OP_swap => Some(Operation::Swap),
            DW_OP_rot => Some(Operation::Rot),
            DW_OP_abs => Some(Operation::Abs),
            DW_OP_and => Some(Operation::And),
            DW_OP_div => Some(Operation::Div),
            DW_OP_minus => Some(Operation::Minus),
            DW_OP_mod => Some(Operation::Mod),
            DW_OP_mul => Some(Operation::Mul),
            DW_OP_neg => Some(Operation::Neg),
            DW_OP_not => Some(Operation::Not),
            DW_OP_or => Some(Operation::Or),
            DW_OP_plus => Some(Operation::Plus),
            DW_OP_shl => Some(Operation::Shl),
            DW_OP_shr => Some(Operation::Shr),
            DW_OP_shra => Some(Operation::Shra),
            DW_OP_xor => Some(Operation::Xor),
            DW_OP_eq => Some(Operation::Eq),
            DW_OP_ge => Some(Operation::Ge),
            DW_OP_gt => Some(Operation::Gt),
            DW_OP_le => Some(Operation::Le),
            DW_OP_lt => Some(Operation::Lt),
            DW_OP_ne => Some(Operation::Ne),
            DW_OP_nop => Some(Operation::Nop),
            _ => None,
        }
    }
}

/// The bytes of an expression.
#[derive(Debug, Clone, Copy)]
pub struct Expression<R>(pub R);

impl<R: Reader> Expression<R> {
    /// The operations in the order of their bytes. An evaluation may run them in another order.
    pub fn operations(self, encoding: Encoding) -> OperationIter<R>
        ensures { result ≡ operations_of encoding.address_size (R.stretch self.0) }
    {
        OperationIter {
            input: self.0,
            encoding,
        }
    }
}

/// The operations of an expression, one after the other.
#[derive(Debug, Drop)]
pub struct OperationIter<R: Reader> {
    input: R,
    encoding: Encoding,
}

/// An iterator is the list of what is to come.
impl<R: Reader> Model for OperationIter<R> {
    ghost Value = { List (Result Operation Error) };

    ghost view = { λ iter. operations_of iter.encoding.address_size (R.stretch iter.input) };
}

impl<R: Reader> OperationIter<R> {
    /// The next operation, or `None` after the last. After an error it returns only `Ok(None)`.
    #[inline(always)]
    pub fn next(&mut self) -> Result<Option<Operation>>
        ensures { GivesNext (λ operation. operation) result self.old self.new }
    {
        if self.input.is_empty() {
            return Ok(None);
        }
        match Operation::parse(&mut self.input, self.encoding) {
            Ok(operation) => Ok(Some(operation)),
            Err(error) => {
                self.input.empty();
                Err(error)
            }
        }
    }
}
