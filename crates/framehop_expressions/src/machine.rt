//! The machine that runs the operations of an expression (DWARF 5, 2.5).

ghost use Rattle.std.specs.Prelude.{◌≡◌, ◌*◌, ◌%◌, ◌^◌, ◌+ℤ◌, ◌==◌, pos, Some};
ghost use Rattle.dwarf_endianity.specs.Answers.{Gives};
ghost use Rattle.dwarf_readers.specs.Remainder.{size_of};
ghost use Rattle.dwarf_readers.specs.Stretch.{Reads};
ghost use Rattle.dwarf_expressions.specs.Evaluation.{branch_target, top_of};
ghost use Rattle.framehop_registers.specs.Callback.{OverWords};
ghost use Rattle.framehop_expressions.specs.Evaluation.{after_deref, after_operation, after_plain, after_register, after_step, after_unread, first_machine, rest_by, unless_refused};
ghost use Rattle.framehop_expressions.specs.MachineViews.{Becomes, OverFrames};
ghost use Rattle.framehop_expressions.specs.Operations.{memory_operation_at};
ghost use Rattle.framehop_expressions.specs.Registers.{known};

use crate::operation::MemoryOperation;
use crate::registers::KnownRegisters;
use crate::stack::ValueStack;
use crate::unknown::Unknown;
use crate::words::word_value;
use dwarf_constants::{Error, Register, Result};
use dwarf_operations::Operation;
use dwarf_readers::{Reader, ReaderOffset};
use std::marker::Model;

/// A stack of values, and what is left of an expression.
#[derive(Drop)]
pub(crate) struct Machine<R: Reader> {
    expression: R,
    rest: R,
    stack: ValueStack,
}

impl<R: Reader> Model for Machine<R> {
    ghost use Rattle.framehop_expressions.specs.Evaluation.{Machine as View};

    ghost Value = { View };

    ghost view = { λ m. record {
      expression = R.stretch m.expression;
      stack = m.stack;
      rest = R.stretch m.rest;
    } };
}

impl<R: Reader> Machine<R> {
    /// The machine at the expression's start, with a value on its stack if there is one.
    pub(crate) fn new(expression: R, first: Option<u64>) -> Machine<R>
        ensures { result ≡ first_machine (R.stretch expression) first }
    {
        Machine {
            expression,
            rest: expression,
            stack: ValueStack::of_one(first),
        }
    }

    /// Whether the expression is over.
    pub(crate) fn is_at_end(&self) -> bool
        ensures { result ≡ (size_of self.now.rest == 0) }
    {
        self.rest.is_empty()
    }

    /// The top of the stack.
    pub(crate) fn top(&self) -> std::result::Result<u64, Unknown>
        ensures { result ≡ unless_refused (top_of self.now.stack) }
    {
        match self.stack.get(0) {
            Ok(top) => Ok(top),
            Err(error) => Err(Unknown::Expression(error)),
        }
    }

    /// Runs the next operation.
    pub(crate) fn step<F: FnMut(u64) -> std::result::Result<u64, ()>>(
        &mut self,
        registers: &KnownRegisters,
        read: &mut F,
    ) -> std::result::Result<(), Unknown>
        requires { F.IsAlwaysCallable read.old }
        ensures callable { F.IsAlwaysCallable read.new }
        ensures steps { OverFrames F.step read.old read.new registers.now (λ f.
            Becomes (after_step f self.old) result self.new) }
    {
        match self.read_operation() {
            Ok(operation) => self.perform(operation, registers, read),
            Err(error) => Err(Unknown::Expression(error)),
        }
    }

    // Reads the next operation.
    fn read_operation(&mut self) -> Result<MemoryOperation>
        ensures read { Reads result (memory_operation_at self.old.rest) self.new.rest }
        ensures expression { self.new.expression ≡ self.old.expression }
        ensures stack { self.new.stack ≡ self.old.stack }
    {
        MemoryOperation::parse(&mut self.rest)
    }

    // Runs an operation, behind which the rest begins.
    fn perform<F: FnMut(u64) -> std::result::Result<u64, ()>>(
        &mut self,
        operation: MemoryOperation,
        registers: &KnownRegisters,
        read: &mut F,
    ) -> std::result::Result<(), Unknown>
        requires { F.IsAlwaysCallable read.old }
        ensures callable { F.IsAlwaysCallable read.new }
        ensures steps { OverFrames F.step read.old read.new registers.now (λ f.
            Becomes (after_operation f self.old operation) result self.new) }
    {
        match operation {
            MemoryOperation::Plain(operation) => self.perform_plain(operation, registers),
            MemoryOperation::Deref { size } => self.replace_address(size, read),
        }
    }

    // Pushes a register's value plus an offset.
    fn push_register(
        &mut self,
        register: Register,
        offset: i64,
        registers: &KnownRegisters,
    ) -> std::result::Result<(), Unknown>
        ensures { Becomes (after_register register offset self.old (known registers.now register.0))
            result self.new }
    {
        let Some(value) = registers.get(register) else {
            return Err(Unknown::Register(register));
        };
        match self.stack.push_sum(value, offset) {
            Ok(()) => Ok(()),
            Err(error) => Err(Unknown::Expression(error)),
        }
    }

    // Runs an operation that reads no memory.
    fn perform_plain(
        &mut self,
        operation: Operation,
        registers: &KnownRegisters,
    ) -> std::result::Result<(), Unknown>
        ensures { Becomes (after_unread (known registers.now) self.old operation) result self.new }
    {
        match operation {
            Operation::RegisterOffset { register, offset } => {
                self.push_register(register, offset, registers)
            }
            _ => self.perform_change(operation),
        }
    }

    // Runs an operation that reads no memory and no register.
    fn perform_change(&mut self, operation: Operation) -> std::result::Result<(), Unknown>
        ensures { Becomes (unless_refused (after_plain self.old operation)) result self.new }
    {
        match self.change(operation) {
            Ok(()) => Ok(()),
            Err(error) => Err(Unknown::Expression(error)),
        }
    }

    // Changes the stack and what is left as an operation does that reads no memory and no register.
    fn change(&mut self, operation: Operation) -> Result<()>
        ensures { Becomes (after_plain self.old operation) result self.new }
    {
        let branch = self.stack.branch(operation);
        self.stack.apply(operation)?;
        if let Some(target) = branch {
            self.rest = rest_after_branch(self.expression, self.rest, target)?;
        }
        Ok(())
    }

    // Replaces the address on top by the number in so many bytes there.
    fn replace_address<F: FnMut(u64) -> std::result::Result<u64, ()>>(
        &mut self,
        size: u8,
        read: &mut F,
    ) -> std::result::Result<(), Unknown>
        requires { F.IsAlwaysCallable read.old }
        ensures callable { F.IsAlwaysCallable read.new }
        ensures steps { OverWords F.step read.old read.new (λ words.
            Becomes (after_deref words size self.old self.old.stack) result self.new) }
    {
        let at = match self.stack.get(0) {
            Ok(at) => at,
            Err(error) => return Err(Unknown::Expression(error)),
        };
        match word_value(at, read) {
            Ok(word) => {
                self.stack.put(0, low_bytes(word, size));
                Ok(())
            }
            Err(why) => Err(why),
        }
    }
}

// The number in the lowest bytes of a word.
fn low_bytes(word: u64, size: u8) -> u64
    ensures { result ≡ word % 2 ^ (8 * size) }
{
    if size < 8 {
        word % (1 << (8 * u32::from(size)))
    } else {
        word
    }
}

// The offset of a branch's target in an expression of this length. The target is relative to the
// operation's end.
fn target_of_branch(len: u64, end: u64, target: i64) -> Result<u64>
    ensures { result ≡ branch_target len (pos end +ℤ target) }
{
    match end.checked_add_signed(target) {
        Some(offset) if offset <= len => Ok(offset),
        Some(offset) => Err(Error::BadBranchTarget(offset)),
        None => Err(Error::BadBranchTarget(end.wrapping_add_signed(target))),
    }
}

// What is left of an expression after a branch. The target is relative to the start of `rest`, which
// is the operation's end.
fn rest_after_branch<R: Reader>(expression: R, rest: R, target: i16) -> Result<R>
    ensures { Gives R.stretch result
        (rest_by (R.stretch expression) (R.stretch rest) (Some target)) }
{
    let len = expression.len().into_u64();
    let end = len.saturating_sub(rest.len().into_u64());
    let offset = target_of_branch(len, end, i64::from(target))?;
    let mut rest = expression;
    rest.skip(R::Offset::from_u64(offset)?)?;
    Ok(rest)
}
