//! The machine that runs the operations of an expression (DWARF 5, 2.5).

ghost use Rattle.std.specs.Prelude.{◌≡◌, ◌≤◌, ◌-◌, ◌+ℤ◌, pos, IfOk, IfErr, IsTrue, IsOk, Ok, length, true};
ghost use Rattle.std.specs.Prelude.{◌==◌};
ghost use Rattle.dwarf_readers.specs.InitialLength.{is_size};
ghost use Rattle.dwarf_endianity.specs.Answers.{Gives};
ghost use Rattle.dwarf_readers.specs.Stretch.{end_of};
ghost use Rattle.dwarf_expressions.specs.Evaluation.{IsNotMade, input_of, machine_after, machine_with, operation_step, branch_target, run, state_by_operation, top_of};
ghost use Rattle.dwarf_expressions.specs.EvaluationViews.{Changes, Comes, Course, IsRestAt, Stops, first_course, rest_at_target};

use crate::stack::ValueStack;
use crate::value::AddressSize;
use dwarf_constants::{Encoding, Error, Register, Result};
use dwarf_operations::{Expression, Operation};
use dwarf_readers::{Reader, ReaderOffset};
use dwarf_storage::ArrayLike;
use std::alloc::Global;
use std::marker::Model;

/// How many operations an evaluation may run.
const OPERATION_LIMIT: u32 = 4096;

/// Why a machine stopped without an error.
#[derive(Debug, Clone, Copy)]
pub(crate) enum Stop {
    /// The expression is over, and has this value.
    Finished { value: u64 },
    /// An operation asks for a register, to whose value it adds an offset.
    Asking { register: Register, offset: i64 },
}

/// A stack of values, and what is left of an expression.
#[derive(Drop)]
pub(crate) struct StackMachine<R: Reader, L: ArrayLike<Item = u64>> {
    expression: R,
    rest: R,
    encoding: Encoding,
    stack: ValueStack<L>,
    /// How many operations may still run.
    left: u32,
}

impl<R: Reader, L: ArrayLike<Item = u64>> Model for StackMachine<R, L> {
    ghost Value = { Course };

    ghost view = { λ m. record {
      program = record {
        expression = R.stretch m.expression;
        address_size = m.encoding.address_size;
        capacity = L.capacity;
      };
      machine = record {
        stack = m.stack.values;
        offset = (R.stretch m.rest).offset - (R.stretch m.expression).offset;
        left = m.left;
      };
    } };

    ghost invariant = { λ m. IsRestAt (R.stretch m.expression) (R.stretch m.rest)
        ((R.stretch m.rest).offset - (R.stretch m.expression).offset)
        × (m.stack.address_size ≡ m.encoding.address_size) };
}

impl<R: Reader, L: ArrayLike<Item = u64>> StackMachine<R, L> {
    /// The machine at the expression's start. Fails with `UnsupportedAddressSize` if addresses haven't
    /// 1, 2, 4 or 8 bytes, and with `OutOfMemory` if the stack fails to allocate.
    pub(crate) fn new_in(
        alloc: Global,
        expression: Expression<R>,
        encoding: Encoding,
    ) -> Result<StackMachine<R, L>>
        ensures first { IfOk result (λ m. m ≡ first_course
            (input_of (R.stretch expression.0) encoding.address_size L.capacity)) }
        ensures size { IfOk result (λ m. is_size encoding.address_size ≡ true) }
        ensures refused { IfErr result (λ e. IsNotMade encoding.address_size e) }
        ensures memory { IsTrue L.is_made_in_place → is_size encoding.address_size ≡ true
            → IsOk result }
    {
        let size = AddressSize::new(encoding.address_size)?;
        let stack = ValueStack::new_in(alloc, size)?;
        Ok(StackMachine {
            expression: expression.0,
            rest: expression.0,
            encoding,
            stack,
            left: OPERATION_LIMIT,
        })
    }

    /// Pushes a number plus an offset.
    pub(crate) fn push_sum(&mut self, number: u64, offset: i64) -> Result<()>
        ensures program { self.new.program ≡ self.old.program }
        ensures changes { Changes self.old.program.capacity
            (machine_with self.old.program number offset self.old.machine) result self.new.machine }
    {
        self.stack.push_sum(number, offset)
    }

    /// Runs to the expression's end, until an operation asks for a register, or to the first error.
    pub(crate) fn run(&mut self) -> Result<Stop>
        ensures program { self.new.program ≡ self.old.program }
        ensures stops { Stops self.old.program.capacity
            (run self.old.program self.old.machine) result self.new.machine }
    {
        while !self.is_at_end() {
            if let Some(stop) = self.step()? {
                return Ok(stop);
            }
        }
        let value = self.top()?;
        Ok(Stop::Finished { value })
    }

    // The top of the stack.
    fn top(&self) -> Result<u64>
        ensures { top_of self.now.machine.stack ≡ result }
    {
        self.stack.get(0)
    }

    // Whether the expression is over.
    fn is_at_end(&self) -> bool
        ensures { result ≡ (self.now.machine.offset == length self.now.program.expression.bytes) }
    {
        self.rest.is_empty()
    }

    // Runs the operation at the machine's offset.
    #[inline(always)]
    fn step(&mut self) -> Result<Option<Stop>>
        ensures program { self.new.program ≡ self.old.program }
        ensures comes { Comes self.old.program.capacity
            (operation_step self.old.program self.old.machine) result self.new.machine }
    {
        if self.left == 0 {
            return Err(Error::TooManyIterations);
        }
        self.left -= 1;
        let mut rest = self.rest;
        let operation = Operation::parse(&mut rest, self.encoding)?;
        self.rest = rest;
        self.perform(operation)
    }

    // Runs an operation, whose end is the machine's offset.
    #[inline(always)]
    fn perform(&mut self, operation: Operation) -> Result<Option<Stop>>
        ensures program { self.new.program ≡ self.old.program }
        ensures comes { Comes self.old.program.capacity
            (state_by_operation self.old.program self.old.machine operation)
            result self.new.machine }
    {
        match operation {
            Operation::RegisterOffset { register, offset } => {
                Ok(Some(Stop::Asking { register, offset }))
            }
            _ => {
                self.change(operation)?;
                Ok(None)
            }
        }
    }

    // Changes the stack and the offset as an operation does.
    #[inline(always)]
    fn change(&mut self, operation: Operation) -> Result<()>
        ensures program { self.new.program ≡ self.old.program }
        ensures changes { Changes self.old.program.capacity
            (machine_after self.old.program self.old.machine operation) result self.new.machine }
    {
        let branch = self.stack.branch(operation);
        self.stack.apply(operation)?;
        if let Some(target) = branch {
            self.rest = rest_after_branch(self.expression, self.rest, target)?;
        }
        Ok(())
    }
}

// The offset of a branch's target in an expression of this length. The target is relative to the
// operation's end.
fn target_of_branch(len: u64, end: u64, target: i64) -> Result<u64>
    ensures { result ≡ branch_target len (pos end +ℤ target) }
{
    match end.checked_add_signed(target) {
        Some(offset) if offset <= len => Ok(offset),
        Some(offset) => Err(Error::BadBranchTarget(offset)),
        None => Err(Error::BadBranchTarget(end.wrapping_add_signed(target))),
    }
}

// What is left of an expression after a branch. The target is relative to the start of `rest`, which
// is the operation's end.
fn rest_after_branch<R: Reader>(expression: R, rest: R, target: i16) -> Result<R>
    requires from { (R.stretch expression).offset ≤ (R.stretch rest).offset }
    requires to { (R.stretch rest).offset ≤ end_of (R.stretch expression) }
    ensures { Gives R.stretch result
        (rest_at_target (R.stretch expression) (R.stretch rest) target) }
{
    let end = rest.offset_from(&expression).into_u64();
    let len = expression.len().into_u64();
    let offset = target_of_branch(len, end, i64::from(target))?;
    let mut rest = expression;
    rest.skip(R::Offset::from_u64(offset)?)?;
    Ok(rest)
}
