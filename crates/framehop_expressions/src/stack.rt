//! The stack of an evaluation (DWARF 5, 2.5.1).

ghost use Rattle.std.specs.Prelude.{◌≡◌, ◌<◌, ◌≤◌, ◌^◌, pos, ◌+ℤ◌, [], ◌∷◌, IfOk, Ok, Some, length, reverse, slice_get, slice_set};
ghost use Rattle.std.specs.Option.{ok_or};
ghost use Rattle.dwarf_constants.specs.declared.error.Error.TheVariants.{NotEnoughStackItems};
ghost use Rattle.dwarf_expressions.specs.Effects.{of_top, of_two, rotated_stack, stack_after, stack_with, stack_with_copy, stack_without_top, swapped_stack, with_top, with_two};
ghost use Rattle.dwarf_expressions.specs.Evaluation.{branch_of};
ghost use Rattle.dwarf_expressions.specs.StackViews.{Leaves, Pops};
ghost use Rattle.framehop_expressions.specs.Evaluation.{first_stack};
ghost use Rattle.framehop_expressions.specs.StackViews.{Becomes};

use crate::value::{of_top, of_two, plus_signed};
use arrayvec::ArrayVec;
use dwarf_constants::{Error, Result};
use dwarf_operations::Operation;
use std::marker::Model;

/// How many values a stack has room for.
const MOST: usize = 64;

/// The values of an evaluation. The top is the last item of the list.
#[derive(Drop)]
pub(crate) struct ValueStack {
    items: ArrayVec<u64, MOST>,
}

impl Model for ValueStack {
    ghost use Rattle.std.specs.Prelude.{◌≤◌, List, ℕ, length, reverse};

    ghost Value = { List ℕ };

    ghost view = { λ s. reverse s.items.items };

    ghost invariant = { λ s. length s.items.items ≤ 64 };
}

impl ValueStack {
    /// A stack with one value, or without values.
    pub(crate) fn of_one(value: Option<u64>) -> ValueStack
        ensures { result ≡ first_stack value }
    {
        let mut items = ArrayVec::new();
        if let Some(value) = value {
            items.push(value);
        }
        ValueStack { items }
    }

    /// Pushes a value.
    pub(crate) fn push(&mut self, value: u64) -> Result<()>
        ensures { Becomes (Ok (value ∷ self.old)) result self.new }
    {
        if self.items.is_full() {
            return Err(Error::StackFull);
        }
        self.items.push(value);
        Ok(())
    }

    /// Pushes the value of a number plus an offset.
    pub(crate) fn push_sum(&mut self, number: u64, offset: i64) -> Result<()>
        ensures { Becomes (stack_with 8 (pos number +ℤ offset) self.old) result self.new }
    {
        self.push(plus_signed(number, offset))
    }

    // Removes the top, and returns it.
    fn pop(&mut self) -> Result<u64>
        ensures { Pops self.old self.new result }
    {
        self.items.pop().ok_or(Error::NotEnoughStackItems)
    }

    /// The value at a depth; the top is at 0.
    pub(crate) fn get(&self, depth: usize) -> Result<u64>
        ensures { result ≡ ok_or (slice_get self.now depth) NotEnoughStackItems }
    {
        let items = self.items.as_slice();
        if depth >= items.len() {
            return Err(Error::NotEnoughStackItems);
        }
        Ok(items[items.len() - 1 - depth])
    }

    /// Writes the value at a depth.
    pub(crate) fn put(&mut self, depth: usize, value: u64)
        requires { depth < length self.old }
        ensures { self.new ≡ slice_set self.old depth value }
    {
        let index = self.items.as_slice().len() - 1 - depth;
        self.items.as_mut_slice()[index] = value;
    }

    // Pushes a copy of the value at a depth.
    fn pick(&mut self, index: u8) -> Result<()>
        ensures { Becomes (stack_with_copy index self.old) result self.new }
    {
        let value = self.get(usize::from(index))?;
        self.push(value)
    }

    // Removes the top.
    fn drop_top(&mut self) -> Result<()>
        ensures shorter { length self.new ≤ length self.old }
        ensures leaves { Leaves (stack_without_top self.old) result self.new }
    {
        let _top = self.pop()?;
        Ok(())
    }

    // Exchanges the top and the value below it.
    fn swap(&mut self) -> Result<()>
        ensures shorter { length self.new ≤ length self.old }
        ensures leaves { Leaves (swapped_stack self.old) result self.new }
    {
        let second = self.get(1)?;
        let top = self.get(0)?;
        self.put(0, second);
        self.put(1, top);
        Ok(())
    }

    // Moves the top below the two values under it.
    fn rotate(&mut self) -> Result<()>
        ensures shorter { length self.new ≤ length self.old }
        ensures leaves { Leaves (rotated_stack self.old) result self.new }
    {
        let third = self.get(2)?;
        let second = self.get(1)?;
        let top = self.get(0)?;
        self.put(0, second);
        self.put(1, third);
        self.put(2, top);
        Ok(())
    }

    // Replaces the top by the result of an operation on it.
    fn change_top(&mut self, operation: Operation) -> Result<()>
        ensures shorter { length self.new ≤ length self.old }
        ensures leaves { Leaves (with_top 8 (of_top 8 operation) self.old) result self.new }
    {
        let top = self.get(0)?;
        let value = of_top(operation, top)?;
        self.put(0, value);
        Ok(())
    }

    // Replaces the two values on top by the result of an operation on them.
    fn change_two(&mut self, operation: Operation) -> Result<()>
        ensures shorter { length self.new ≤ length self.old }
        ensures leaves { Leaves (with_two 8 (of_two 8 operation) self.old) result self.new }
    {
        let right = self.pop()?;
        let left = self.get(0)?;
        let value = of_two(operation, left, right)?;
        self.put(0, value);
        Ok(())
    }

    /// How far an operation branches from its end, in bytes, if it does.
    pub(crate) fn branch(&self, operation: Operation) -> Option<i16>
        ensures { result ≡ branch_of operation self.now }
    {
        match operation {
            Operation::Skip { target } => Some(target),
            Operation::Bra { target } => match self.get(0) {
                Ok(top) if top != 0 => Some(target),
                _ => None,
            },
            _ => None,
        }
    }

    /// Changes the stack as an operation does.
    pub(crate) fn apply(&mut self, operation: Operation) -> Result<()>
        ensures { Becomes (stack_after 8 operation self.old) result self.new }
    {
        let _ = &self.items;
        match operation {
            Operation::Address { .. } => Err(Error::UnsupportedEvaluation),
            Operation::UnsignedConstant { value } => self.push(value),
            Operation::SignedConstant { value } => self.push(value.cast_unsigned()),
            Operation::Pick { index } => self.pick(index),
            Operation::Drop | Operation::Bra { .. } => self.drop_top(),
            Operation::Swap => self.swap(),
            Operation::Rot => self.rotate(),
            Operation::Abs | Operation::Neg | Operation::Not | Operation::PlusConstant { .. } => {
                self.change_top(operation)
            }
            Operation::Skip { .. } | Operation::RegisterOffset { .. } | Operation::Nop => Ok(()),
            Operation::And
            | Operation::Div
            | Operation::Minus
            | Operation::Mod
            | Operation::Mul
            | Operation::Or
            | Operation::Plus
            | Operation::Shl
            | Operation::Shr
            | Operation::Shra
            | Operation::Xor
            | Operation::Eq
            | Operation::Ge
            | Operation::Gt
            | Operation::Le
            | Operation::Lt
            | Operation::Ne => self.change_two(operation),
        }
    }
}
