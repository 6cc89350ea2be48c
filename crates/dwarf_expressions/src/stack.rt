//! The stack of an evaluation (DWARF 5, 2.5.1).

ghost use Rattle.std.specs.Prelude.{◌≡◌, ◌<◌, ◌≤◌, [], ◌∷◌, All, IfOk, IfErr, IfSome, IsTrue, IsOk, Ok, length, reverse, slice_get, slice_set};
ghost use Rattle.dwarf_constants.specs.declared.error.Error.TheVariants.{NotEnoughStackItems, OutOfMemory};
ghost use Rattle.dwarf_storage.specs.Capacity.{IsWithin};
ghost use Rattle.dwarf_expressions.specs.Effects.{of_top, of_two, rotated_stack, stack_after, stack_with, stack_with_copy, stack_without_top, swapped_stack, with_top, with_two};
ghost use Rattle.dwarf_expressions.specs.StackViews.{Becomes, Leaves, Pops, SizedValues};
ghost use Rattle.dwarf_expressions.specs.Evaluation.{branch_of};
ghost use Rattle.dwarf_expressions.specs.Values.{modulus};
ghost use Rattle.std.specs.Prelude.{pos, ◌+ℤ◌};
ghost use Rattle.std.specs.Option.{ok_or};

use crate::value::AddressSize;
use dwarf_constants::{Error, Result};
use dwarf_operations::Operation;
use dwarf_storage::{ArrayLike, PushError};
use std::alloc::Global;
use std::marker::Model;

/// The values of an evaluation. The top is the last item of the list.
#[derive(Drop)]
pub(crate) struct ValueStack<L: ArrayLike<Item = u64>> {
    size: AddressSize,
    items: L,
}

impl<L: ArrayLike<Item = u64>> Model for ValueStack<L> {
    ghost Value = { SizedValues };

    ghost view = { λ s. record {
      address_size = s.size.bytes;
      values = reverse (L.items s.items);
    } };

    ghost invariant = { λ s. All (λ value. value < modulus s.size.bytes) (L.items s.items)
        × IsWithin L.capacity (length (L.items s.items)) };
}

impl<L: ArrayLike<Item = u64>> ValueStack<L> {
    /// A stack without values.
    pub(crate) fn new_in(alloc: Global, size: AddressSize) -> Result<ValueStack<L>>
        ensures empty { IfOk result (λ s. s ≡ record {
          address_size = size.bytes;
          values = [];
        }) }
        ensures memory { IsTrue L.is_made_in_place → IsOk result }
        ensures refused { IfErr result (λ e. e ≡ OutOfMemory) }
    {
        let items = L::new_in(alloc)?;
        Ok(ValueStack { size, items })
    }

    // How many values there are.
    fn len(&self) -> usize
        ensures { result ≡ length self.now.values }
    {
        self.items.as_slice().len()
    }

    // Pushes a value.
    fn push_value(&mut self, value: u64) -> Result<()>
        requires { value < modulus self.old.address_size }
        ensures size { self.new.address_size ≡ self.old.address_size }
        ensures becomes { Becomes L.capacity
            (Ok (value ∷ self.old.values)) result self.new.values }
    {
        match self.items.try_push(value) {
            Ok(()) => Ok(()),
            Err(PushError::CapacityFull) => Err(Error::StackFull),
            Err(PushError::OutOfMemory) => Err(Error::OutOfMemory),
        }
    }

    // Pushes the value of a number.
    fn push(&mut self, number: u64) -> Result<()>
        ensures size { self.new.address_size ≡ self.old.address_size }
        ensures becomes { Becomes L.capacity
            (stack_with self.old.address_size (pos number) self.old.values) result self.new.values }
    {
        let value = self.size.wrap(number);
        self.push_value(value)
    }

    /// Pushes the value of a number plus an offset.
    pub(crate) fn push_sum(&mut self, number: u64, offset: i64) -> Result<()>
        ensures size { self.new.address_size ≡ self.old.address_size }
        ensures becomes { Becomes L.capacity
            (stack_with self.old.address_size (pos number +ℤ offset) self.old.values)
            result self.new.values }
    {
        let value = self.size.plus_signed(number, offset);
        self.push_value(value)
    }

    // Removes the top, and returns it.
    fn pop(&mut self) -> Result<u64>
        ensures size { self.new.address_size ≡ self.old.address_size }
        ensures top { Pops self.old.values self.new.values result }
        ensures below { IfOk result (λ top. top < modulus self.old.address_size) }
    {
        self.items.pop().ok_or(Error::NotEnoughStackItems)
    }

    /// The value at a depth; the top is at 0.
    pub(crate) fn get(&self, depth: usize) -> Result<u64>
        ensures value { result ≡ ok_or (slice_get self.now.values depth) NotEnoughStackItems }
        ensures below { IfOk result (λ value. value < modulus self.now.address_size) }
    {
        let items = self.items.as_slice();
        if depth >= items.len() {
            return Err(Error::NotEnoughStackItems);
        }
        Ok(items[items.len() - 1 - depth])
    }

    // Writes the value at a depth.
    fn put(&mut self, depth: usize, value: u64)
        requires there { depth < length self.old.values }
        requires below { value < modulus self.old.address_size }
        ensures size { self.new.address_size ≡ self.old.address_size }
        ensures values { self.new.values ≡ slice_set self.old.values depth value }
    {
        let index = self.items.as_slice().len() - 1 - depth;
        if let Some(item) = self.items.item_mut(index) {
            *item = value;
        }
    }

    // Pushes a copy of the value at a depth.
    fn pick(&mut self, index: u8) -> Result<()>
        ensures size { self.new.address_size ≡ self.old.address_size }
        ensures becomes { Becomes L.capacity (stack_with_copy index self.old.values) result
            self.new.values }
    {
        let value = self.get(usize::from(index))?;
        self.push(value)
    }

    // Removes the top.
    fn drop_top(&mut self) -> Result<()>
        ensures size { self.new.address_size ≡ self.old.address_size }
        ensures shorter { length self.new.values ≤ length self.old.values }
        ensures leaves { Leaves (stack_without_top self.old.values) result self.new.values }
    {
        let _top = self.pop()?;
        Ok(())
    }

    // Exchanges the top and the value below it.
    fn swap(&mut self) -> Result<()>
        ensures size { self.new.address_size ≡ self.old.address_size }
        ensures shorter { length self.new.values ≤ length self.old.values }
        ensures leaves { Leaves (swapped_stack self.old.values) result self.new.values }
    {
        let second = self.get(1)?;
        let top = self.get(0)?;
        self.put(0, second);
        self.put(1, top);
        Ok(())
    }

    // Moves the top below the two values under it.
    fn rotate(&mut self) -> Result<()>
        ensures size { self.new.address_size ≡ self.old.address_size }
        ensures shorter { length self.new.values ≤ length self.old.values }
        ensures leaves { Leaves (rotated_stack self.old.values) result self.new.values }
    {
        let third = self.get(2)?;
        let second = self.get(1)?;
        let top = self.get(0)?;
        self.put(0, second);
        self.put(1, third);
        self.put(2, top);
        Ok(())
    }

    // Replaces the top by the result of an operation on it.
    fn change_top(&mut self, operation: Operation) -> Result<()>
        ensures size { self.new.address_size ≡ self.old.address_size }
        ensures shorter { length self.new.values ≤ length self.old.values }
        ensures leaves { Leaves (with_top self.old.address_size
            (of_top self.old.address_size operation) self.old.values) result self.new.values }
    {
        let top = self.get(0)?;
        let value = self.size.of_top(operation, top)?;
        self.put(0, value);
        Ok(())
    }

    // Replaces the two values on top by the result of an operation on them.
    fn change_two(&mut self, operation: Operation) -> Result<()>
        ensures size { self.new.address_size ≡ self.old.address_size }
        ensures shorter { length self.new.values ≤ length self.old.values }
        ensures leaves { Leaves (with_two self.old.address_size
            (of_two self.old.address_size operation) self.old.values) result self.new.values }
    {
        let right = self.pop()?;
        let left = self.get(0)?;
        let value = self.size.of_two(operation, left, right)?;
        self.put(0, value);
        Ok(())
    }

    /// How far an operation branches from its end, in bytes, if it does.
    #[inline(always)]
    pub(crate) fn branch(&self, operation: Operation) -> Option<i16>
        ensures { result ≡ branch_of operation self.now.values }
    {
        match operation {
            Operation::Skip { target } => Some(target),
            Operation::Bra { target } => match self.get(0) {
                Ok(top) if top != 0 => Some(target),
                _ => None,
            },
            _ => None,
        }
    }

    /// Changes the stack as an operation does.
    #[inline(always)]
    pub(crate) fn apply(&mut self, operation: Operation) -> Result<()>
        ensures size { self.new.address_size ≡ self.old.address_size }
        ensures becomes { Becomes L.capacity
            (stack_after self.old.address_size operation self.old.values) result self.new.values }
    {
        let _ = &self.size;
        match operation {
            Operation::Address { .. } => Err(Error::UnsupportedEvaluation),
            Operation::UnsignedConstant { value } => self.push(value),
            Operation::SignedConstant { value } => self.push(value.cast_unsigned()),
            Operation::Pick { index } => self.pick(index),
            Operation::Drop | Operation::Bra { .. } => self.drop_top(),
            Operation::Swap => self.swap(),
            Operation::Rot => self.rotate(),
            Operation::Abs | Operation::Neg | Operation::Not | Operation::PlusConstant { .. } => {
                self.change_top(operation)
            }
            Operation::Skip { .. } | Operation::RegisterOffset { .. } | Operation::Nop => Ok(()),
            Operation::And
            | Operation::Div
            | Operation::Minus
            | Operation::Mod
            | Operation::Mul
            | Operation::Or
            | Operation::Plus
            | Operation::Shl
            | Operation::Shr
            | Operation::Shra
            | Operation::Xor
            | Operation::Eq
            | Operation::Ge
            | Operation::Gt
            | Operation::Le
            | Operation::Lt
            | Operation::Ne => self.change_two(operation),
        }
    }
}
