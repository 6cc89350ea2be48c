//! The evaluation of expressions (DWARF 5, 2.5).

ghost use Rattle.std.specs.Prelude.{◌≡◌, ◌<◌, true, Err, IfOk, IfErr, IsOk, IsTrue};
ghost use Rattle.dwarf_constants.specs.declared.error.Error.TheVariants.{OutOfMemory};
ghost use Rattle.dwarf_readers.specs.InitialLength.{is_size};
ghost use Rattle.dwarf_expressions.specs.Evaluation.{CanResume, EvaluationModel, GoesTo, IfAsks, IsNotMade, Refused, StaysStopped, WantsMemory, first_evaluation, input_of, operations_left, state_reached, state_reached_with, value_in};
ghost use Rattle.dwarf_expressions.specs.EvaluationViews.{AddsOffset, IsReady, evaluation_state};
ghost use Rattle.dwarf_expressions.specs.Values.{generic_of};
ghost use Rattle.dwarf_constants.specs.declared.error.Error.{Error};

use crate::machine::{StackMachine, Stop};
use crate::value::Value;
use dwarf_constants::{Encoding, Error, Register, Result};
use dwarf_operations::Expression;
use dwarf_readers::Reader;
use dwarf_storage::{ArrayLike, StoreOnHeap};
use std::alloc::Global;
use std::marker::Model;

/// The storage of an evaluation.
pub trait EvaluationStorage {
    /// The stack of values.
    type Stack: ArrayLike<Item = u64>;
}

/// The stack grows as long as there is memory.
impl EvaluationStorage for StoreOnHeap {
    type Stack = Vec<u64>;
}

/// Why an evaluation stopped without an error.
#[derive(Debug, Clone, Copy, PartialEq, Eq)]
pub enum EvaluationResult {
    /// It is over, and has a value: [`value_result`](Evaluation::value_result).
    Complete,
    /// It needs the value of a register:
    /// [`resume_with_register`](Evaluation::resume_with_register) goes on with it.
    RequiresRegister { register: Register },
}

/// The state of an evaluation.
#[derive(Debug, Clone, Copy)]
enum EvaluationState {
    Ready,
    Asking { register: Register, offset: i64 },
    Finished { value: u64 },
    Refused { error: Error },
}

/// The evaluation of an expression (DWARF 5, 2.5).
#[derive(Drop)]
pub struct Evaluation<R: Reader, S: EvaluationStorage> {
    machine: StackMachine<R, S::Stack>,
    state: EvaluationState,
}

impl<R: Reader, S: EvaluationStorage> Model for Evaluation<R, S> {
    ghost Value = { EvaluationModel };

    ghost view = { λ e. record {
      program = e.machine.program;
      state = evaluation_state e.state e.machine.machine;
    } };
}

impl<R: Reader, S: EvaluationStorage> Evaluation<R, S> {
    /// The evaluation of an expression from its start. Fails with `UnsupportedAddressSize` if
    /// addresses haven't 1, 2, 4 or 8 bytes, and with `OutOfMemory` if the stack fails to allocate.
    pub fn new_in(
        alloc: Global,
        expression: Expression<R>,
        encoding: Encoding,
    ) -> Result<Evaluation<R, S>>
        ensures first { IfOk result (λ e. e ≡ first_evaluation
            (input_of (R.stretch expression.0) encoding.address_size S.Stack.capacity)) }
        ensures size { IfOk result (λ e. is_size encoding.address_size ≡ true) }
        ensures refused { IfErr result (λ e. IsNotMade encoding.address_size e) }
        ensures memory { IsTrue S.Stack.is_made_in_place → is_size encoding.address_size ≡ true
            → IsOk result }
    {
        let machine = StackMachine::new_in(alloc, expression, encoding)?;
        Ok(Evaluation {
            machine,
            state: EvaluationState::Ready,
        })
    }

    /// Evaluates the expression to its end, until it asks for a register, or to the first error. A
    /// later call returns the same again.
    pub fn evaluate(&mut self) -> Result<EvaluationResult>
        ensures goes { GoesTo self.old self.new
            (state_reached self.old.program self.old.state) result }
        ensures stays { StaysStopped self.old.state self.new.state }
        ensures asks { IfAsks result (CanResume self.new.state) }
        ensures memory { result ≡ Err OutOfMemory → WantsMemory self.old }
    {
        match self.state {
            EvaluationState::Ready => self.go_on(),
            EvaluationState::Asking { register, .. } => {
                Ok(EvaluationResult::RequiresRegister { register })
            }
            EvaluationState::Finished { .. } => Ok(EvaluationResult::Complete),
            EvaluationState::Refused { error } => Err(error),
        }
    }

    /// Goes on with the value of the register that was asked for. After an error it returns the error
    /// again. If it asks for a register again, fewer operations may still run.
    pub fn resume_with_register(&mut self, value: Value) -> Result<EvaluationResult>
        requires { CanResume self.old.state }
        ensures goes { GoesTo self.old self.new
            (state_reached_with self.old.program (generic_of value) self.old.state) result }
        ensures again { (e : Error) → self.old.state ≡ Refused e → self.new.state ≡ Refused e }
        ensures asks { IfAsks result (CanResume self.new.state) }
        ensures fewer { IfAsks result
            (operations_left self.new.state < operations_left self.old.state) }
        ensures memory { result ≡ Err OutOfMemory → WantsMemory self.old }
    {
        let Value::Generic(number) = value;
        match self.state {
            EvaluationState::Asking { offset, .. } => self.answer(number, offset),
            EvaluationState::Refused { error } => Err(error),
            EvaluationState::Ready | EvaluationState::Finished { .. } => unreachable!(),
        }
    }

    /// The value of the expression, if its evaluation is over.
    pub fn value_result(&self) -> Option<u64>
        ensures { result ≡ value_in self.now.state }
    {
        match self.state {
            EvaluationState::Finished { value } => Some(value),
            _ => None,
        }
    }

    // Goes on with a register's value, `number`, plus the offset.
    fn answer(&mut self, number: u64, offset: i64) -> Result<EvaluationResult>
        requires { AddsOffset self.old.state offset }
        ensures goes { GoesTo self.old self.new
            (state_reached_with self.old.program number self.old.state) result }
        ensures asks { IfAsks result (CanResume self.new.state) }
        ensures fewer { IfAsks result
            (operations_left self.new.state < operations_left self.old.state) }
        ensures memory { result ≡ Err OutOfMemory → WantsMemory self.old }
    {
        match self.machine.push_sum(number, offset) {
            Ok(()) => {
                self.state = EvaluationState::Ready;
                self.go_on()
            }
            Err(error) => self.refuse(error),
        }
    }

    // Keeps an error, which every later call returns.
    fn refuse(&mut self, error: Error) -> Result<EvaluationResult>
        ensures program { self.new.program ≡ self.old.program }
        ensures state { self.new.state ≡ Refused error }
        ensures answer { result ≡ Err error }
    {
        self.state = EvaluationState::Refused { error };
        Err(error)
    }

    // Runs the machine, and keeps the state in which it stops.
    fn go_on(&mut self) -> Result<EvaluationResult>
        requires { IsReady self.old.state }
        ensures goes { GoesTo self.old self.new
            (state_reached self.old.program self.old.state) result }
        ensures asks { IfAsks result (CanResume self.new.state) }
        ensures fewer { IfAsks result
            (operations_left self.new.state < operations_left self.old.state) }
        ensures memory { result ≡ Err OutOfMemory → WantsMemory self.old }
    {
        match self.machine.run() {
            Ok(Stop::Finished { value }) => {
                self.state = EvaluationState::Finished { value };
                Ok(EvaluationResult::Complete)
            }
            Ok(Stop::Asking { register, offset }) => {
                self.state = EvaluationState::Asking { register, offset };
                Ok(EvaluationResult::RequiresRegister { register })
            }
            Err(error) => self.refuse(error),
        }
    }
}
