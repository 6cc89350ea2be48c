//! The numbers that lists of modules are told apart by.

ghost use Rattle.std.specs.Prelude.{◌≡◌, ◌≢◌, ◌≤◌, ◌-◌, ◌+◌, ◌^◌, IfOk, IsErr, OnOk, OnErr};

use std::fmt::{self, Debug, Formatter, Write};
use std::marker::Model;
use thiserror::Error;

/// A counter of generations. A list of modules takes a new number whenever it changes, and a rule
/// that a cache keeps is of the number of the list that it was found by. So all unwinders that share
/// a cache take their numbers from one counter, and no number is given twice.
#[derive(Debug, Drop)]
pub struct Generations {
    next: u64,
}

impl Model for Generations {
    ghost use Rattle.std.specs.Prelude.{ℕ, ◌<◌, ◌^◌};

    ghost Value = { ℕ };

    ghost view = { λ generations. generations.next };

    ghost invariant = { λ generations. generations.next < 2 ^ 64 };
}

/// The counter gave all its numbers.
#[derive(Debug, Clone, Copy, PartialEq, Eq, Error)]
#[error("GenerationsExhausted")]
pub struct GenerationsExhausted;

/// Why a module was not loaded, with the module.
#[derive(Drop, Error)]
#[error_bound(M: Drop)]
pub enum LoadError<M> {
    /// The counter gave all its numbers.
    #[error("GenerationsExhausted")]
    GenerationsExhausted(M),
    /// There is no memory for the list of modules.
    #[error("OutOfMemory")]
    OutOfMemory(M),
}

impl<M> LoadError<M> {
    ghost use Rattle.framehop_modules.specs.LoadErrors.{module_returned};

    /// The module that was not loaded.
    pub fn into_module(self) -> M
        ensures { result ≡ module_returned self }
    {
        match self {
            LoadError::GenerationsExhausted(module) | LoadError::OutOfMemory(module) => module,
        }
    }
}

impl<M> Debug for LoadError<M> {
    fn fmt<W: Write>(&self, f: &mut Formatter<W>) -> fmt::Result {
        f.write_str(match self {
            LoadError::GenerationsExhausted(_) => "GenerationsExhausted(..)",
            LoadError::OutOfMemory(_) => "OutOfMemory(..)",
        })
    }
}

impl Generations {
    /// A counter whose first number is 0.
    pub fn new() -> Self
        ensures { result ≡ 0 }
    {
        Generations { next: 0 }
    }

    /// A counter that goes on at a number.
    pub fn starting_at(next: u64) -> Self
        ensures { result ≡ next }
    {
        Generations { next }
    }

    /// How many numbers the counter has left: from its next one up to 2^64 - 2.
    pub fn left(&self) -> u64
        ensures { self.now + result ≡ 2 ^ 64 - 1 }
    {
        u64::MAX - self.next
    }

    /// Takes the next number, if one is left.
    pub fn take(&mut self) -> u64
        requires { self.old ≢ 2 ^ 64 - 1 }
        ensures taken { result ≡ self.old }
        ensures more { self.new ≡ self.old + 1 }
    {
        let number = self.next;
        self.next = number + 1;
        number
    }

    /// Takes the next number. Fails if none is left, and changes nothing then.
    pub fn try_take(&mut self) -> Result<u64, GenerationsExhausted>
        ensures taken { IfOk result (λ number. number ≡ self.old) }
        ensures more { OnOk result (self.new ≡ self.old + 1) }
        ensures refused { 2 ^ 64 - 1 ≤ self.old → IsErr result }
        ensures last { OnErr result (self.old ≡ 2 ^ 64 - 1) }
        ensures same { OnErr result (self.new ≡ self.old) }
    {
        if self.next == u64::MAX {
            return Err(GenerationsExhausted);
        }
        Ok(self.take())
    }
}
