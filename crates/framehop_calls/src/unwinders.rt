//! Unwinders by their numbers.

ghost use Rattle.std.specs.Prelude.{◌≡◌};
ghost use Rattle.framehop_unwinder.specs.ByNumber.{is_held};
ghost use Rattle.framehop_calls.specs.Calls.{AddsUnwinder, ClonesUnwinder, RemovesUnwinder};

use crate::session::CountedSession;
use crate::status::{GENERATIONS_EXHAUSTED, NO_UNWINDER, OK, OUT_OF_MEMORY};
use framehop_unwinder::{AddUnwinderError, ModuleUnwinding, UnwinderId};
use std::alloc::Global;

impl<A: ModuleUnwinding> CountedSession<A> {
    /// Whether there is an unwinder of a number.
    pub fn has_unwinder(&self, unwinder: u64) -> bool
        ensures { result ≡ is_held self.now.unwinders unwinder }
    {
        let unwinder = UnwinderId::numbered(unwinder as usize);
        self.session.has_unwinder(unwinder)
    }

    /// Makes an unwinder without a module, and writes its number.
    pub fn add_unwinder(&mut self, alloc: Global, number: &mut u64) -> u32
        ensures { AddsUnwinder result number.old number.new self.old self.new }
    {
        if self.unwinders == usize::MAX {
            return OUT_OF_MEMORY;
        }
        match self.session.add_unwinder(alloc) {
            Ok(_) => {
                *number = self.unwinders as u64;
                self.unwinders += 1;
                OK
            }
            Err(AddUnwinderError::GenerationsExhausted) => GENERATIONS_EXHAUSTED,
            Err(AddUnwinderError::OutOfMemory) => OUT_OF_MEMORY,
        }
    }

    /// Makes an unwinder with the modules of another, and writes its number.
    pub fn clone_unwinder(&mut self, alloc: Global, unwinder: u64, number: &mut u64) -> u32
        ensures { ClonesUnwinder result unwinder number.old number.new self.old self.new }
    {
        let unwinder = UnwinderId::numbered(unwinder as usize);
        if !self.session.has_unwinder(unwinder) {
            return NO_UNWINDER;
        }
        if self.unwinders == usize::MAX {
            return OUT_OF_MEMORY;
        }
        match self.session.clone_unwinder(alloc, unwinder) {
            Ok(Ok(_)) => {
                *number = self.unwinders as u64;
                self.unwinders += 1;
                OK
            }
            Ok(Err(_)) => OUT_OF_MEMORY,
            Err(_) => NO_UNWINDER,
        }
    }

    /// Lets an unwinder go, with its modules.
    pub fn remove_unwinder(&mut self, unwinder: u64) -> u32
        ensures { RemovesUnwinder result unwinder self.old self.new }
    {
        let unwinder = UnwinderId::numbered(unwinder as usize);
        match self.session.remove_unwinder(unwinder) {
            Ok(()) => OK,
            Err(_) => NO_UNWINDER,
        }
    }
}
