//! Modules of unwinders by their numbers.

ghost use Rattle.framehop_calls.specs.Calls.{LoadsModule, TellsLastEnd, UnloadsModule};

use crate::session::CountedSession;
use crate::status::{GENERATIONS_EXHAUSTED, NO_UNWINDER, OK, OUT_OF_MEMORY};
use framehop_modules::LoadError;
use framehop_unwinder::{Module, ModuleUnwinding, UnwinderId};

impl<A: ModuleUnwinding> CountedSession<A> {
    /// Loads a module in an unwinder.
    pub fn load(&mut self, unwinder: u64, module: Module<A::UnwindData>) -> u32
        ensures { LoadsModule result unwinder «module» self.old self.new }
    {
        let unwinder = UnwinderId::numbered(unwinder as usize);
        match self.session.load(unwinder, module) {
            Ok(Ok(())) => OK,
            Ok(Err(LoadError::GenerationsExhausted(_))) => GENERATIONS_EXHAUSTED,
            Ok(Err(LoadError::OutOfMemory(_))) => OUT_OF_MEMORY,
            Err(_) => NO_UNWINDER,
        }
    }

    /// Unloads the last of an unwinder's modules that start at an address, if one does.
    pub fn unload(&mut self, unwinder: u64, start: u64) -> u32
        ensures { UnloadsModule result unwinder start self.old self.new }
    {
        let unwinder = UnwinderId::numbered(unwinder as usize);
        match self.session.unload(unwinder, start) {
            Ok(Ok(())) => OK,
            Ok(Err(_)) => GENERATIONS_EXHAUSTED,
            Err(_) => NO_UNWINDER,
        }
    }

    /// Writes the end of an unwinder's last module, else 0.
    pub fn max_known_code_address(&self, unwinder: u64, address: &mut u64) -> u32
        ensures { TellsLastEnd result unwinder address.old address.new self.now self.now }
    {
        let unwinder = UnwinderId::numbered(unwinder as usize);
        match self.session.max_known_code_address(unwinder) {
            Ok(found) => {
                *address = found;
                OK
            }
            Err(_) => NO_UNWINDER,
        }
    }
}
