//! Modules, for C.

ghost use Rattle.std.specs.Prelude.{◌≡◌, None, IfOk};
ghost use Rattle.framehop_calls.specs.Calls.{LoadsModule, TellsLastEnd, UnloadsModule};
ghost use Rattle.framehop_calls.specs.Statuses.{no_value};
ghost use Rattle.framehop_c.specs.Files.{LoadsFile, arch_of, module_of};
ghost use Rattle.framehop_c.specs.Sessions.{DoesIn, InHandle};

use crate::files::MappedFile;
use crate::handle::SessionHandle;
use crate::session::{AnySession, LentData, SessionCall};
use framehop::{LoadOptions, Module, ModuleUnwinding, TableArch, load_module};
use framehop_calls::CountedSession;
use framehop_calls::status::{BAD_ARGUMENT, NO_UNWINDER, NO_VALUE, OUT_OF_MEMORY};
use std::alloc::{AllocError, Global};

// The module of a file, without a name.
fn module_of(
    alloc: Global,
    file: &MappedFile<'_>,
    options: LoadOptions,
) -> Result<Module<&'static [u8]>, AllocError>
    ensures { IfOk result (λ module_. module_ ≡ module_of file.now options) }
{
    load_module(
        alloc,
        String::new(alloc),
        file.start..file.end,
        file.base,
        file.file_sections(),
        options,
    )
}

// Loads a file in an unwinder.
#[derive(Clone, Copy)]
struct LoadFile<'a> {
    alloc: Global,
    unwinder: u64,
    file: MappedFile<'a>,
    options: LoadOptions,
}

impl SessionCall for LoadFile<'_> {
    ghost does = { λ old new status R. LoadsModule status old.unwinder (module_of old.file old.options) };

    fn make<A: ModuleUnwinding<UnwindData = LentData>>(
        &mut self,
        session: &mut CountedSession<A>,
    ) -> u32 {
        if !session.has_unwinder(self.unwinder) {
            return NO_UNWINDER;
        }
        match module_of(self.alloc, &self.file, self.options) {
            Ok(module) => session.load(self.unwinder, module),
            Err(_) => OUT_OF_MEMORY,
        }
    }
}

// Unloads the last of an unwinder's modules that start at an address.
#[derive(Clone, Copy)]
struct Unload {
    unwinder: u64,
    start: u64,
}

impl SessionCall for Unload {
    ghost does = { λ old new status R. UnloadsModule status old.unwinder old.start };

    fn make<A: ModuleUnwinding<UnwindData = LentData>>(
        &mut self,
        session: &mut CountedSession<A>,
    ) -> u32 {
        session.unload(self.unwinder, self.start)
    }
}

// Writes the end of an unwinder's last module, else 0.
#[derive(Clone, Copy)]
struct TellLastEnd {
    unwinder: u64,
    address: u64,
}

impl SessionCall for TellLastEnd {
    ghost does = { λ old new status R. TellsLastEnd status old.unwinder old.address new.address };

    fn make<A: ModuleUnwinding<UnwindData = LentData>>(
        &mut self,
        session: &mut CountedSession<A>,
    ) -> u32 {
        session.max_known_code_address(self.unwinder, &mut self.address)
    }
}

impl AnySession {
    // What tables of its modules are made for.
    fn arch(&self) -> TableArch
        ensures { result ≡ arch_of self.now }
    {
        match self {
            AnySession::X86_64(_) => TableArch::X86_64,
            AnySession::Aarch64(_) => TableArch::Aarch64,
        }
    }

    // Loads a file in an unwinder.
    fn load(&mut self, alloc: Global, unwinder: u64, file: &MappedFile<'_>) -> u32
        ensures { LoadsFile result unwinder file.now self.old self.new }
    {
        let Some(options) = file.options(self.arch()) else {
            return BAD_ARGUMENT;
        };
        self.make(&mut LoadFile {
            alloc,
            unwinder,
            file: *file,
            options,
        })
    }
}

/// Loads a module in an unwinder. The bytes of its sections are lent.
#[unsafe(no_mangle)]
pub extern "C" fn framehop_load(
    alloc: Global,
    session: &mut SessionHandle,
    unwinder: u64,
    module: &MappedFile<'_>,
) -> u32
    ensures loads { InHandle (LoadsFile result unwinder «module».now) session.old.value session.new.value }
    ensures none { session.old.value ≡ None → result ≡ no_value }
{
    let Some(mut state) = session.take(alloc) else {
        return NO_VALUE;
    };
    let status = state.load(alloc, unwinder, module);
    session.put(alloc, state);
    status
}

/// Unloads the last of an unwinder's modules that start at an address, if one does.
#[unsafe(no_mangle)]
pub extern "C" fn framehop_unload(
    alloc: Global,
    session: &mut SessionHandle,
    unwinder: u64,
    start: u64,
) -> u32
    ensures unloads { DoesIn (λ R. UnloadsModule result unwinder start) session.old.value session.new.value }
    ensures none { session.old.value ≡ None → result ≡ no_value }
{
    session.call(alloc, &mut Unload { unwinder, start })
}

/// Writes the end of the unwinder's module with the greatest start, else 0.
#[unsafe(no_mangle)]
pub extern "C" fn framehop_max_known_code_address(
    alloc: Global,
    session: &mut SessionHandle,
    unwinder: u64,
    address: &mut u64,
) -> u32
    ensures tells { DoesIn (λ R. TellsLastEnd result unwinder address.old address.new) session.old.value session.new.value }
    ensures none { session.old.value ≡ None → (result ≡ no_value) × (address.new ≡ address.old) }
{
    let mut call = TellLastEnd {
        unwinder,
        address: *address,
    };
    let status = session.call(alloc, &mut call);
    *address = call.address;
    status
}
