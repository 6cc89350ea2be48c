//! The session with the modules of a process.

ghost use Rattle.std.specs.Prelude.{◌≡◌, [], IfOk, OnOk};
ghost use Rattle.backtrace_files.specs.FileViews.{code_seen, file_seen, files_seen};
ghost use Rattle.core_files.specs.FileViews.{mapping_of};
ghost use Rattle.framehop_unwinder.specs.State.{modules_at, with_unwinder};
ghost use Rattle.backtrace_walks.specs.Modules.{module_of, module_with, modules_of, with_one};
ghost use Rattle.backtrace_walks.specs.SessionViews.{HasModules, IsReady};

use crate::arch::FileModules;
use backtrace_files::{FileSections, LoadedCode, LoadedFile, loaded_code};
use core_files::MappedFile;
use framehop::{
    CodeRules, FdeLookup, Generations, LoadOptions, Module, Rows, Session, UnwinderId, Unwinding,
    load_module,
};
use framehop_whole_modules::CarriesRegisters;
use std::alloc::{AllocError, Global};

// The module of a mapping with code.
fn module_with<'a>(
    alloc: Global,
    mapping: &MappedFile<'a>,
    code: &LoadedCode<'a>,
) -> Result<Module<&'a [u8]>, AllocError>
    ensures { IfOk result (λ module_.
        module_ ≡ module_with (mapping_of mapping.now) (code_seen code.now)) }
{
    let options = LoadOptions {
        lookup: FdeLookup::Auto,
        tables: None,
        debug_frame_beside: true,
        code_rules: CodeRules::Published,
        rows: Rows::Whole,
    };
    let sections = FileSections::new(code.file, code.base_svma);
    let range = mapping.start..mapping.end;
    let name = String::new(alloc);
    let module = load_module(alloc, name, range, code.base_avma, sections, options)?;
    Ok(module)
}

// The module of a file, if its code is mapped.
fn module_of<'a>(
    alloc: Global,
    file: &LoadedFile<'a>,
) -> Result<Option<Module<&'a [u8]>>, AllocError>
    ensures { IfOk result (λ found. found ≡ module_of (file_seen file.now)) }
{
    match loaded_code(file) {
        Some(code) => Ok(Some(module_with(alloc, &file.mapping, &code)?)),
        None => Ok(None),
    }
}

// Makes a new unwinder. A new session has numbers for its generation, so that an error is one of memory.
fn add_unwinder<'a, A: Unwinding + CarriesRegisters>(
    session: &mut Session<FileModules<'a, A>>,
    alloc: Global,
) -> Result<(), AllocError>
    ensures { OnOk result (session.new ≡ with_unwinder session.old) }
{
    match session.add_unwinder(alloc) {
        Ok(_) => Ok(()),
        Err(_) => Err(AllocError),
    }
}

// A session with one unwinder, without a module, and one cache.
fn empty_session<'a, A: Unwinding + CarriesRegisters>(
    alloc: Global,
) -> Result<Session<FileModules<'a, A>>, AllocError>
    ensures { IfOk result (λ session. HasModules [] session) }
{
    let mut session = Session::new(alloc, Generations::new());
    add_unwinder::<A>(&mut session, alloc)?;
    session.add_cache(alloc)?;
    Ok(session)
}

// Loads a module in the first unwinder, if there is one. No list has as many modules as the session has generations, so that an error
// is one of memory.
#[tactic(auto, using(crate::proofs::SessionLaws::unloaded))]
fn load_found<'a, A: Unwinding + CarriesRegisters>(
    session: &mut Session<FileModules<'a, A>>,
    found: Option<Module<&'a [u8]>>,
) -> Result<(), AllocError>
    requires { IsReady session.old }
    ensures { OnOk result (HasModules (with_one (modules_at session.old 0) found.entry) session.new) }
{
    let Some(module) = found else {
        return Ok(());
    };
    let Ok(loaded) = session.load(UnwinderId::numbered(0), module) else {
        return Err(AllocError);
    };
    if loaded.is_err() {
        return Err(AllocError);
    }
    Ok(())
}

/// A session whose one unwinder has the modules of a process's files, each at the addresses of its mapping, and which has one cache.
/// Fails if memory is refused.
pub fn session_of<'a, A: Unwinding + CarriesRegisters>(
    alloc: Global,
    files: &[LoadedFile<'a>],
) -> Result<Session<FileModules<'a, A>>, AllocError>
    ensures { IfOk result (λ session. HasModules (modules_of (files_seen files.now)) session) }
{
    let mut session = empty_session::<A>(alloc)?;
    for file in files {
        let found = module_of(alloc, file)?;
        load_found::<A>(&mut session, found)?;
    }
    Ok(session)
}
