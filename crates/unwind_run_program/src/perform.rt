//! What each command of a document does in a session.

ghost use Rattle.std.specs.Prelude.{◌≡◌, ◌≢◌, IfOk, string_bytes};
ghost use Rattle.framehop_registers.specs.Callback.{read_answer};
ghost use Rattle.framehop_unwinder.specs.Frames.{frame_of};
ghost use Rattle.unwind_run_program.specs.Registers.{RegisterForms};
ghost use Rattle.unwind_run_program.specs.Sections.{DataForms};
ghost use Rattle.unwind_run_document.specs.CommandViews.{sections_view, task_of, words_view};
ghost use Rattle.unwind_run_program.specs.TaskViews.{CarriesOut, IsSound};
ghost use Rattle.unwind_run_program.specs.Text.{frame_at, words_of};
ghost use Rattle.unwind_run_document.specs.declared.command.FrameKind.TheVariants.{Ra};

use crate::commands;
use crate::commands::{LimitedWalk, Written};
use crate::lines::step_line;
use crate::roads::road_lines;
use framehop_histories as histories;
use framehop_histories::Answer;
use framehop_rules::FrameAddress;
use framehop_unwinder::{Module, ModuleUnwinding, Session};
use std::alloc::{AllocError, Global};
use unwind_run_document::{
    Command, FrameKind, LoadCommand, RoadsCommand, Stack, StatedOptions, StatedRegisters,
    StatedSection, StepCommand, WalkCommand,
};

/// The unwind data of the modules of documents: what their sections give.
pub(crate) trait DocumentModules: ModuleUnwinding {
    ghost forms: { RegisterForms Self.UnwindRegs };

    ghost data_of: { DataForms Self.UnwindData };

    /// The unwind data of sections and segments, whose stated addresses are relative to an address, with what is asked for beside.
    fn unwind_data(
        alloc: Global,
        options: StatedOptions,
        base_svma: u64,
        sections: Vec<StatedSection>,
        segments: Vec<StatedSection>,
    ) -> Result<Self::UnwindData, AllocError>
        ensures { IfOk result (λ given. given ≡ data_of options base_svma
            (sections_view sections.items) (sections_view segments.items)) };

    /// The registers that are stated.
    fn stated_registers(stated: StatedRegisters) -> Self::UnwindRegs
        ensures { result ≡ forms.stated stated };

    /// The text of registers, each after its name.
    fn registers_text(alloc: Global, registers: Self::UnwindRegs) -> Result<String, AllocError>
        ensures { IfOk result (λ text. string_bytes text ≡ forms.text registers) };
}

/// Carries out a command, and returns what it writes.
pub(crate) fn perform<A: DocumentModules>(
    session: &mut Session<A>,
    alloc: Global,
    command: Command,
) -> Result<Written, AllocError>
    requires { IsSound (task_of command) }
    ensures { CarriesOut A.meanings A.forms A.data_of (task_of command)
        session.old session.new result }
{
    match command {
        Command::Unwinder => commands::add_unwinder(session, alloc),
        Command::Cache(slots) => {
            commands::add_cache(session, alloc, slots, A::unwind_context(alloc)?)
        }
        Command::Clone(unwinder) => commands::clone_unwinder(session, alloc, unwinder),
        Command::RemoveUnwinder(unwinder) => commands::remove_unwinder(session, alloc, unwinder),
        Command::RemoveCache(cache) => commands::remove_cache(session, alloc, cache),
        Command::Load(load) => load_module(session, alloc, load),
        Command::Unload(unload) => commands::unload(session, alloc, unload.unwinder, unload.start),
        Command::Step(step) => take_step(session, alloc, &step),
        Command::Walk(walk) => take_walk(session, alloc, &walk),
        Command::Stats(cache) => commands::stats(session, alloc, cache),
        Command::Occupancy(cache) => commands::occupancy(session, alloc, cache),
        Command::Roads(roads) => take_roads(session, alloc, &roads),
    }
}

// Loads a module in an unwinder.
fn load_module<A: DocumentModules>(
    session: &mut Session<A>,
    alloc: Global,
    load: LoadCommand,
) -> Result<Written, AllocError>
    ensures { CarriesOut A.meanings A.forms A.data_of (task_of (Command.Load load))
        session.old session.new result }
{
    let (options, base_svma) = (load.options, load.base_svma);
    let unwind_data = A::unwind_data(alloc, options, base_svma, load.sections, load.segments)?;
    let range = load.start..load.end;
    let module = Module::new(alloc, load.name, range, load.base, unwind_data)?;
    commands::load(session, alloc, load.unwinder, module)
}

// Makes a step, and returns its line, or that the unwinder or the cache was let go.
fn take_step<A: DocumentModules>(
    session: &mut Session<A>,
    alloc: Global,
    step: &StepCommand,
) -> Result<Written, AllocError>
    requires { IsSound (task_of (Command.Step step.now)) }
    ensures { CarriesOut A.meanings A.forms A.data_of (task_of (Command.Step step.now))
        session.old session.new result }
{
    let address = frame_address(step.kind, step.address);
    let regs = A::stated_registers(step.registers);
    let stack = &step.stack;
    let mut read_stack = |at: u64| -> Result<u64, ()>
        ensures answer { result ≡ read_answer (words_of (words_view stack.entry.now) at) }
        ensures same { stack.exit ≡ stack.entry }
    { word_at(stack, at) };
    let (unwinder, cache) = (step.unwinder, step.cache);
    match histories::step(session, unwinder, cache, address, regs, &mut read_stack) {
        Answer::Stepped(answer, regs) => {
            let line = step_line::<A>(alloc, answer, regs)?;
            Ok(Written::lines(line))
        }
        Answer::Unknown => Written::unknown(alloc),
        Answer::Added
        | Answer::Removed
        | Answer::GenerationsExhausted
        | Answer::OutOfMemory
        | Answer::Moved(..) => Err(AllocError),
    }
}

// Walks over frames, and returns their lines.
fn take_walk<A: DocumentModules>(
    session: &mut Session<A>,
    alloc: Global,
    walk: &WalkCommand,
) -> Result<Written, AllocError>
    requires { IsSound (task_of (Command.Walk walk.now)) }
    ensures { CarriesOut A.meanings A.forms A.data_of (task_of (Command.Walk walk.now))
        session.old session.new result }
{
    let stack = &walk.stack;
    let mut read_stack = |at: u64| -> Result<u64, ()>
        ensures answer { result ≡ read_answer (words_of (words_view stack.entry.now) at) }
        ensures same { stack.exit ≡ stack.entry }
    { word_at(stack, at) };
    let frames = LimitedWalk {
        unwinder: walk.unwinder,
        cache: walk.cache,
        limit: walk.limit,
        pc: walk.pc,
        regs: A::stated_registers(walk.registers),
    };
    commands::walk(session, alloc, frames, &mut read_stack)
}

// Makes a step by each lookup, and returns their lines. The session stays as it is.
fn take_roads<A: DocumentModules>(
    session: &mut Session<A>,
    alloc: Global,
    roads: &RoadsCommand,
) -> Result<Written, AllocError>
    requires { IsSound (task_of (Command.Roads roads.now)) }
    ensures { CarriesOut A.meanings A.forms A.data_of (task_of (Command.Roads roads.now))
        session.old session.new result }
{
    Ok(Written::lines(road_lines::<A>(alloc, roads)?))
}

/// The address of a frame, by its kind.
pub(crate) fn frame_address(kind: FrameKind, address: u64) -> FrameAddress
    requires { kind ≡ Ra → address ≢ 0 }
    ensures { frame_of result ≡ frame_at kind address }
{
    match kind {
        FrameKind::Ip => FrameAddress::from_instruction_pointer(address),
        FrameKind::Ra => FrameAddress::from_return_address(address).unwrap(),
    }
}

/// The word of a stack at an address, if there is one.
pub(crate) fn word_at(stack: &Stack, address: u64) -> Result<u64, ()>
    ensures { result ≡ read_answer (words_of (words_view stack.now) address) }
{
    let offset = address.checked_sub(stack.start).ok_or(())?;
    if offset % 8 != 0 {
        return Err(());
    }
    stack.words.get((offset / 8) as usize).copied().ok_or(())
}
