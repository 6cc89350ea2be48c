//! One run of the program: a document in, the text of its commands out.

ghost use Rattle.std.specs.Prelude.{◌≡◌, false, IfOk, IfSome, IsErrOf};
ghost use Rattle.json_program.specs.Errors.{ReportsFailures};
ghost use Rattle.json_program.specs.Stream.{WritesText};
ghost use Rattle.unwind_run_program.specs.Outputs.{beginning};
ghost use Rattle.unwind_run_document.specs.Sound.{AreSound};
ghost use Rattle.unwind_run_document.specs.Document.{nothing_made};
ghost use Rattle.unwind_run_document.specs.CommandViews.{content_view, tasks_of};
ghost use Rattle.framehop_whole_modules.specs.Attempts.{whole_with};
ghost use Rattle.unwind_run_program.specs.Registers.{whole_forms};
ghost use Rattle.unwind_run_program.specs.Text.{content_lines, ending_of, limits_of_policy, lines_of, lines_under, text_of};

use crate::arch::DocumentArch;
use crate::perform::{DocumentModules, perform};
use framehop::{MayAllocateDuringUnwind, MustNotAllocateDuringUnwind};
use framehop_modules::Generations;
use framehop_rules::aarch64::ArchAarch64;
use framehop_rules::x86_64::ArchX86_64;
use framehop_unwinder::Session;
use framehop_whole_modules::ByWholeRows;
use json_program::{DecodeError, Outcome, Program, RunError, Sink, Source, write_all};
use std::alloc::Global;
use unwind_run_document::{Architecture, Command, Document, Policy, decode};

/// Modules of an architecture by the bytes of their sections, with rows that may be taken whole, under a policy.
type Modules<A, P> = ByWholeRows<A, Vec<u8>, P>;

/// The program that carries out the commands of a document.
pub struct UnwindCommands;

impl Program for UnwindCommands {
    ghost use Rattle.unwind_run_program.specs.TooLong.{too_long};

    type Ending = Outcome;

    ghost text_of = { text_of };

    ghost ending_of = { ending_of };

    fn answer<W: Sink>(
        alloc: Global,
        document: &[u8],
        writer: &mut W,
    ) -> Result<Outcome, RunError> {
        match decode(alloc, document) {
            Ok(document) => {
                run_document(alloc, document, writer)?;
                Ok(Outcome::Completed)
            }
            Err(DecodeError::Fault(fault)) => {
                let line = format!(in alloc; "{fault}\n")?;
                write_all(writer, line.as_bytes())?;
                Ok(Outcome::Faulted)
            }
            Err(DecodeError::OutOfMemory) => Err(RunError::OutOfMemory),
        }
    }

    ghost too_long = { too_long };
}

/// Reads a document of commands, and writes the text of each command, or the line of the document's fault.
///
/// A run that fails has written a prefix of the whole text, and nothing if the document couldn't be
/// read: `Err(Read)` and `Err(Write)` if and only if reading or writing failed.
pub fn run<R: Source, W: Sink>(
    alloc: Global,
    reader: &mut R,
    writer: &mut W,
) -> Result<Outcome, RunError>
    requires reader { R.has_failed reader.old ≡ false }
    requires writer { W.has_failed writer.old ≡ false }
    ensures text { IfSome (R.remaining reader.old) (λ all. WritesText result
        (W.contents writer.old) (W.contents writer.new) (text_of all)) }
    ensures outcome { IfOk result (λ outcome.
        IfSome (R.remaining reader.old) (λ all. outcome ≡ ending_of all)) }
    ensures errors { ReportsFailures result (R.has_failed reader.new) (W.has_failed writer.new) }
    ensures unwritten { IsErrOf result RunError.Read
        → W.contents writer.new ≡ W.contents writer.old }
{
    UnwindCommands::run(alloc, reader, writer)
}

// Carries out a document's commands under its policy.
fn run_document<W: Sink>(alloc: Global, document: Document, writer: &mut W) -> Result<(), RunError>
    requires writer { W.has_failed writer.old ≡ false }
    requires sound { AreSound nothing_made (tasks_of document.commands.items) }
    ensures text { WritesText result (W.contents writer.old) (W.contents writer.new)
        (content_lines (content_view document)) }
    ensures errors { ReportsFailures result false (W.has_failed writer.new) }
{
    let generation = document.generation;
    let commands = document.commands;
    match document.arch {
        Architecture::X86_64 => {
            run_on::<ArchX86_64, W>(alloc, document.policy, generation, commands, writer)
        }
        Architecture::Aarch64 => {
            run_on::<ArchAarch64, W>(alloc, document.policy, generation, commands, writer)
        }
    }
}

// Carries out commands on an architecture under a policy.
fn run_on<A: DocumentArch, W: Sink>(
    alloc: Global,
    policy: Policy,
    generation: u64,
    commands: Vec<Command>,
    writer: &mut W,
) -> Result<(), RunError>
    requires writer { W.has_failed writer.old ≡ false }
    requires sound { AreSound nothing_made (tasks_of commands.items) }
    ensures text { WritesText result (W.contents writer.old) (W.contents writer.new) (lines_under
        (whole_with A.carrying A.UnwindRule.meaning A.UnwindRule.fallback A.rows A.pe_attempt A.compact A.first_rule)
        (whole_forms A.forms) A.arch (limits_of_policy policy) generation (tasks_of commands.items)) }
    ensures errors { ReportsFailures result false (W.has_failed writer.new) }
{
    match policy {
        Policy::May => {
            run_commands::<Modules<A, MayAllocateDuringUnwind>, W>(
                alloc, generation, commands, writer,
            )
        }
        Policy::Must => {
            run_commands::<Modules<A, MustNotAllocateDuringUnwind>, W>(
                alloc, generation, commands, writer,
            )
        }
    }
}

// Carries out commands in their order, up to one that is `refused`, and writes the text of each. The
// counter of generations gives this number first.
fn run_commands<A: DocumentModules, W: Sink>(
    alloc: Global,
    generation: u64,
    mut commands: Vec<Command>,
    writer: &mut W,
) -> Result<(), RunError>
    requires writer { W.has_failed writer.old ≡ false }
    requires sound { AreSound nothing_made (tasks_of commands.items) }
    ensures text { WritesText result (W.contents writer.old) (W.contents writer.new)
        (lines_of A.meanings A.forms A.data_of (beginning generation) (tasks_of commands.items)) }
    ensures errors { ReportsFailures result false (W.has_failed writer.new) }
{
    commands.reverse();
    let mut session = Session::<A>::new(alloc, Generations::starting_at(generation));
    while let Some(command) = commands.pop() {
        let written = perform(&mut session, alloc, command)?;
        write_all(writer, written.text.as_bytes())?;
        if written.is_refused {
            return Ok(());
        }
    }
    Ok(())
}
