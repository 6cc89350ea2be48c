//! The text of a core's stacks.

ghost use Rattle.std.specs.Prelude.{◌≡◌, false, map};
ghost use Rattle.backtrace_files.specs.FileViews.{files_seen};
ghost use Rattle.backtrace_files.specs.Files.{ranges_of};
ghost use Rattle.backtrace_files.specs.GivenViews.{given_seen};
ghost use Rattle.backtrace_text.specs.Writes.{Writes};
ghost use Rattle.core_files.specs.CoreViews.{contents_of};
ghost use Rattle.core_files.specs.RangeViews.{ranges_seen};
ghost use Rattle.json_program.specs.Errors.{ReportsFailures};
ghost use Rattle.backtrace_walks.specs.Backtraces.{core_text, process_with};
ghost use Rattle.backtrace_walks.specs.ProcessViews.{process_seen};
ghost use Rattle.backtrace_walks.specs.StackTexts.{text_by, text_with};

use crate::arch::ThreadArch;
use crate::backtraces::{BacktraceOptions, CoreProcess};
use crate::session::session_of;
use crate::stacks::write_threads;
use backtrace_files::{GivenFile, LoadedFile, memory_ranges, process_files};
use backtrace_headings::heading_of;
use backtrace_json::{write_close, write_heading_part};
use core_files::{CoreFile, MemoryRange};
use elf_files::Machine;
use framehop_rules::aarch64::ArchAarch64;
use framehop_rules::x86_64::ArchX86_64;
use json_program::{RunError, Sink};
use std::alloc::Global;

// The process of a core with these files, of which these are the ranges of memory.
fn process_in<'f, 'm, 'a>(
    core: &'m CoreFile<'a>,
    files: &'f [LoadedFile<'a>],
    ranges: &'m [MemoryRange<'a>],
) -> CoreProcess<'f, 'm, 'a>
    requires { ranges_seen ranges.now ≡ ranges_of (files_seen files.now) }
    ensures process { process_seen result ≡ process_with (contents_of core.now) (files_seen files.now) }
    ensures files { result.files ≡ files.entry }
{
    CoreProcess {
        files,
        memory: core.memory(ranges),
        heading: heading_of(core),
    }
}

// Writes the stacks of a core's threads on an architecture.
fn write_by<'a, A: ThreadArch, W: Sink>(
    alloc: Global,
    core: &CoreFile<'a>,
    files: &[LoadedFile<'a>],
    options: &BacktraceOptions,
    sink: &mut W,
) -> Result<(), RunError>
    requires { W.has_failed sink.old ≡ false }
    ensures text { Writes W.contents sink.old sink.new result
        (text_by A.stacks (contents_of core.now) (files_seen files.now) options.now) }
    ensures errors { ReportsFailures result false (W.has_failed sink.new) }
{
    let ranges = memory_ranges(alloc, files)?;
    let mut session = session_of::<A>(alloc, files)?;
    let process = process_in(core, files, ranges.as_slice());
    write_threads::<A, W>(alloc, &mut session, &process, options, core.threads(), sink)
}

// Writes the stacks of a core's threads on its machine.
fn write_with<'a, W: Sink>(
    alloc: Global,
    core: &CoreFile<'a>,
    files: &[LoadedFile<'a>],
    options: &BacktraceOptions,
    sink: &mut W,
) -> Result<(), RunError>
    requires { W.has_failed sink.old ≡ false }
    ensures text { Writes W.contents sink.old sink.new result
        (text_with (contents_of core.now) (files_seen files.now) options.now) }
    ensures errors { ReportsFailures result false (W.has_failed sink.new) }
{
    match core.machine() {
        Machine::X86_64 => write_by::<ArchX86_64, W>(alloc, core, files, options, sink),
        Machine::Aarch64 => write_by::<ArchAarch64, W>(alloc, core, files, options, sink),
    }
}

/// Writes what a core says of its process, and then its stacks, in the order of the core, of those that are asked for, in the form that
/// is asked for, by what is given of its files by the numbers of their mappings. Each frame is written before the next step is made, so
/// that no more than one is kept. A call that fails has written a prefix of the text.
pub fn write_stacks<W: Sink>(
    alloc: Global,
    core: &CoreFile<'_>,
    given: &[GivenFile<'_>],
    options: &BacktraceOptions,
    sink: &mut W,
) -> Result<(), RunError>
    requires { W.has_failed sink.old ≡ false }
    ensures text { Writes W.contents sink.old sink.new result
        (core_text (contents_of core.now) (map given_seen given.now) options.now) }
    ensures errors { ReportsFailures result false (W.has_failed sink.new) }
{
    let loaded = process_files(alloc, core, given)?;
    let heading = heading_of(core);
    write_heading_part(alloc, options.form, &heading, sink)?;
    write_with(alloc, core, loaded.as_slice(), options, sink)?;
    write_close(options.form, sink)
}
