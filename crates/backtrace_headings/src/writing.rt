//! The lines before those of threads.

ghost use Rattle.std.specs.Prelude.{◌≡◌, false, option_map};
ghost use Rattle.backtrace_text.specs.Writes.{Writes};
ghost use Rattle.core_files.specs.ProcessViews.{process_seen};
ghost use Rattle.json_program.specs.Errors.{ReportsFailures};
ghost use Rattle.line_parts.specs.Parts.{Pushes};
ghost use Rattle.backtrace_headings.specs.HeadingViews.{heading_view};
ghost use Rattle.backtrace_headings.specs.Headings.{command_of, command_text, heading_text, origin_part, signal_text};

use crate::heading::{EndSignal, Heading};
use crate::signals::{push_origin, push_signal_name};
use backtrace_text::push_name;
use core_files::{ProcessInfo, SignalOrigin};
use json_program::{RunError, Sink, write_all};
use line_parts::push_bytes;
use std::alloc::{AllocError, Global};

/// The command line of a process, or the name of its program if that is empty.
pub fn command_of<'a>(process: &ProcessInfo<'a>) -> &'a [u8]
    ensures { result.now ≡ command_of (process_seen process.now) }
{
    if process.arguments.is_empty() {
        process.name
    } else {
        process.arguments
    }
}

// Appends the line of the command, if it is known.
fn push_command(
    alloc: Global,
    text: &mut Vec<u8>,
    process: Option<ProcessInfo<'_>>,
) -> Result<(), AllocError>
    ensures { Pushes result text.old text.new (command_text (option_map process_seen process.entry)) }
{
    match process {
        Some(process) => {
            push_bytes(text, b"Command: ")?;
            push_name(alloc, text, command_of(&process))?;
            push_bytes(text, b"\n")
        }
        None => Ok(()),
    }
}

// Appends where a signal came from, behind its name, if that is known.
fn push_origin_part(
    alloc: Global,
    text: &mut Vec<u8>,
    signal: u16,
    origin: Option<SignalOrigin>,
) -> Result<(), AllocError>
    ensures { Pushes result text.old text.new (origin_part signal origin) }
{
    match origin {
        Some(origin) => {
            push_bytes(text, b", ")?;
            push_origin(alloc, text, signal, origin)
        }
        None => Ok(()),
    }
}

// Appends the line of the signal, if there is one.
fn push_signal(
    alloc: Global,
    text: &mut Vec<u8>,
    signal: Option<EndSignal>,
) -> Result<(), AllocError>
    ensures { Pushes result text.old text.new (signal_text signal) }
{
    match signal {
        Some(ended) => {
            push_bytes(text, b"Signal: ")?;
            push_signal_name(alloc, text, ended.signal)?;
            push_origin_part(alloc, text, ended.signal, ended.origin)?;
            push_bytes(text, b"\n")
        }
        None => Ok(()),
    }
}

// Appends the lines before those of threads.
fn push_heading(alloc: Global, text: &mut Vec<u8>, heading: &Heading<'_>) -> Result<(), AllocError>
    ensures { Pushes result text.old text.new (heading_text (heading_view heading.now)) }
{
    push_command(alloc, text, heading.process)?;
    push_signal(alloc, text, heading.signal)
}

/// Writes the lines before those of threads: of the command, and of the signal that ended the process, if the core says these. A call
/// that fails has written a prefix of them.
pub fn write_heading<W: Sink>(
    alloc: Global,
    heading: &Heading<'_>,
    sink: &mut W,
) -> Result<(), RunError>
    requires { W.has_failed sink.old ≡ false }
    ensures text { Writes W.contents sink.old sink.new result (heading_text (heading_view heading.now)) }
    ensures errors { ReportsFailures result false (W.has_failed sink.new) }
{
    let mut text = Vec::new(alloc);
    push_heading(alloc, &mut text, heading)?;
    write_all(sink, text.as_slice())
}
