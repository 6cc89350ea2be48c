//! What a core says of its process, as the beginning of a document.

ghost use Rattle.std.specs.Prelude.{◌≡◌, IfOk, option_and_then, option_map};
ghost use Rattle.core_files.specs.ProcessViews.{process_seen};
ghost use Rattle.json.specs.Tree.{json_tokens};
ghost use Rattle.line_parts.specs.Parts.{Pushes};
ghost use Rattle.backtrace_headings.specs.HeadingViews.{heading_view};
ghost use Rattle.backtrace_json.specs.Headings.{cause_text, command_value, ended_value, fault_address, sender_of, sender_value, signal_value};
ghost use Rattle.backtrace_json.specs.Parts.{heading_json, heading_tokens, origin_tokens};
ghost use Rattle.backtrace_json.specs.Threads.{text_if};
ghost use Rattle.backtrace_json.specs.Values.{or_null, text_value};
ghost use Rattle.backtrace_json.specs.Writers.{Adds};
ghost use Rattle.backtrace_headings.specs.Signals.{signal_name};

use crate::values::{add_address_if, add_number, add_text};
use backtrace_headings::{
    EndSignal, Heading, command_of, push_code, push_fault_words, push_signal_name,
};
use core_files::{ProcessInfo, SignalOrigin};
use json::Writer;
use line_parts::push_bytes;
use std::alloc::{AllocError, Global};

// Adds the command of a process, or null if it isn't known.
fn add_command(
    alloc: Global,
    writer: &mut Writer,
    process: Option<ProcessInfo<'_>>,
) -> Result<(), AllocError>
    ensures { Adds result writer.old writer.new
        (json_tokens (command_value (option_map process_seen process.entry))) }
{
    match process {
        Some(process) => add_text(alloc, writer, command_of(&process)),
        None => writer.null(),
    }
}

// Adds the name of a signal.
fn add_signal_name(alloc: Global, writer: &mut Writer, signal: u16) -> Result<(), AllocError>
    ensures { Adds result writer.old writer.new (json_tokens (text_value (signal_name signal))) }
{
    let mut name = Vec::new(alloc);
    push_signal_name(alloc, &mut name, signal)?;
    add_text(alloc, writer, name.as_slice())
}

// Appends why a signal came, in words.
#[tactic(auto, unfolding(crate::specs::Headings::cause_text))]
fn push_cause(
    alloc: Global,
    text: &mut Vec<u8>,
    signal: u16,
    origin: SignalOrigin,
) -> Result<(), AllocError>
    ensures { Pushes result text.old text.new (cause_text signal origin) }
{
    match origin {
        SignalOrigin::Fault { code, .. } => push_fault_words(alloc, text, signal, code),
        SignalOrigin::Process { .. } => push_bytes(text, b"sent by a process"),
        SignalOrigin::Kernel => push_bytes(text, b"sent by the kernel"),
        SignalOrigin::Other(code) => push_code(alloc, text, code),
    }
}

// Adds why a signal came, or null if the core doesn't say it.
fn add_cause(
    alloc: Global,
    writer: &mut Writer,
    signal: u16,
    origin: Option<SignalOrigin>,
) -> Result<(), AllocError>
    ensures { Adds result writer.old writer.new
        (json_tokens (text_if (option_map (cause_text signal) origin))) }
{
    match origin {
        Some(origin) => {
            let mut cause = Vec::new(alloc);
            push_cause(alloc, &mut cause, signal, origin)?;
            add_text(alloc, writer, cause.as_slice())
        }
        None => writer.null(),
    }
}

// The address of a fault.
fn fault_address(origin: Option<SignalOrigin>) -> Option<u64>
    ensures { result ≡ option_and_then fault_address origin }
{
    match origin {
        Some(SignalOrigin::Fault { address, .. }) => Some(address),
        _ => None,
    }
}

// Adds a process with its user.
fn add_process(writer: &mut Writer, id: u32, user: u32) -> Result<(), AllocError>
    ensures { Adds result writer.old writer.new (json_tokens (sender_value id user)) }
{
    writer.begin_object()?;
    writer.key("process")?;
    add_number(writer, u64::from(id))?;
    writer.key("user")?;
    add_number(writer, u64::from(user))?;
    writer.end_object()
}

// Adds the process that sent a signal, or null if none did.
fn add_sender(writer: &mut Writer, origin: Option<SignalOrigin>) -> Result<(), AllocError>
    ensures { Adds result writer.old writer.new
        (json_tokens (or_null (option_and_then sender_of origin))) }
{
    match origin {
        Some(SignalOrigin::Process { id, user }) => add_process(writer, id, user),
        _ => writer.null(),
    }
}

// Adds the members of where a signal came from.
fn add_origin(
    alloc: Global,
    writer: &mut Writer,
    signal: u16,
    origin: Option<SignalOrigin>,
) -> Result<(), AllocError>
    ensures { Adds result writer.old writer.new (origin_tokens signal origin) }
{
    writer.key("cause")?;
    add_cause(alloc, writer, signal, origin)?;
    writer.key("address")?;
    add_address_if(alloc, writer, fault_address(origin))?;
    writer.key("sender")?;
    add_sender(writer, origin)
}

// Adds a signal.
fn add_ended(alloc: Global, writer: &mut Writer, ended: EndSignal) -> Result<(), AllocError>
    ensures { Adds result writer.old writer.new (json_tokens (ended_value ended)) }
{
    writer.begin_object()?;
    writer.key("number")?;
    add_number(writer, u64::from(ended.signal))?;
    writer.key("name")?;
    add_signal_name(alloc, writer, ended.signal)?;
    add_origin(alloc, writer, ended.signal, ended.origin)?;
    writer.end_object()
}

// Adds the signal that ended a process, or null if none did.
fn add_signal(
    alloc: Global,
    writer: &mut Writer,
    signal: Option<EndSignal>,
) -> Result<(), AllocError>
    ensures { Adds result writer.old writer.new (json_tokens (signal_value signal)) }
{
    match signal {
        Some(ended) => add_ended(alloc, writer, ended),
        None => writer.null(),
    }
}

// Adds what stands before the stacks.
fn add_heading(alloc: Global, writer: &mut Writer, heading: &Heading<'_>) -> Result<(), AllocError>
    ensures { Adds result writer.old writer.new (heading_tokens (heading_view heading.now)) }
{
    writer.begin_object()?;
    writer.key("command")?;
    add_command(alloc, writer, heading.process)?;
    writer.key("signal")?;
    add_signal(alloc, writer, heading.signal)?;
    writer.key("threads")?;
    writer.begin_array()
}

/// What stands before the stacks.
pub(crate) fn heading_json(alloc: Global, heading: &Heading<'_>) -> Result<Vec<u8>, AllocError>
    ensures { IfOk result (λ text. text.items ≡ heading_json (heading_view heading.now)) }
{
    let mut writer = Writer::new(Vec::new(alloc));
    add_heading(alloc, &mut writer, heading)?;
    Ok(writer.into_inner())
}
