//! The lines of threads.

ghost use Rattle.line_parts.specs.Parts.{Pushes};
ghost use Rattle.std.specs.Option.{option_copied};
ghost use Rattle.backtrace_text.specs.LabelViews.{label_view};
ghost use Rattle.backtrace_text.specs.Threads.{name_part, signal_part, thread_line};

use crate::names::push_name;
use line_parts::{push_bytes, push_decimal};
use std::alloc::{AllocError, Global};

/// What the line of a thread says.
#[derive(Clone, Copy, Debug)]
pub struct ThreadLabel<'a> {
    /// The number that the system has for the thread.
    pub id: u64,
    /// Its name, if that is known.
    pub name: Option<&'a [u8]>,
    /// Whether it got the signal that ended the process.
    pub got_signal: bool,
}

// Appends the name of a thread in quotation marks, if it is known.
fn push_thread_name(
    alloc: Global,
    text: &mut Vec<u8>,
    name: Option<&[u8]>,
) -> Result<(), AllocError>
    ensures { Pushes result text.old text.new (name_part (option_copied name.entry)) }
{
    let Some(name) = name else {
        return Ok(());
    };
    push_bytes(text, b" \"")?;
    push_name(alloc, text, name)?;
    push_bytes(text, b"\"")
}

// Appends that a thread got the signal, if it did.
#[tactic(auto, unfolding(crate::specs::Threads::signal_part))]
fn push_signal(text: &mut Vec<u8>, got_signal: bool) -> Result<(), AllocError>
    ensures { Pushes result text.old text.new (signal_part got_signal) }
{
    if got_signal {
        push_bytes(text, b", got the signal")?;
    }
    Ok(())
}

/// Appends the line of a thread.
pub(crate) fn push_thread(
    alloc: Global,
    text: &mut Vec<u8>,
    label: &ThreadLabel<'_>,
) -> Result<(), AllocError>
    ensures { Pushes result text.old text.new (thread_line (label_view label.now)) }
{
    push_bytes(text, b"Thread ")?;
    push_decimal(alloc, text, label.id)?;
    push_thread_name(alloc, text, label.name)?;
    push_signal(text, label.got_signal)?;
    push_bytes(text, b":\n")
}
