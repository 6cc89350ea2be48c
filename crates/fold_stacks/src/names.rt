//! The names of frames.

ghost use Rattle.std.specs.Prelude.{◌≡◌, OnOk};
ghost use Rattle.std.specs.Option.{option_copied};
ghost use Rattle.line_parts.specs.Parts.{Pushes};
ghost use Rattle.fold_stacks.specs.FrameTexts.{base_from, comm_text, function_text, process_text, thread_text, unknown_text};

use folded_stacks::{push_frame_name, push_process_name};
use line_parts::{push_bytes, push_decimal};
use perf_files::ThreadId;
use std::alloc::{AllocError, Global};
use symbol_names::demangled;

/// What a walk has in place of its outermost frame if the copied stack ends before it does.
pub(crate) const TRUNCATED: &[u8] = b"[truncated]";

/// What a walk has in place of its outermost frame if no caller is found.
pub(crate) const BROKEN: &[u8] = b"[broken]";

/// What stands for the name of a file where none is mapped.
pub(crate) const UNKNOWN: &[u8] = b"unknown";

// Goes on with the part of a path after its last slash, by more of the path.
fn push_base_name(base: &mut Vec<u8>, path: &[u8]) -> Result<(), AllocError>
    ensures { OnOk result (base.new.items ≡ base_from base.old.items path.now) }
{
    for byte in path {
        if *byte == b'/' {
            base.clear();
        } else {
            base.push(*byte)?;
        }
    }
    Ok(())
}

/// Appends the name of a function by its symbol: as it is written in programs, if it is known.
pub(crate) fn push_function(
    alloc: Global,
    text: &mut Vec<u8>,
    symbol: &[u8],
) -> Result<(), AllocError>
    ensures { Pushes result text.old text.new (function_text symbol.now) }
{
    match demangled(alloc, symbol)? {
        Some(name) => push_frame_name(text, name.as_slice()),
        None => push_frame_name(text, symbol),
    }
}

/// Appends the name of a function that isn't known, in a file of this name: the last part of that, in brackets.
pub(crate) fn push_unknown_in(
    alloc: Global,
    text: &mut Vec<u8>,
    file: &[u8],
) -> Result<(), AllocError>
    ensures { Pushes result text.old text.new (unknown_text file.now) }
{
    let mut base = Vec::new(alloc);
    push_base_name(&mut base, file)?;
    push_bytes(text, b"[")?;
    push_frame_name(text, base.as_slice())?;
    push_bytes(text, b"]")
}

/// Appends the name of a process by a thread's: as it is, or its number behind a colon if it has none. Process 0 is the one that idles,
/// which perf names so.
pub(crate) fn push_comm(
    alloc: Global,
    text: &mut Vec<u8>,
    comm: Option<&[u8]>,
    pid: u32,
) -> Result<(), AllocError>
    ensures { Pushes result text.old text.new (comm_text (option_copied comm.entry) pid) }
{
    match comm {
        Some(comm) => push_bytes(text, comm),
        None if pid == 0 => push_bytes(text, b"swapper"),
        None => {
            push_bytes(text, b":")?;
            push_decimal(alloc, text, u64::from(pid))
        }
    }
}

// Appends a thread, if there is one.
fn push_thread(
    alloc: Global,
    text: &mut Vec<u8>,
    thread: Option<ThreadId>,
) -> Result<(), AllocError>
    ensures { Pushes result text.old text.new (thread_text thread) }
{
    let Some(thread) = thread else {
        return Ok(());
    };
    push_bytes(text, b"-")?;
    push_decimal(alloc, text, u64::from(thread.pid))?;
    push_bytes(text, b"/")?;
    push_decimal(alloc, text, u64::from(thread.tid))
}

/// Appends what a stack begins with: the name of the process, and the thread if each has stacks of its own.
pub(crate) fn push_process(
    alloc: Global,
    text: &mut Vec<u8>,
    comm: &[u8],
    thread: Option<ThreadId>,
) -> Result<(), AllocError>
    ensures { Pushes result text.old text.new (process_text comm.now thread) }
{
    push_process_name(text, comm)?;
    push_thread(alloc, text, thread)
}
