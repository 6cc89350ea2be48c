//! What a core says of its process before its threads.

ghost use Rattle.std.specs.Prelude.{◌≡◌, option_map};
ghost use Rattle.std.specs.Option.{option_copied};
ghost use Rattle.backtrace_text.specs.LabelViews.{label_view};
ghost use Rattle.core_files.specs.CoreViews.{contents_of};
ghost use Rattle.core_files.specs.ProcessViews.{process_seen};
ghost use Rattle.backtrace_headings.specs.HeadingViews.{heading_view};
ghost use Rattle.backtrace_headings.specs.Headings.{got_signal, heading_of, label_of, name_by, origin_by, signal_by, signal_of};

use backtrace_text::ThreadLabel;
use core_files::{CoreFile, ProcessInfo, SignalInfo, SignalOrigin, Thread};

/// The signal that ended a process.
#[derive(Clone, Copy, Debug, PartialEq, Eq)]
pub struct EndSignal {
    /// The id of the thread that got it.
    pub thread: u32,
    /// Its number.
    pub signal: u16,
    /// Where it came from, if the core says that.
    pub origin: Option<SignalOrigin>,
}

/// What a core says of its process.
#[derive(Clone, Copy, Debug)]
pub struct Heading<'a> {
    /// What the process runs, if the core says that.
    pub process: Option<ProcessInfo<'a>>,
    /// The signal that ended it, if one did.
    pub signal: Option<EndSignal>,
}

// Where a signal came from, if this says it of the signal.
fn origin_by(signal: u16, info: Option<SignalInfo>) -> Option<SignalOrigin>
    ensures { result ≡ origin_by signal info }
{
    match info {
        Some(info) if info.signal == u32::from(signal) => Some(info.origin),
        _ => None,
    }
}

// The signal that a thread got, if it got one.
fn signal_by(info: Option<SignalInfo>, thread: &Thread) -> Option<EndSignal>
    ensures { result ≡ signal_by info thread.now }
{
    if thread.signal == 0 {
        return None;
    }
    Some(EndSignal {
        thread: thread.id,
        signal: thread.signal,
        origin: origin_by(thread.signal, info),
    })
}

// The signal that ended a core's process: that of the first thread.
fn signal_of(core: &CoreFile<'_>) -> Option<EndSignal>
    ensures { result ≡ signal_of (contents_of core.now) }
{
    match core.threads().first() {
        Some(thread) => signal_by(core.signal_info(), thread),
        None => None,
    }
}

/// What a core says of its process.
pub fn heading_of<'a>(core: &CoreFile<'a>) -> Heading<'a>
    ensures { heading_view result ≡ heading_of (contents_of core.now) }
{
    Heading {
        process: core.process_info(),
        signal: signal_of(core),
    }
}

// The name of the process, if its id is this one.
fn name_by<'a>(process: Option<ProcessInfo<'a>>, id: u64) -> Option<&'a [u8]>
    ensures { option_copied result ≡ name_by (option_map process_seen process.entry) id }
{
    match process {
        Some(process) if u64::from(process.id) == id => Some(process.name),
        _ => None,
    }
}

// Whether the thread with this id got the signal that ended the process.
fn got_signal(signal: Option<EndSignal>, id: u64) -> bool
    ensures { result ≡ got_signal signal id }
{
    match signal {
        Some(ended) => u64::from(ended.thread) == id,
        None => false,
    }
}

/// What the line of the thread with this id says: its name is that of the process, if this has the same id, as a core says no other.
pub fn label_of<'a>(heading: &Heading<'a>, id: u64) -> ThreadLabel<'a>
    ensures { label_view result ≡ label_of (heading_view heading.now) id }
{
    ThreadLabel {
        id,
        name: name_by(heading.process, id),
        got_signal: got_signal(heading.signal, id),
    }
}
