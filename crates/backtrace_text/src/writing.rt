//! Lines of backtraces, written to a sink. A call that fails has written a prefix of its lines.

ghost use Rattle.std.specs.Prelude.{◌≡◌, false};
ghost use Rattle.json_program.specs.Errors.{ReportsFailures};
ghost use Rattle.backtrace_text.specs.Ends.{end_text};
ghost use Rattle.backtrace_text.specs.FrameViews.{frame_view};
ghost use Rattle.backtrace_text.specs.Frames.{frame_text};
ghost use Rattle.backtrace_text.specs.LabelViews.{label_view};
ghost use Rattle.backtrace_text.specs.Threads.{thread_line};
ghost use Rattle.backtrace_text.specs.Writes.{Writes};

use crate::ends::{WalkEnd, push_end};
use crate::frames::{ShownFrame, push_frame};
use crate::threads::{ThreadLabel, push_thread};
use json_program::{RunError, Sink, write_all};
use std::alloc::Global;

/// Writes the line of a thread.
pub fn write_thread<W: Sink>(
    alloc: Global,
    label: &ThreadLabel<'_>,
    sink: &mut W,
) -> Result<(), RunError>
    requires { W.has_failed sink.old ≡ false }
    ensures text { Writes W.contents sink.old sink.new result (thread_line (label_view label.now)) }
    ensures errors { ReportsFailures result false (W.has_failed sink.new) }
{
    let mut text = Vec::new(alloc);
    push_thread(alloc, &mut text, label)?;
    write_all(sink, text.as_slice())
}

/// Writes the line of a frame of this number, and a line of its registers, if some are shown.
pub fn write_frame<W: Sink>(
    alloc: Global,
    number: u64,
    frame: &ShownFrame<'_>,
    sink: &mut W,
) -> Result<(), RunError>
    requires { W.has_failed sink.old ≡ false }
    ensures text { Writes W.contents sink.old sink.new result
        (frame_text number (frame_view frame.now)) }
    ensures errors { ReportsFailures result false (W.has_failed sink.new) }
{
    let mut text = Vec::new(alloc);
    push_frame(alloc, &mut text, number, frame)?;
    write_all(sink, text.as_slice())
}

/// Writes the line that says why a walk stopped before the end of its stack, if it did.
pub fn write_end<W: Sink>(alloc: Global, end: WalkEnd, sink: &mut W) -> Result<(), RunError>
    requires { W.has_failed sink.old ≡ false }
    ensures text { Writes W.contents sink.old sink.new result (end_text end) }
    ensures errors { ReportsFailures result false (W.has_failed sink.new) }
{
    let mut text = Vec::new(alloc);
    push_end(alloc, &mut text, end)?;
    write_all(sink, text.as_slice())
}
