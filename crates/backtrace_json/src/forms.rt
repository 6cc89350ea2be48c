//! The parts of the text of a core's stacks, in the form that is asked for, written to a sink. A call that fails has written a prefix of
//! its part.

ghost use Rattle.std.specs.Prelude.{◌≡◌, false};
ghost use Rattle.backtrace_headings.specs.HeadingViews.{heading_view};
ghost use Rattle.backtrace_text.specs.FrameViews.{frame_view};
ghost use Rattle.backtrace_text.specs.LabelViews.{label_view};
ghost use Rattle.backtrace_text.specs.Writes.{Writes};
ghost use Rattle.json_program.specs.Errors.{ReportsFailures};
ghost use Rattle.backtrace_json.specs.Forms.{close_part, end_part, frame_part, heading_part, thread_part};

use crate::headings::heading_json;
use crate::threads::{end_json, frame_json, thread_json};
use backtrace_headings::{Heading, write_heading};
use backtrace_text::{ShownFrame, ThreadLabel, WalkEnd, write_end, write_frame, write_thread};
use json_program::{RunError, Sink, write_all};
use std::alloc::Global;

/// The form of a text.
#[derive(Clone, Copy, Debug, PartialEq, Eq)]
pub enum TextForm {
    /// Lines, as gdb has them.
    Lines,
    /// A document of JSON, in one line.
    Json,
}

/// Writes what stands before the stacks.
pub fn write_heading_part<W: Sink>(
    alloc: Global,
    form: TextForm,
    heading: &Heading<'_>,
    sink: &mut W,
) -> Result<(), RunError>
    requires { W.has_failed sink.old ≡ false }
    ensures text { Writes W.contents sink.old sink.new result
        (heading_part form (heading_view heading.now)) }
    ensures errors { ReportsFailures result false (W.has_failed sink.new) }
{
    match form {
        TextForm::Lines => write_heading(alloc, heading, sink),
        TextForm::Json => {
            let text = heading_json(alloc, heading)?;
            write_all(sink, text.as_slice())
        }
    }
}

/// Writes what stands before the frames of a thread. `later` says that another thread stands before it.
pub fn write_thread_part<W: Sink>(
    alloc: Global,
    form: TextForm,
    later: bool,
    label: &ThreadLabel<'_>,
    sink: &mut W,
) -> Result<(), RunError>
    requires { W.has_failed sink.old ≡ false }
    ensures text { Writes W.contents sink.old sink.new result
        (thread_part form later (label_view label.now)) }
    ensures errors { ReportsFailures result false (W.has_failed sink.new) }
{
    match form {
        TextForm::Lines => write_thread(alloc, label, sink),
        TextForm::Json => {
            let text = thread_json(alloc, later, label)?;
            write_all(sink, text.as_slice())
        }
    }
}

/// Writes a frame. Those of a thread are numbered from 0.
pub fn write_frame_part<W: Sink>(
    alloc: Global,
    form: TextForm,
    number: u64,
    frame: &ShownFrame<'_>,
    sink: &mut W,
) -> Result<(), RunError>
    requires { W.has_failed sink.old ≡ false }
    ensures text { Writes W.contents sink.old sink.new result
        (frame_part form number (frame_view frame.now)) }
    ensures errors { ReportsFailures result false (W.has_failed sink.new) }
{
    match form {
        TextForm::Lines => write_frame(alloc, number, frame, sink),
        TextForm::Json => {
            let text = frame_json(alloc, number, frame)?;
            write_all(sink, text.as_slice())
        }
    }
}

/// Writes what stands behind the frames of a thread.
pub fn write_end_part<W: Sink>(
    alloc: Global,
    form: TextForm,
    end: WalkEnd,
    sink: &mut W,
) -> Result<(), RunError>
    requires { W.has_failed sink.old ≡ false }
    ensures text { Writes W.contents sink.old sink.new result (end_part form end) }
    ensures errors { ReportsFailures result false (W.has_failed sink.new) }
{
    match form {
        TextForm::Lines => write_end(alloc, end, sink),
        TextForm::Json => {
            let text = end_json(alloc, end)?;
            write_all(sink, text.as_slice())
        }
    }
}

/// Writes what stands behind the stacks.
pub fn write_close<W: Sink>(form: TextForm, sink: &mut W) -> Result<(), RunError>
    requires { W.has_failed sink.old ≡ false }
    ensures text { Writes W.contents sink.old sink.new result (close_part form) }
    ensures errors { ReportsFailures result false (W.has_failed sink.new) }
{
    match form {
        TextForm::Lines => Ok(()),
        TextForm::Json => write_all(sink, b"]}\n"),
    }
}
