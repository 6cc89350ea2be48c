//! The parts of a thread's stack in a document.

ghost use Rattle.std.specs.Prelude.{◌≡◌, IfOk, nat_lt};
ghost use Rattle.backtrace_text.specs.FrameViews.{frame_view};
ghost use Rattle.backtrace_text.specs.LabelViews.{label_view};
ghost use Rattle.json.specs.Tree.{json_tokens};
ghost use Rattle.backtrace_json.specs.Parts.{comma_if, end_json, end_tokens, frame_json, thread_json, thread_tokens};
ghost use Rattle.backtrace_json.specs.Threads.{stop_reason, text_if};
ghost use Rattle.backtrace_json.specs.Writers.{Adds};

use crate::frames::add_frame;
use crate::values::{add_number, add_text, add_text_if};
use backtrace_text::{ShownFrame, ThreadLabel, WalkEnd, push_reason};
use json::Writer;
use std::alloc::{AllocError, Global};

// A text with a comma, if an element stands before.
fn comma_if(alloc: Global, later: bool) -> Result<Vec<u8>, AllocError>
    ensures { IfOk result (λ text. text.items ≡ comma_if later) }
{
    let mut text = Vec::new(alloc);
    if later {
        text.push(b',')?;
    }
    Ok(text)
}

// Adds what stands before the frames of a thread.
fn add_label(alloc: Global, writer: &mut Writer, label: &ThreadLabel<'_>) -> Result<(), AllocError>
    ensures { Adds result writer.old writer.new (thread_tokens (label_view label.now)) }
{
    writer.begin_object()?;
    writer.key("id")?;
    add_number(writer, label.id)?;
    writer.key("name")?;
    add_text_if(alloc, writer, label.name)?;
    writer.key("got_signal")?;
    writer.boolean(label.got_signal)?;
    writer.key("frames")?;
    writer.begin_array()
}

/// What stands before the frames of a thread, behind another thread or none.
pub(crate) fn thread_json(
    alloc: Global,
    later: bool,
    label: &ThreadLabel<'_>,
) -> Result<Vec<u8>, AllocError>
    ensures { IfOk result (λ text. text.items ≡ thread_json later (label_view label.now)) }
{
    let mut writer = Writer::new(comma_if(alloc, later)?);
    add_label(alloc, &mut writer, label)?;
    Ok(writer.into_inner())
}

/// A frame of this number.
pub(crate) fn frame_json(
    alloc: Global,
    number: u64,
    frame: &ShownFrame<'_>,
) -> Result<Vec<u8>, AllocError>
    ensures { IfOk result (λ text. text.items ≡ frame_json number (frame_view frame.now)) }
{
    let mut writer = Writer::new(comma_if(alloc, 0 < number)?);
    add_frame(alloc, &mut writer, frame)?;
    Ok(writer.into_inner())
}

// Adds why a walk stopped, or null if it didn't.
fn add_reason(alloc: Global, writer: &mut Writer, end: WalkEnd) -> Result<(), AllocError>
    ensures { Adds result writer.old writer.new (json_tokens (text_if (stop_reason end))) }
{
    match end {
        WalkEnd::EndOfStack => writer.null(),
        WalkEnd::Stopped(error) => {
            let mut reason = Vec::new(alloc);
            push_reason(alloc, &mut reason, error)?;
            add_text(alloc, writer, reason.as_slice())
        }
        WalkEnd::LimitReached => add_text(alloc, writer, b"limit reached"),
    }
}

// Adds what stands behind the frames of a thread.
fn add_end(alloc: Global, writer: &mut Writer, end: WalkEnd) -> Result<(), AllocError>
    ensures { Adds result writer.old writer.new (end_tokens end) }
{
    writer.end_array()?;
    writer.key("stopped")?;
    add_reason(alloc, writer, end)?;
    writer.end_object()
}

/// What stands behind the frames of a thread.
pub(crate) fn end_json(alloc: Global, end: WalkEnd) -> Result<Vec<u8>, AllocError>
    ensures { IfOk result (λ text. text.items ≡ end_json end) }
{
    let mut writer = Writer::new(Vec::new(alloc));
    add_end(alloc, &mut writer, end)?;
    Ok(writer.into_inner())
}
