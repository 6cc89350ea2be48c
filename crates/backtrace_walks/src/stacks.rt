//! The stacks of threads, written frame by frame in the form that is asked for. A call that fails has written a prefix of its text.

ghost use Rattle.std.specs.Prelude.{◌≡◌, false, IfOk};
ghost use Rattle.backtrace_text.specs.Writes.{Writes};
ghost use Rattle.json_program.specs.Errors.{ReportsFailures};
ghost use Rattle.backtrace_walks.specs.Backtraces.{is_chosen};
ghost use Rattle.backtrace_walks.specs.ProcessViews.{IsSessionOf, process_seen, walked_text};
ghost use Rattle.backtrace_walks.specs.StackTexts.{is_later, text_at, text_for, threads_text, walk_text};

use crate::arch::{FileModules, ThreadArch};
use crate::backtraces::{BacktraceOptions, CoreProcess, shown_frame};
use crate::courses::{course_from, next_in};
use crate::registers::ThreadStart;
use crate::walks::{NextFrame, WalkedFrame};
use backtrace_headings::label_of;
use backtrace_json::{write_end_part, write_frame_part, write_thread_part};
use backtrace_text::WalkEnd;
use core_files::Thread;
use framehop::Session;
use framehop_whole_modules::WholeRegs;
use json_program::{RunError, Sink};
use std::alloc::Global;

// Writes a frame of this number.
fn write_walked<A: ThreadArch, W: Sink>(
    alloc: Global,
    process: &CoreProcess<'_, '_, '_>,
    options: &BacktraceOptions,
    number: u64,
    frame: &WalkedFrame<WholeRegs<A::UnwindRegs>>,
    sink: &mut W,
) -> Result<(), RunError>
    requires { W.has_failed sink.old ≡ false }
    ensures text { Writes W.contents sink.old sink.new result
        (walked_text A.stacks process.now options.now number frame.now) }
    ensures errors { ReportsFailures result false (W.has_failed sink.new) }
{
    let shown = shown_frame::<A>(alloc, process, options.frames, frame)?;
    write_frame_part(alloc, options.form, number, &shown, sink)
}

// Writes the frames of a walk, each before the next move is made, and how the walk ends.
fn write_walk<'a, A: ThreadArch, W: Sink>(
    alloc: Global,
    session: &mut Session<FileModules<'a, A>>,
    process: &CoreProcess<'_, '_, 'a>,
    options: &BacktraceOptions,
    start: &ThreadStart<WholeRegs<A::UnwindRegs>>,
    sink: &mut W,
) -> Result<(), RunError>
    requires session { IsSessionOf process.now session.old }
    requires sink { W.has_failed sink.old ≡ false }
    ensures text { Writes W.contents sink.old sink.new result
        (walk_text A.stacks (process_seen process.now) options.now start.now) }
    ensures errors { ReportsFailures result false (W.has_failed sink.new) }
    ensures session { IsSessionOf process.now session.new }
{
    let mut course = course_from(start);
    for number in 0..options.limit {
        match next_in::<A>(session, process, &mut course) {
            NextFrame::Frame(frame) => {
                write_walked::<A, W>(alloc, process, options, number, &frame, sink)?;
            }
            NextFrame::End(end) => return write_end_part(alloc, options.form, end, sink),
        }
    }
    write_end_part(alloc, options.form, WalkEnd::LimitReached, sink)
}

// Writes the stack of a thread whose walk begins here, behind others or none.
fn write_stack<'a, A: ThreadArch, W: Sink>(
    alloc: Global,
    session: &mut Session<FileModules<'a, A>>,
    process: &CoreProcess<'_, '_, 'a>,
    options: &BacktraceOptions,
    later: bool,
    id: u64,
    start: &ThreadStart<WholeRegs<A::UnwindRegs>>,
    sink: &mut W,
) -> Result<(), RunError>
    requires session { IsSessionOf process.now session.old }
    requires sink { W.has_failed sink.old ≡ false }
    ensures text { Writes W.contents sink.old sink.new result
        (text_at A.stacks (process_seen process.now) options.now later id start.now) }
    ensures errors { ReportsFailures result false (W.has_failed sink.new) }
    ensures session { IsSessionOf process.now session.new }
{
    let label = label_of(&process.heading, id);
    write_thread_part(alloc, options.form, later, &label, sink)?;
    write_walk::<A, W>(alloc, session, process, options, start, sink)
}

// Whether a thread is asked for.
fn is_chosen(thread: Option<u64>, id: u64) -> bool
    ensures { result ≡ is_chosen thread id }
{
    match thread {
        Some(thread) => thread == id,
        None => true,
    }
}

// Writes the stack of a thread, if it is asked for and has registers of the architecture, behind others or none. Returns whether threads
// behind it stand behind others.
fn write_chosen<'a, A: ThreadArch, W: Sink>(
    alloc: Global,
    session: &mut Session<FileModules<'a, A>>,
    process: &CoreProcess<'_, '_, 'a>,
    options: &BacktraceOptions,
    later: bool,
    thread: &Thread,
    sink: &mut W,
) -> Result<bool, RunError>
    requires session { IsSessionOf process.now session.old }
    requires sink { W.has_failed sink.old ≡ false }
    ensures text { Writes W.contents sink.old sink.new result
        (text_for A.stacks (process_seen process.now) options.now later thread.now) }
    ensures later { IfOk result (λ next. next
        ≡ is_later A.stacks (process_seen process.now) options.now later thread.now) }
    ensures errors { ReportsFailures result false (W.has_failed sink.new) }
    ensures session { IsSessionOf process.now session.new }
{
    let id = u64::from(thread.id);
    if !is_chosen(options.thread, id) {
        return Ok(later);
    }
    let Some(start) = A::start_of(thread) else {
        return Ok(later);
    };
    write_stack::<A, W>(alloc, session, process, options, later, id, &start, sink)?;
    Ok(true)
}

/// Writes the stacks of threads, in their order, of those that are asked for and have registers of the architecture, by a session with
/// the modules of their process, which it goes on having.
pub fn write_threads<'a, A: ThreadArch, W: Sink>(
    alloc: Global,
    session: &mut Session<FileModules<'a, A>>,
    process: &CoreProcess<'_, '_, 'a>,
    options: &BacktraceOptions,
    threads: &[Thread],
    sink: &mut W,
) -> Result<(), RunError>
    requires session { IsSessionOf process.now session.old }
    requires sink { W.has_failed sink.old ≡ false }
    ensures text { Writes W.contents sink.old sink.new result
        (threads_text A.stacks (process_seen process.now) options.now threads.now) }
    ensures errors { ReportsFailures result false (W.has_failed sink.new) }
    ensures session { IsSessionOf process.now session.new }
{
    let mut later = false;
    for thread in threads {
        later = write_chosen::<A, W>(alloc, session, process, options, later, thread, sink)?;
    }
    Ok(())
}
