//! What a process has, and its frames as they are shown.

ghost use Rattle.std.specs.Prelude.{◌≡◌};
ghost use Rattle.backtrace_files.specs.Results.{IfOkAre, IfOkIs};
ghost use Rattle.backtrace_text.specs.FrameViews.{frame_view, location_view, register_view};
ghost use Rattle.backtrace_walks.specs.Backtraces.{location_of_frame, registers_if, shown_frame};
ghost use Rattle.backtrace_walks.specs.ProcessViews.{process_seen};
ghost use Rattle.backtrace_walks.specs.WalkedViews.{frame_seen};

use crate::arch::ThreadArch;
use crate::walks::WalkedFrame;
use backtrace_files::{LoadedFile, location_of};
use backtrace_headings::Heading;
use backtrace_json::TextForm;
use backtrace_text::{CodeLocation, FunctionNames, RegisterValue, ShownFrame};
use core_files::Memory;
use framehop_whole_modules::WholeRegs;
use std::alloc::{AllocError, Global};

/// What is shown of each frame.
#[derive(Clone, Copy, Debug, PartialEq, Eq)]
pub struct FrameOptions {
    /// Whether its registers are shown.
    pub registers: bool,
    /// How the name of its function is shown.
    pub names: FunctionNames,
}

/// Which backtraces are asked for, and how much of each.
#[derive(Clone, Copy, Debug, PartialEq, Eq)]
pub struct BacktraceOptions {
    /// The one thread that is asked for, by its id, or else all.
    pub thread: Option<u64>,
    /// The most frames of each thread.
    pub limit: u64,
    /// What is shown of each frame.
    pub frames: FrameOptions,
    /// The form of the text.
    pub form: TextForm,
}

/// What a process has: its files, its memory, and what its core says of it.
#[derive(Clone, Copy, Debug)]
pub struct CoreProcess<'f, 'm, 'a> {
    /// The files.
    pub files: &'f [LoadedFile<'a>],
    /// The memory.
    pub memory: Memory<'m, 'a>,
    /// What its core says of it.
    pub heading: Heading<'a>,
}

// The registers of a frame, if they are shown.
fn registers_if<A: ThreadArch>(
    alloc: Global,
    are_shown: bool,
    registers: &WholeRegs<A::UnwindRegs>,
) -> Result<Vec<RegisterValue>, AllocError>
    ensures { IfOkAre register_view result (registers_if A.stacks are_shown registers.now) }
{
    if are_shown {
        A::shown_registers(alloc, registers)
    } else {
        Ok(Vec::new(alloc))
    }
}

// Where the code of a frame is.
#[tactic(auto, using(crate::proofs::Addresses::same_address, crate::proofs::Addresses::same_lookup))]
fn location_of_frame<'a, A: ThreadArch>(
    process: &CoreProcess<'_, '_, 'a>,
    frame: &WalkedFrame<WholeRegs<A::UnwindRegs>>,
) -> CodeLocation<'a>
    ensures { location_view result
        ≡ location_of_frame A.stacks (process_seen process.now) (frame_seen frame.now) }
{
    let address = frame.address.address();
    match A::interrupted(&process.memory, address, &frame.registers) {
        Some(_) => CodeLocation::SignalTrampoline,
        None => location_of(process.files, address, frame.address.address_for_lookup()),
    }
}

/// A frame as it is shown.
pub(crate) fn shown_frame<'a, A: ThreadArch>(
    alloc: Global,
    process: &CoreProcess<'_, '_, 'a>,
    options: FrameOptions,
    frame: &WalkedFrame<WholeRegs<A::UnwindRegs>>,
) -> Result<ShownFrame<'a>, AllocError>
    ensures { IfOkIs frame_view result
        (shown_frame A.stacks (process_seen process.now) options (frame_seen frame.now)) }
{
    Ok(ShownFrame {
        location: location_of_frame::<A>(process, frame),
        names: options.names,
        registers: registers_if::<A>(alloc, options.registers, &frame.registers)?,
    })
}
