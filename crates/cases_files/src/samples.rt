//! Samples.

use crate::text::{show_number, show_thread};
use perf_files::{ChainFrame, Context, Sample, SavedRegisters, WalkStart, push_frames};
use shown_text::Shown;

fn context_name(context: Context) -> &'static str {
    match context {
        Context::User => " user",
        Context::Kernel => " kernel",
        Context::Hypervisor => " hypervisor",
        Context::Other => " other",
    }
}

// Where a walk begins, by the numbers of the architecture whose instruction pointer was recorded.
pub(crate) fn start_of(registers: &SavedRegisters<'_>) -> Option<WalkStart> {
    match registers.start_aarch64() {
        Some(start) => Some(start),
        None => registers.start_x86_64(),
    }
}

fn show_start(registers: &SavedRegisters<'_>, shown: &mut Shown) {
    match start_of(registers) {
        Some(start) => {
            shown.hex(" at 0x", start.instruction_pointer);
            shown.hex(" stack 0x", start.stack_pointer);
            show_number(" frame", start.frame_pointer, shown);
            show_number(" link", start.link_register, shown);
        }
        None => shown.text(" no start"),
    }
}

fn show_chain(sample: &Sample<'_>, shown: &mut Shown) {
    let mut frames: Vec<ChainFrame> = Vec::new(shown.alloc());
    let pushed = push_frames(&mut frames, &sample.call_chain);
    shown.keep(pushed);
    shown.number(" chain ", sample.call_chain.len() as u64);
    for frame in frames.as_slice() {
        shown.text(context_name(frame.context));
        shown.hex(" 0x", frame.address);
    }
}

// A sum over bytes that tells their order.
fn sum_of(bytes: &[u8]) -> u32 {
    let mut sum = 0u32;
    for byte in bytes {
        sum = sum.wrapping_mul(31).wrapping_add(u32::from(*byte));
    }
    sum
}

/// Shows a sample.
pub(crate) fn show_sample(event: usize, sample: &Sample<'_>, shown: &mut Shown) {
    let head = sample.head;
    shown.number("sample ", event as u64);
    match head.thread {
        Some(thread) => show_thread(" ", thread, shown),
        None => shown.text(" -"),
    }
    show_number(" ip", head.instruction_pointer, shown);
    show_number(" time", head.time, shown);
    show_number(" period", head.period, shown);
    show_chain(sample, shown);
    show_start(&sample.user_registers, shown);
    let bytes = sample.user_stack;
    shown.number(" copied ", bytes.len() as u64);
    shown.hex(" sum 0x", u64::from(sum_of(bytes)));
}
