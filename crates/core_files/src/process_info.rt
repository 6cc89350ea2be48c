//! `NT_PRPSINFO`: what a process runs.

ghost use Rattle.std.specs.Prelude.{◌≡◌, ◌≤◌, ◌+◌, length, take, drop};
ghost use Rattle.std.specs.Option.{option_map};
ghost use Rattle.core_files.specs.ProcessInfo.{process_info, text_at, without_last_space};
ghost use Rattle.core_files.specs.ProcessViews.{process_seen};

use crate::bytes::{bytes_after, first_bytes, u32_at};
use crate::mapped_files::name_length;

/// What an `NT_PRPSINFO` says of a process.
#[derive(Debug, Clone, Copy, PartialEq, Eq)]
pub struct ProcessInfo<'a> {
    /// Its id (`pr_pid`).
    pub id: u32,
    /// The name of its program, the first 15 bytes at most (`pr_fname`).
    pub name: &'a [u8],
    /// Its command line, with a space between arguments: the first 79 bytes at most (`pr_psargs`).
    pub arguments: &'a [u8],
}

const SIZE: usize = 136;

const PR_PID: usize = 24;

const PR_FNAME: usize = 40;

const PR_PSARGS: usize = 56;

// The text in so many bytes at an offset, which ends before the first 0.
fn text_at(descriptor: &[u8], at: usize, size: usize) -> &[u8]
    requires { at + size ≤ length descriptor.now }
    ensures { result.now ≡ text_at descriptor.now at size }
{
    let field = first_bytes(bytes_after(descriptor, at), size);
    match name_length(field) {
        Some(length) => first_bytes(field, length),
        None => field,
    }
}

// A text without the space at its end, which stands for the 0 of the last argument.
fn without_last_space(text: &[u8]) -> &[u8]
    ensures { result.now ≡ without_last_space text.now }
{
    match text.len() {
        0 => text,
        length if text[length - 1] == b' ' => first_bytes(text, length - 1),
        _ => text,
    }
}

/// What the descriptor of an `NT_PRPSINFO` says of a process: nothing if it hasn't 136 bytes.
pub fn read_process_info(descriptor: &[u8]) -> Option<ProcessInfo<'_>>
    ensures { option_map process_seen result ≡ process_info descriptor.now }
{
    if descriptor.len() != SIZE {
        return None;
    }
    Some(ProcessInfo {
        id: u32_at(descriptor, PR_PID),
        name: text_at(descriptor, PR_FNAME, 16),
        arguments: without_last_space(text_at(descriptor, PR_PSARGS, 80)),
    })
}
