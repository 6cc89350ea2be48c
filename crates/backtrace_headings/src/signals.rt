//! Signals in words.

ghost use Rattle.std.specs.Prelude.{◌≡◌, option_map};
ghost use Rattle.line_parts.specs.Parts.{Pushes};
ghost use Rattle.backtrace_headings.specs.Signals.{code_text, fault_text, origin_text, process_text, sender_text, sent_by, signal_name, signal_names, user_text, words_in};
ghost use Rattle.json_program.specs.Lines.{hexadecimal};

use crate::codes::fault_words;
use core_files::SignalOrigin;
use line_parts::{push_bytes, push_decimal};
use std::alloc::{AllocError, Global};

// The name of a standard signal.
#[tactic(auto, unfolding(crate::specs::Signals::signal_names))]
fn standard_name(signal: u16) -> Option<&'static str>
    ensures { option_map (λ words. words.now) result ≡ words_in signal_names signal }
{
    match signal {
        1 => Some("SIGHUP"),
        2 => Some("SIGINT"),
        3 => Some("SIGQUIT"),
        4 => Some("SIGILL"),
        5 => Some("SIGTRAP"),
        6 => Some("SIGABRT"),
        7 => Some("SIGBUS"),
        8 => Some("SIGFPE"),
        9 => Some("SIGKILL"),
        10 => Some("SIGUSR1"),
        11 => Some("SIGSEGV"),
        12 => Some("SIGUSR2"),
        13 => Some("SIGPIPE"),
        14 => Some("SIGALRM"),
        15 => Some("SIGTERM"),
        16 => Some("SIGSTKFLT"),
        17 => Some("SIGCHLD"),
        18 => Some("SIGCONT"),
        19 => Some("SIGSTOP"),
        20 => Some("SIGTSTP"),
        21 => Some("SIGTTIN"),
        22 => Some("SIGTTOU"),
        23 => Some("SIGURG"),
        24 => Some("SIGXCPU"),
        25 => Some("SIGXFSZ"),
        26 => Some("SIGVTALRM"),
        27 => Some("SIGPROF"),
        28 => Some("SIGWINCH"),
        29 => Some("SIGIO"),
        30 => Some("SIGPWR"),
        31 => Some("SIGSYS"),
        _ => None,
    }
}

/// Appends the name of a signal, or its number.
pub fn push_signal_name(alloc: Global, text: &mut Vec<u8>, signal: u16) -> Result<(), AllocError>
    ensures { Pushes result text.old text.new (signal_name signal) }
{
    match standard_name(signal) {
        Some(name) => push_bytes(text, name.as_bytes()),
        None => {
            push_bytes(text, b"signal ")?;
            push_decimal(alloc, text, u64::from(signal))
        }
    }
}

/// Appends a code by its number, which is an int of 32 bits.
pub fn push_code(alloc: Global, text: &mut Vec<u8>, code: u32) -> Result<(), AllocError>
    ensures { Pushes result text.old text.new (code_text code) }
{
    if code < 0x8000_0000 {
        push_bytes(text, b"code ")?;
        push_decimal(alloc, text, u64::from(code))
    } else {
        push_bytes(text, b"code -")?;
        push_decimal(alloc, text, 0x1_0000_0000 - u64::from(code))
    }
}

/// Appends the code of a fault in words, or by its number.
pub fn push_fault_words(
    alloc: Global,
    text: &mut Vec<u8>,
    signal: u16,
    code: u32,
) -> Result<(), AllocError>
    ensures { Pushes result text.old text.new (fault_text signal code) }
{
    match fault_words(signal, code) {
        Some(words) => push_bytes(text, words.as_bytes()),
        None => push_code(alloc, text, code),
    }
}

// Appends `0x` and a number in hexadecimal digits.
fn push_hexadecimal(alloc: Global, text: &mut Vec<u8>, number: u64) -> Result<(), AllocError>
    ensures { Pushes result text.old text.new (hexadecimal number) }
{
    let digits = format!(in alloc; "0x{number:x}")?;
    push_bytes(text, digits.as_bytes())
}

// Appends the words before a process that sent a signal.
#[tactic(auto, unfolding(crate::specs::Signals::sent_by))]
fn push_sent_by(text: &mut Vec<u8>) -> Result<(), AllocError>
    ensures { Pushes result text.old text.new sent_by }
{
    push_bytes(text, b"sent by process ")
}

// Appends the process that sent a signal.
fn push_process(alloc: Global, text: &mut Vec<u8>, id: u32) -> Result<(), AllocError>
    ensures { Pushes result text.old text.new (process_text id) }
{
    push_sent_by(text)?;
    push_decimal(alloc, text, u64::from(id))
}

// Appends the user of the process that sent a signal.
#[tactic(auto, unfolding(crate::specs::Signals::user_text))]
fn push_user(alloc: Global, text: &mut Vec<u8>, user: u32) -> Result<(), AllocError>
    ensures { Pushes result text.old text.new (user_text user) }
{
    push_bytes(text, b", user ")?;
    push_decimal(alloc, text, u64::from(user))
}

// Appends the process that sent a signal, with its user.
fn push_sender(alloc: Global, text: &mut Vec<u8>, id: u32, user: u32) -> Result<(), AllocError>
    ensures { Pushes result text.old text.new (sender_text id user) }
{
    push_process(alloc, text, id)?;
    push_user(alloc, text, user)
}

/// Appends where a signal came from.
pub(crate) fn push_origin(
    alloc: Global,
    text: &mut Vec<u8>,
    signal: u16,
    origin: SignalOrigin,
) -> Result<(), AllocError>
    ensures { Pushes result text.old text.new (origin_text signal origin) }
{
    match origin {
        SignalOrigin::Fault { code, address } => {
            push_fault_words(alloc, text, signal, code)?;
            push_bytes(text, b", at ")?;
            push_hexadecimal(alloc, text, address)
        }
        SignalOrigin::Process { id, user } => push_sender(alloc, text, id, user),
        SignalOrigin::Kernel => push_bytes(text, b"sent by the kernel"),
        SignalOrigin::Other(code) => push_code(alloc, text, code),
    }
}
