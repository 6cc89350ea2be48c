//! Words and bytes as text.

use perf_files::ThreadId;
use shown_text::Shown;
use std::alloc::AllocError;
use std::fmt::{Debug, Display};

/// The bytes of a section, as far as there are some.
pub(crate) fn bytes_of(bytes: &[u8], offset: u64, size: u64) -> &[u8] {
    let start = offset.min(bytes.len() as u64) as usize;
    let rest = &bytes[start..];
    let size = size.min(rest.len() as u64) as usize;
    &rest[..size]
}

/// Shows a number after a name, or a dash.
pub(crate) fn show_number(name: &str, number: Option<u64>, shown: &mut Shown) {
    shown.text(name);
    match number {
        Some(number) => shown.hex(" 0x", number),
        None => shown.text(" -"),
    }
}

/// Shows the numbers of a process and a thread.
pub(crate) fn show_thread(before: &str, thread: ThreadId, shown: &mut Shown) {
    shown.number(before, u64::from(thread.pid));
    shown.number("/", u64::from(thread.tid));
}

/// Shows a name, each byte that isn't a visible character of ASCII as a question mark.
pub(crate) fn show_name(name: &[u8], shown: &mut Shown) {
    shown.text(" ");
    for byte in name {
        let visible = if byte.is_ascii_graphic() { *byte } else { b'?' };
        shown.bytes(&[visible]);
    }
}

// Adds a text that was made, or keeps that there was no memory for it.
fn show_made(made: Result<String, AllocError>, shown: &mut Shown) {
    match made {
        Ok(text) => shown.text(text.as_str()),
        Err(error) => shown.keep(Err(error)),
    }
}

/// Shows a value by its own text.
pub(crate) fn show_display<T: Display>(before: &str, value: &T, shown: &mut Shown) {
    show_made(format!(in shown.alloc(); "{before}{value}"), shown);
}

/// Shows bytes as hexadecimal digits.
pub(crate) fn show_digits(before: &str, bytes: &[u8], shown: &mut Shown) {
    shown.text(before);
    show_made(hex::encode(shown.alloc(), bytes), shown);
}

/// Shows a line, and behind it what a value is.
pub(crate) fn show_debug<T: Debug>(line: &str, value: &T, shown: &mut Shown) {
    show_made(format!(in shown.alloc(); "{line} {value:?}"), shown);
    shown.end();
}
