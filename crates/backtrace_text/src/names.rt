//! Names of functions and files, which may be any bytes.

ghost use Rattle.std.specs.Prelude.{◌≡◌};
ghost use Rattle.line_parts.specs.Parts.{Pushes};
ghost use Rattle.backtrace_text.specs.Names.{function_name, is_shown_as_it_is, shown_byte, shown_name};

use line_parts::{push_bytes, push_hex};
use std::alloc::{AllocError, Global};
use symbol_names::demangled;

/// How names of functions are shown.
#[derive(Clone, Copy, Debug, PartialEq, Eq)]
pub enum FunctionNames {
    /// As they are written in programs, where they are mangled names that are understood.
    Demangled,
    /// As symbols have them.
    Raw,
}

// Whether a byte is shown as it is: printable ASCII, without the backslash.
fn is_shown_as_it_is(byte: u8) -> bool
    ensures { result ≡ is_shown_as_it_is byte }
{
    (b' '..=b'~').contains(&byte) && byte != b'\\'
}

// Appends a byte of a name.
fn push_name_byte(alloc: Global, text: &mut Vec<u8>, byte: u8) -> Result<(), AllocError>
    ensures { Pushes result text.old text.new (shown_byte byte) }
{
    if is_shown_as_it_is(byte) {
        return push_bytes(text, &[byte]);
    }
    push_bytes(text, b"\\x")?;
    push_hex(alloc, text, 2, u64::from(byte))
}

/// Appends a name. Bytes that aren't printable ASCII, and backslashes, are written as `\x` and two
/// hexadecimal digits, so that a name from a file neither ends a line nor is taken by a terminal for a
/// command.
pub fn push_name(alloc: Global, text: &mut Vec<u8>, name: &[u8]) -> Result<(), AllocError>
    ensures { Pushes result text.old text.new (shown_name name.now) }
{
    for byte in name {
        push_name_byte(alloc, text, *byte)?;
    }
    Ok(())
}

/// Appends the name of a function that a symbol has.
pub(crate) fn push_function_name(
    alloc: Global,
    text: &mut Vec<u8>,
    names: FunctionNames,
    name: &[u8],
) -> Result<(), AllocError>
    ensures { Pushes result text.old text.new (shown_name (function_name names name.now)) }
{
    match names {
        FunctionNames::Raw => push_name(alloc, text, name),
        FunctionNames::Demangled => match demangled(alloc, name)? {
            Some(written) => push_name(alloc, text, written.as_slice()),
            None => push_name(alloc, text, name),
        },
    }
}
