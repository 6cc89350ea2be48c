//! The names in a folded stack.

ghost use Rattle.std.specs.Prelude.{◌≡◌, ◌++◌, map, codes};
ghost use Rattle.line_parts.specs.Parts.{Pushes, hex_of};
ghost use Rattle.folded_stacks.specs.Names.{is_alphanumeric, kernel_name, process_name, shown_byte, squeezed};

use line_parts::{push_bytes, push_hex};
use std::alloc::{AllocError, Global};

// A byte of a frame's name as it is shown: a space, a control character and a semicolon are underscores.
fn shown_byte(byte: u8) -> u8
    ensures { result ≡ shown_byte byte }
{
    if byte <= b' ' || byte == b';' || byte == 0x7f {
        b'_'
    } else {
        byte
    }
}

/// Appends the name of a frame, with underscores for spaces, control characters and semicolons, which have a meaning in a folded
/// stack.
pub fn push_frame_name(text: &mut Vec<u8>, name: &[u8]) -> Result<(), AllocError>
    ensures { Pushes result text.old text.new (map shown_byte name.now) }
{
    for byte in name {
        text.push(shown_byte(*byte))?;
    }
    Ok(())
}

/// Appends the name of a frame of the kernel.
pub fn push_kernel_name(text: &mut Vec<u8>, name: &[u8]) -> Result<(), AllocError>
    ensures { Pushes result text.old text.new (kernel_name name.now) }
{
    push_frame_name(text, name)?;
    push_bytes(text, b"_[k]")
}

/// Appends the address of a frame, in hexadecimal digits.
pub fn push_address(alloc: Global, text: &mut Vec<u8>, address: u64) -> Result<(), AllocError>
    ensures { Pushes result text.old text.new (codes "0x" ++ hex_of 0 address) }
{
    push_bytes(text, b"0x")?;
    push_hex(alloc, text, 0, address)
}

// Whether a byte is a letter or a digit of ASCII.
fn is_alphanumeric(byte: u8) -> bool
    ensures { result ≡ is_alphanumeric byte }
{
    byte.is_ascii_alphanumeric()
}

/// Appends the name of a process, with one underscore for all bytes in a row that are no letters and digits of ASCII.
pub fn push_process_name(text: &mut Vec<u8>, name: &[u8]) -> Result<(), AllocError>
    ensures { Pushes result text.old text.new (process_name name.now) }
{
    let mut replaced = false;
    for byte in name {
        if is_alphanumeric(*byte) {
            text.push(*byte)?;
            replaced = false;
        } else if !replaced {
            text.push(b'_')?;
            replaced = true;
        }
    }
    Ok(())
}
