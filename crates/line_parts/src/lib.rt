//! Parts of lines, which are appended to a text. The calls fail if memory runs out, and may have appended a
//! part then.
#![tactic(auto)]

ghost use Rattle.std.specs.Prelude.{◌≡◌, IfOk, decimal, replicate, string_bytes};
ghost use Rattle.std.specs.Fmt.{signed_decimal};
ghost use Rattle.line_parts.specs.Parts.{Pushes, cell_of, hex_of, with_sign};

use std::alloc::{AllocError, Global};

// Appends a byte `count` times.
fn push_times(text: &mut Vec<u8>, byte: u8, count: usize) -> Result<(), AllocError>
    ensures { Pushes result text.old text.new (replicate count byte) }
{
    for i in 0..count {
        text.push(byte)?;
    }
    Ok(())
}

/// Appends bytes as they are.
pub fn push_bytes(text: &mut Vec<u8>, bytes: &[u8]) -> Result<(), AllocError>
    ensures { Pushes result text.old text.new bytes.now }
{
    text.extend_from_slice(bytes)
}

/// Appends a cell of a table: a text, the spaces that bring it to its width in bytes, and one more.
pub fn push_cell(text: &mut Vec<u8>, width: usize, cell: &[u8]) -> Result<(), AllocError>
    ensures { Pushes result text.old text.new (cell_of width cell.now) }
{
    push_bytes(text, cell)?;
    push_times(text, b' ', width.saturating_sub(cell.len()))?;
    push_times(text, b' ', 1)
}

/// Appends a number in hexadecimal digits, with `width` digits at least.
pub fn push_hex(
    alloc: Global,
    text: &mut Vec<u8>,
    width: usize,
    number: u64,
) -> Result<(), AllocError>
    ensures { Pushes result text.old text.new (hex_of width number) }
{
    let digits = format!(in alloc; "{number:x}")?;
    push_times(text, b'0', width.saturating_sub(digits.len()))?;
    push_bytes(text, digits.as_bytes())
}

/// Appends a number in decimal digits.
pub fn push_decimal(alloc: Global, text: &mut Vec<u8>, number: u64) -> Result<(), AllocError>
    ensures { Pushes result text.old text.new (decimal number) }
{
    let digits = format!(in alloc; "{number}")?;
    push_bytes(text, digits.as_bytes())
}

/// Appends a number in decimal digits, with a minus if it is negative.
pub fn push_signed(alloc: Global, text: &mut Vec<u8>, number: i64) -> Result<(), AllocError>
    ensures { Pushes result text.old text.new (signed_decimal number) }
{
    let digits = format!(in alloc; "{number}")?;
    push_bytes(text, digits.as_bytes())
}

/// A number in decimal digits with its sign, which may be a plus.
pub fn signed_text(alloc: Global, number: i64) -> Result<String, AllocError>
    ensures { IfOk result (λ text. string_bytes text ≡ with_sign number) }
{
    if number < 0 {
        format!(in alloc; "{number}")
    } else {
        format!(in alloc; "+{number}")
    }
}
