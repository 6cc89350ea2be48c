//! Parts of lines that lines of backtraces alone have.

ghost use Rattle.std.specs.Prelude.{decimal};
ghost use Rattle.json_program.specs.Lines.{hexadecimal};
ghost use Rattle.line_parts.specs.Parts.{Pushes, cell_of};

use line_parts::{push_bytes, push_cell};
use std::alloc::{AllocError, Global};

/// Appends `0x` and a number in hexadecimal digits.
pub(crate) fn push_hexadecimal(
    alloc: Global,
    text: &mut Vec<u8>,
    number: u64,
) -> Result<(), AllocError>
    ensures { Pushes result text.old text.new (hexadecimal number) }
{
    let digits = format!(in alloc; "0x{number:x}")?;
    push_bytes(text, digits.as_bytes())
}

/// Appends a number in decimal digits, the spaces that bring it to a width, and one more.
pub(crate) fn push_decimal_cell(
    alloc: Global,
    text: &mut Vec<u8>,
    width: usize,
    number: u64,
) -> Result<(), AllocError>
    ensures { Pushes result text.old text.new (cell_of width (decimal number)) }
{
    let digits = format!(in alloc; "{number}")?;
    push_cell(text, width, digits.as_bytes())
}
