//! Values of JSON, which are added to a writer. A call that fails may have added a part.

ghost use Rattle.std.specs.Prelude.{◌≡◌, ◌∷◌, [], decimal, option_map};
ghost use Rattle.std.specs.Option.{option_copied};
ghost use Rattle.json.specs.Tree.{json_tokens};
ghost use Rattle.backtrace_json.specs.Threads.{text_if};
ghost use Rattle.backtrace_json.specs.Values.{address_value, number_value, or_null, text_value};
ghost use Rattle.backtrace_json.specs.Writers.{Adds};

use json::Writer;
use std::alloc::{AllocError, Global};

/// Adds bytes as a text, with U+FFFD for each sequence that isn't UTF-8.
pub(crate) fn add_text(alloc: Global, writer: &mut Writer, bytes: &[u8]) -> Result<(), AllocError>
    ensures { Adds result writer.old writer.new (json_tokens (text_value bytes.now)) }
{
    let text = String::from_utf8_lossy(alloc, bytes)?;
    writer.string(text.as_str())
}

/// Adds bytes as a text, or null if there are none.
pub(crate) fn add_text_if(
    alloc: Global,
    writer: &mut Writer,
    bytes: Option<&[u8]>,
) -> Result<(), AllocError>
    ensures { Adds result writer.old writer.new (json_tokens (text_if (option_copied bytes.entry))) }
{
    match bytes {
        Some(bytes) => add_text(alloc, writer, bytes),
        None => writer.null(),
    }
}

/// Adds an address.
pub(crate) fn add_address(
    alloc: Global,
    writer: &mut Writer,
    address: u64,
) -> Result<(), AllocError>
    ensures { Adds result writer.old writer.new (json_tokens (address_value address)) }
{
    let digits = format!(in alloc; "0x{address:x}")?;
    writer.string(digits.as_str())
}

/// Adds an address, or null if there is none.
pub(crate) fn add_address_if(
    alloc: Global,
    writer: &mut Writer,
    address: Option<u64>,
) -> Result<(), AllocError>
    ensures { Adds result writer.old writer.new
        (json_tokens (or_null (option_map address_value address))) }
{
    match address {
        Some(address) => add_address(alloc, writer, address),
        None => writer.null(),
    }
}

/// Adds a number.
pub(crate) fn add_number(writer: &mut Writer, number: u64) -> Result<(), AllocError>
    ensures { Adds result writer.old writer.new (json_tokens (number_value number)) }
{
    writer.u64(number)
}
