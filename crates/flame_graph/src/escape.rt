//! Names in the picture.

ghost use Rattle.std.specs.Prelude.{◌≡◌};
ghost use Rattle.line_parts.specs.Parts.{Pushes};
ghost use Rattle.flame_graph.specs.Escapes.{color_of, escaped, escaped_byte};

use line_parts::{push_bytes, push_hex};
use std::alloc::{AllocError, Global};

// Appends a byte of a name.
fn push_escaped_byte(alloc: Global, text: &mut Vec<u8>, byte: u8) -> Result<(), AllocError>
    ensures { Pushes result text.old text.new (escaped_byte byte) }
{
    if byte == b'&' {
        return push_bytes(text, b"&amp;");
    }
    if byte == b'<' {
        return push_bytes(text, b"&lt;");
    }
    if byte == b'>' {
        return push_bytes(text, b"&gt;");
    }
    if byte == b'"' {
        return push_bytes(text, b"&quot;");
    }
    if byte == b'\'' {
        return push_bytes(text, b"&#39;");
    }
    if b' ' <= byte && byte <= b'~' {
        return push_bytes(text, &[byte]);
    }
    push_bytes(text, b"\\x")?;
    push_hex(alloc, text, 2, u64::from(byte))
}

/// Appends a name as text of XML. Bytes that aren't printable ASCII are written as `\x` and two hexadecimal digits, since a
/// name from a file may be any bytes, and XML admits few.
pub(crate) fn push_escaped(alloc: Global, text: &mut Vec<u8>, name: &[u8]) -> Result<(), AllocError>
    ensures { Pushes result text.old text.new (escaped name.now) }
{
    for byte in name {
        push_escaped_byte(alloc, text, *byte)?;
    }
    Ok(())
}

/// The color of a name: one of the style's, which is the same for each box with the name.
pub(crate) fn color(name: &[u8]) -> u64
    ensures { result ≡ color_of name.now }
{
    let mut hash: u64 = 0;
    for byte in name {
        hash = (hash * 31 + u64::from(*byte)) % 65521;
    }
    hash % 24
}
