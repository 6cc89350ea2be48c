//! Paths of files by their build ids.

ghost use Rattle.std.specs.Prelude.{◌≡◌, ◌++◌, IfOk, OnOk, replicate, string_bytes};
ghost use Rattle.line_parts.specs.Parts.{hex_of};
ghost use Rattle.regular_files.specs.Paths.{digits_of, name_of, path_by_id};

use std::alloc::{AllocError, Global};

// Appends so many zeros.
fn push_zeros(path: &mut String, count: usize) -> Result<(), AllocError>
    ensures { OnOk result (string_bytes path.new ≡ string_bytes path.old ++ replicate count 48) }
{
    for i in 0..count {
        path.push_str("0")?;
    }
    Ok(())
}

// Appends a byte in two hexadecimal digits.
fn push_byte(alloc: Global, path: &mut String, byte: u8) -> Result<(), AllocError>
    ensures { OnOk result (string_bytes path.new ≡ string_bytes path.old ++ hex_of 2 byte) }
{
    let digits = format!(in alloc; "{byte:x}")?;
    push_zeros(path, 2usize.saturating_sub(digits.len()))?;
    path.push_str(digits.as_str())
}

// Appends bytes, each in two hexadecimal digits.
fn push_digits(alloc: Global, path: &mut String, bytes: &[u8]) -> Result<(), AllocError>
    ensures { OnOk result (string_bytes path.new ≡ string_bytes path.old ++ digits_of bytes.now) }
{
    for byte in bytes {
        push_byte(alloc, path, *byte)?;
    }
    Ok(())
}

// Appends the name of the file of a build id.
fn push_name(alloc: Global, path: &mut String, build_id: &[u8]) -> Result<(), AllocError>
    ensures { OnOk result (string_bytes path.new ≡ string_bytes path.old ++ name_of build_id.now) }
{
    if let Some((first, others)) = build_id.split_first() {
        push_digits(alloc, path, &[*first])?;
        path.push_str("/")?;
        push_digits(alloc, path, others)?;
    }
    Ok(())
}

/// The path of the file of a build id below a folder of such files: the first byte is the name of a folder, and the others are that of the
/// file, with its ending.
pub fn build_id_path(
    alloc: Global,
    folder: &str,
    build_id: &[u8],
    ending: &str,
) -> Result<String, AllocError>
    ensures { IfOk result (λ path. string_bytes path ≡ path_by_id folder.now build_id.now ending.now) }
{
    let mut path = String::from_str(alloc, folder)?;
    path.push_str("/")?;
    push_name(alloc, &mut path, build_id)?;
    path.push_str(ending)?;
    Ok(path)
}
