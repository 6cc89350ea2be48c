//! What `backtrace --lint` finds.

use anyhow::{Context, Result};
use backtrace_lint::lint_text;

// The findings of the file of a line.
fn show_file(rt: &HostRuntime, line: &str) -> Result<()> {
    let mut words = line.split(' ');
    let name = words.next().context("name")?;
    let bytes = hex::decode(rt.alloc(), words.next().context("bytes")?.as_bytes())?;
    match lint_text(rt.alloc(), name.as_bytes(), bytes.as_slice())? {
        Ok(text) => {
            let text = String::from_utf8(text)?;
            print!(rt; "{text}")?;
        }
        Err(_) => println!(rt; "{name}: refused")?,
    }
    Ok(())
}

/// Prints what is found in the file of each line, which has a name and the bytes of a file in hexadecimal digits.
pub(crate) fn show_findings(rt: &HostRuntime, lines: &str) -> Result<()> {
    for line in lines.lines() {
        show_file(rt, line)?;
    }
    Ok(())
}
