//! Mangled names.

use anyhow::Result;
use shown_text::Shown;
use symbol_names::demangled;

/// Shows each line as the text of the mangled name that it is, or as it is if it isn't one that is understood, as `c++filt` does.
pub(crate) fn show_names(lines: &str, shown: &mut Shown) -> Result<()> {
    for line in lines.lines() {
        match demangled(shown.alloc(), line.as_bytes())? {
            Some(text) => shown.bytes(&text),
            None => shown.text(line),
        }
        shown.end();
    }
    Ok(())
}
