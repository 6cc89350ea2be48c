//! Instructions of aarch64.

use crate::text::show_debug;
use anyhow::Result;
use framehop_ways::decode;
use shown_text::Shown;

/// Shows the instruction of each word, a word in hexadecimal digits a line.
pub(crate) fn show_instructions(lines: &str, shown: &mut Shown) -> Result<()> {
    for line in lines.lines() {
        let word = u32::from_str_radix(line, 16)?;
        show_debug(line, &decode(word), shown);
    }
    Ok(())
}
