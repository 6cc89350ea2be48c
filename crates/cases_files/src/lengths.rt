//! Instructions of x86_64.

use crate::text::show_debug;
use anyhow::Result;
use framehop_x86_instructions::Instruction;
use shown_text::Shown;
use std::alloc::Global;

/// The length of the instruction that each beginning of code begins with, or why there is none, with a space between any two.
pub(crate) fn lengths_of_beginnings(alloc: Global, digits: &str) -> Result<String> {
    let code = hex::decode(alloc, digits.as_bytes())?;
    let mut shown = String::new(alloc);
    for before in 0..code.len() {
        if before > 0 {
            shown.push(' ')?;
        }
        match Instruction::decode(&code[..before + 1]) {
            Ok(instruction) => write!(shown, "{}", instruction.length)?,
            Err(error) => write!(shown, "{error:?}")?,
        }
    }
    Ok(shown)
}

/// Shows the instruction that code begins with, for the code of each line.
pub(crate) fn show_effects(lines: &str, shown: &mut Shown) -> Result<()> {
    for line in lines.lines() {
        let code = hex::decode(shown.alloc(), line.as_bytes())?;
        match Instruction::decode(&code) {
            Ok(instruction) => show_debug(line, &instruction, shown),
            Err(error) => show_debug(line, &error, shown),
        }
    }
    Ok(())
}
