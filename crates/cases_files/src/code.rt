//! Rules that are found in machine code, and lengths of its instructions.

use crate::callers::rules_by_ways;
use crate::detecting::Detecting;
use crate::lengths::lengths_of_beginnings;
use anyhow::{Context, Result, bail};
use framehop_analysis::aarch64::ArchAarch64;
use framehop_analysis::x86_64::ArchX86_64;
use shown_text::Shown;
use std::alloc::Global;

/// Code, and where in it rules are looked for.
#[derive(Drop)]
struct Case {
    is_aarch64: bool,
    code: Vec<u8>,
    offsets: Vec<usize>,
}

impl Case {
    /// Reads a line: `x86_64` or `aarch64`, the code as [`push_part`] reads each of its parts, which have a `+` between any two, and
    /// offsets, with a space between any two.
    fn parse(alloc: Global, line: &str) -> Result<Self> {
        let mut words = line.split_whitespace();
        let is_aarch64 = words.next() == Some("aarch64");
        let mut code = Vec::new(alloc);
        for part in words.next().context("code")?.split('+') {
            push_part(alloc, &mut code, part)?;
        }
        let mut offsets = Vec::new(alloc);
        for word in words {
            offsets.push(word.parse::<usize>()?)?;
        }
        Ok(Case {
            is_aarch64,
            code,
            offsets,
        })
    }

    /// What is shown of it: a line for each offset.
    fn show(&self, alloc: Global) -> Result<String> {
        let mut shown = String::new(alloc);
        for offset in &self.offsets {
            if self.is_aarch64 {
                show_rules::<ArchAarch64>(alloc, &mut shown, &self.code, *offset)?;
            } else {
                show_rules::<ArchX86_64>(alloc, &mut shown, &self.code, *offset)?;
            }
        }
        Ok(shown)
    }
}

// Adds code in hexadecimal, perhaps with a `*` and how often it stands there behind it.
fn push_part(alloc: Global, code: &mut Vec<u8>, part: &str) -> Result<()> {
    let (digits, count) = part.split_once('*').unwrap_or((part, "1"));
    let bytes = hex::decode(alloc, digits.as_bytes())?;
    for _ in 0..count.parse::<u32>()? {
        code.extend_from_slice(&bytes)?;
    }
    Ok(())
}

// The rules of a prologue, of an epilogue, and of either; and those of the detectors, if they are others.
fn show_rules<A: Detecting>(
    alloc: Global,
    shown: &mut String,
    code: &[u8],
    offset: usize,
) -> Result<()> {
    if offset > code.len() {
        bail!("an offset outside of the code");
    }
    let prologue = A::rule_from_prologue_analysis(code, offset);
    let epilogue = A::rule_from_epilogue_analysis(code, offset);
    let either = A::rule_from_instruction_analysis(code, offset);
    let rules = format!(in alloc; "{prologue:?}, {epilogue:?}")?;
    write!(shown, "{offset}: {rules}, {either:?}\n")?;
    let prologue = A::detected_prologue(code, offset);
    let epilogue = A::detected_epilogue(code, offset);
    let detected = format!(in alloc; "{prologue:?}, {epilogue:?}")?;
    if detected.as_str() != rules.as_str() {
        write!(shown, "detected {detected}\n")?;
    }
    Ok(())
}

// What is shown of a line: behind `lengths` the lengths of the beginnings of code, behind `way` the rules of ways, or else the rules in a
// case's.
fn shown_of(alloc: Global, line: &str) -> Result<String> {
    match line.split_once(' ') {
        Some(("lengths", digits)) => lengths_of_beginnings(alloc, digits),
        Some(("way", function)) => rules_by_ways(alloc, function),
        _ => Case::parse(alloc, line)?.show(alloc),
    }
}

/// Shows what is for each line.
pub(crate) fn show_code(lines: &str, shown: &mut Shown) -> Result<()> {
    for line in lines.lines() {
        let text = shown_of(shown.alloc(), line)?;
        shown.text(text.as_str());
        shown.end();
    }
    Ok(())
}
