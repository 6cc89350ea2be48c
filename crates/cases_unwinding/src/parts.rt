//! Parts of the unwinder, each timed by the input that its script in `bench/` gives, or shown by what it finds in stored inputs.
//!
//! The module of a part says what it reads, what it prints, and what further arguments it takes.

mod analysis;
mod compact;
mod expressions;
mod index;
mod read_core;
mod rules;

use anyhow::{Context, Result, bail};
use std::io::Read;

/// Runs the part that the first word names, with the others as its arguments, on standard input.
pub(crate) fn run_part(rt: &HostRuntime, words: &[String]) -> Result<()> {
    let (part, words) = words.split_first().context("the name of a part")?;
    let mut input = Vec::new(rt.alloc());
    rt.reader().read_to_end(&mut input)?;
    run(rt, part.as_str(), words, &input)
}

// Runs a part with further arguments.
fn run(rt: &HostRuntime, part: &str, words: &[String], input: &[u8]) -> Result<()> {
    match part {
        "analysis" => analysis::run(rt, words, input),
        "compact" => compact::run(rt, words, input),
        "expressions" => expressions::run(rt, words, input),
        "index" => index::run(rt, input),
        "read-core" => read_core::run(rt, input),
        "rules" => rules::run(rt, words),
        _ => bail!("no part has this name"),
    }
}

/// Runs the part of each line, which has its name and what it is to read, in hexadecimal digits. A line may also be `index-of`, a number of
/// FDEs and a number of look-ups.
pub(crate) fn show_parts(rt: &HostRuntime, lines: &str) -> Result<()> {
    for line in lines.lines() {
        let (part, rest) = line.split_once(' ').unwrap_or((line, ""));
        if part == "index-of" {
            index::run_of(rt, rest)?;
        } else {
            run(rt, part, &[], &hex::decode(rt.alloc(), rest.as_bytes())?)?;
        }
    }
    Ok(())
}
