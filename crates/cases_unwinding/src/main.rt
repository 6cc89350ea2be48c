//! Shows what becomes of worked cases, which are in the files that the arguments name, each after its kind:
//!
//! - `tables`: modules with a table of rules, a line each, whose steps are compared with those by an index, a header and a scan.
//!   `scripts/table-roads` writes them.
//! - `lint`: files, a line each, and what `backtrace --lint` finds in each. `scripts/lint-files` writes them.
//! - `documents`: documents with what a run of each has to write, a line each. A line is printed for each mismatch, and last how many
//!   rows there were and how many mismatches.
//! - `parts`: parts of the unwinder, a line each, with what it is to read.
//! - `walks_x86_64` and other names of benches: what [`benches`] says, of the input of a bench.
//!
//! With the arguments `part`, the name of a part and its own arguments it runs or times that one on standard input, as scripts in
//! `bench/` do.
#![tactic(auto)]

mod architectures;
mod benches;
mod documents;
mod lint;
mod parts;
mod row;
mod tables;

use anyhow::{Result, bail};
use benches::show_bench;
use documents::show_documents;
use lint::show_findings;
use parts::{run_part, show_parts};
use std::{env, fs};
use tables::show_tables;

// Shows the cases of a kind.
fn show(rt: &HostRuntime, kind: &str, path: &str) -> Result<()> {
    let input = fs::read(rt, path)?;
    match kind {
        "tables" => show_tables(rt, str::from_utf8(&input)?),
        "lint" => show_findings(rt, str::from_utf8(&input)?),
        "documents" => show_documents(rt, str::from_utf8(&input)?),
        "parts" => show_parts(rt, str::from_utf8(&input)?),
        _ => show_bench(rt, kind, &input),
    }
}

// Shows the cases of each kind.
fn show_each(rt: &HostRuntime, words: &[String]) -> Result<()> {
    for pair in words.chunks(2) {
        match pair {
            [kind, path] => show(rt, kind, path)?,
            _ => bail!("each kind has a file"),
        }
    }
    Ok(())
}

fn main(rt: HostRuntime) -> Result<()> {
    let words: Vec<String> = env::args(&rt)?.skip(1).collect(rt.alloc())?;
    match words.split_first() {
        Some((first, rest)) if first.as_str() == "part" => run_part(&rt, rest),
        _ => show_each(&rt, &words),
    }
}
