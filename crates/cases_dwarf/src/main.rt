//! Shows what is read of DWARF, for each line of the input and of the files that the arguments name.
//!
//! The first word of a line of the input says what is shown of a section of call frames, or of what is made of one. `headers`, the
//! entries to which a header leads, is at [`show_headers`]; `steps`, the rows of a context, at [`show_steps`]; and all else, of bytes that
//! readers of each kind read, at [`Case::parse`]. Before that, `fronts` has it shown of each front of the bytes, and `turned` of the bytes
//! with each one set to others. `scripts/frame-cases` has the scripts that write these lines and what is to be shown. The files are at
//! [`show_mismatches`]; `scripts/expression-values` and `scripts/real-sections` write two of them.
#![tactic(auto)]

mod answers;
mod case;
mod entries;
mod expressions;
mod headers;
mod instructions;
mod lines;
mod lookups;
mod pointers;
mod rows;
mod steps;
mod storages;
mod tables;
mod texts;
mod values;
mod words;

use answers::show_mismatches;
use anyhow::Result;
use case::Case;
use headers::show_headers;
use shown_text::Shown;
use std::alloc::Global;
use std::io::{Read, Write};
use std::{env, fs, io};
use steps::show_steps;
use texts::show_texts;

// Shows what is for each line of the input.
fn show_lines(rt: &HostRuntime) -> Result<()> {
    let mut input = Vec::new(rt.alloc());
    rt.reader().read_to_end(&mut input)?;
    for line in str::from_utf8(&input)?.lines() {
        let text = show(rt.alloc(), line)?;
        io::writer(rt).write_all(&text)?;
    }
    Ok(())
}

// Shows what readers answer otherwise than a file states.
fn show_file(rt: &HostRuntime, file: &str) -> Result<()> {
    let rows = fs::read_to_string(rt, file)?;
    let mut shown = Shown::new(rt.alloc());
    show_mismatches(file, rows.as_str(), &mut shown)?;
    io::writer(rt).write_all(&shown.finish()?)?;
    Ok(())
}

fn main(rt: HostRuntime) -> Result<()> {
    show_lines(&rt)?;
    let files: Vec<String> = env::args(&rt)?.skip(1).collect(rt.alloc())?;
    for file in &files {
        show_file(&rt, file.as_str())?;
    }
    Ok(())
}

// What is shown for a line.
fn show(alloc: Global, line: &str) -> Result<Vec<u8>> {
    let mut shown = Shown::new(alloc);
    show_line(line, &mut shown)?;
    shown.end();
    Ok(shown.finish()?)
}

// Shows what the first word of a line says.
fn show_line(line: &str, shown: &mut Shown) -> Result<()> {
    let (first, rest) = line.split_once(' ').unwrap_or((line, ""));
    match first {
        "fronts" => Case::parse(shown.alloc(), rest)?.show_fronts(shown),
        "turned" => Case::parse(shown.alloc(), rest)?.show_turned(shown),
        "headers" => show_headers(rest, shown),
        "steps" => show_steps(rest, shown),
        "texts" => show_texts(shown),
        _ => Case::parse(shown.alloc(), line)?.show(shown),
    }
}
