//! Lists the entries of one section of call frames with their rows, in lines as those of
//! `readelf --debug-dump=frames-interp`: a section of an ELF file, or without arguments of a JSON document on standard input.
//!
//! The exit status is 0 if all entries were listed, 2 if the arguments, the file, the document or the section has a fault, and
//! 1 if the file, standard input or output failed or memory ran out.
#![tactic(auto)]

mod arguments;
mod cies;
mod columns;
mod document;
mod entry_prefix;
mod fdes;
mod file;
mod listed;
mod listing;
mod located;
mod names;
mod parts;
mod program;
mod tables;

use anyhow::{Context, Result};
use arguments::{Request, USAGE, request_of};
use file::list_file;
use frame_table_files::SectionName;
use json_program::{Program, Streamed};
use program::{Ending, FrameTables};
use std::process::ExitCode;
use std::{env, fs, io};

// Lists a section of a file.
fn run_file(rt: &HostRuntime, path: &str, section: Option<SectionName>) -> Result<ExitCode> {
    let file = fs::read(rt, path).context(format_args!("{path}"))?;
    let mut sink = Streamed::new(io::writer(rt));
    match list_file(rt.alloc(), file.as_slice(), section, &mut sink)? {
        Ok(ending) => Ok(ExitCode::from(ending.status())),
        Err(refusal) => {
            eprintln!(rt; "frame_table: {path}: {refusal}")?;
            Ok(ExitCode::from(Ending::Faulty.status()))
        }
    }
}

// Lists the section of a document.
fn run_document(rt: &HostRuntime) -> Result<ExitCode> {
    let mut source = Streamed::new(rt.reader());
    let mut sink = Streamed::new(io::writer(rt));
    match FrameTables::run(rt.alloc(), &mut source, &mut sink) {
        Ok(ending) => Ok(ExitCode::from(ending.status())),
        Err(error) => {
            eprintln!(rt; "frame_table: {error}")?;
            Ok(ExitCode::FAILURE)
        }
    }
}

fn main(rt: HostRuntime) -> Result<ExitCode> {
    let words: Vec<String> = env::args(&rt)?.skip(1).collect(rt.alloc())?;
    match request_of(words.as_slice()) {
        Some(Request::Document) => run_document(&rt),
        Some(Request::File(path, section)) => run_file(&rt, path, section),
        Some(Request::Help) => {
            println!(rt; "{USAGE}")?;
            Ok(ExitCode::SUCCESS)
        }
        None => {
            eprintln!(rt; "{USAGE}")?;
            Ok(ExitCode::from(Ending::Faulty.status()))
        }
    }
}
