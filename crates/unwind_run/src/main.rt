//! Unwinds the stacks of one document: JSON in a file or on standard input, a line for each step on standard output.
//!
//! The exit status is 0 if all commands were run, 2 if the arguments or the document have a fault, and 1 if the file, standard
//! input or output failed or memory ran out, of which standard error has a line.
#![tactic(auto)]

ghost use Rattle.std.specs.Prelude.{◌≡◌, false};

use anyhow::{Context, Result};
use json_program::Source;
use std::process::ExitCode;
use std::{env, fs, io};
use unwind_run_program::{Streamed, run};

const USAGE: &str = "usage: unwind [FILE]
Runs the JSON document of commands in FILE, or on standard input.";

// The exit status if the arguments have a fault.
const FAULTY: u8 = 2;

fn run_document<R: Source>(rt: &HostRuntime, source: &mut R) -> Result<ExitCode>
    requires { R.has_failed source.old ≡ false }
{
    let mut sink = Streamed::new(io::writer(rt));
    match run(rt.alloc(), source, &mut sink) {
        Ok(outcome) => Ok(ExitCode::from(outcome.status())),
        Err(error) => {
            eprintln!(rt; "unwind: {error}")?;
            Ok(ExitCode::FAILURE)
        }
    }
}

fn run_file(rt: &HostRuntime, path: &str) -> Result<ExitCode> {
    let document = fs::read(rt, path).context(format_args!("{path}"))?;
    run_document(rt, &mut Streamed::new(document.as_slice()))
}

fn main(rt: HostRuntime) -> Result<ExitCode> {
    let words: Vec<String> = env::args(&rt)?.skip(1).collect(rt.alloc())?;
    match words.as_slice() {
        [] => run_document(&rt, &mut Streamed::new(rt.reader())),
        [word] if word.as_str() == "--help" => {
            println!(rt; "{USAGE}")?;
            Ok(ExitCode::SUCCESS)
        }
        [path] if !path.starts_with("-") => run_file(&rt, path.as_str()),
        _ => {
            eprintln!(rt; "{USAGE}")?;
            Ok(ExitCode::from(FAULTY))
        }
    }
}
