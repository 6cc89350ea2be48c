//! Prints the stacks of a recording of perf folded, a line for each with its samples, and draws flame graphs of them.
//!
//! The exit status is 0 if the stacks were printed, 2 if the arguments or the recording has a fault, and 1 if the recording can't be
//! read, standard output failed or memory ran out.
#![tactic(auto)]

mod event_names;
mod found_files;
mod output;
mod progress;
mod recording;
mod samples;
mod source;

use anyhow::{Context, Result};
use fold_options::{FoldRequest, Request, USAGE, request_of};
use found_files::{FoundFiles, folders_of};
use framehop_rules::aarch64::ArchAarch64;
use framehop_rules::x86_64::ArchX86_64;
use perf_files::Architecture;
use recording::{ReadError, Recording};
use samples::print_folded;
use source::Source;
use std::env;
use std::process::ExitCode;

// The exit status if the arguments or the recording has a fault.
const FAULTY: u8 = 2;

// The machine of a recording: by the registers of its samples, if it doesn't say.
fn machine_of(recording: &Recording) -> Architecture {
    if let Some(machine) = recording.machine {
        return machine;
    }
    match recording.events.first() {
        Some(event) if event.attributes.user_registers >= 1 << 24 => Architecture::Aarch64,
        _ => Architecture::X86_64,
    }
}

// Prints the stacks of a recording, or says what fault it has.
fn run(rt: &HostRuntime, request: &FoldRequest<'_>) -> Result<ExitCode> {
    let path = request.recording;
    let mut source = Source::open(rt, path).context(format_args!("{path}"))?;
    let mut recording = match Recording::read(rt.alloc(), &mut source) {
        Ok(recording) => recording,
        Err(ReadError::Refused(refusal)) => {
            eprintln!(rt; "fold: {path}: {refusal}")?;
            return Ok(ExitCode::from(FAULTY));
        }
        Err(ReadError::Failed(error)) => return Err(error.into()),
    };
    let options = &request.options;
    let machine = machine_of(&recording);
    let folders = folders_of(rt, options.root, options.build_ids)?;
    let build_ids = std::mem::replace(&mut recording.build_ids, Vec::new(rt.alloc()));
    let mut files = FoundFiles::new(rt, folders, machine, build_ids);
    match machine {
        Architecture::X86_64 => {
            print_folded::<ArchX86_64>(rt, options, &mut source, &recording, &mut files)?;
        }
        Architecture::Aarch64 => {
            print_folded::<ArchAarch64>(rt, options, &mut source, &recording, &mut files)?;
        }
    }
    Ok(ExitCode::SUCCESS)
}

fn main(rt: HostRuntime) -> Result<ExitCode> {
    let words: Vec<String> = env::args(&rt)?.skip(1).collect(rt.alloc())?;
    match request_of(words.as_slice()) {
        Ok(Request::Fold(request)) => run(&rt, &request),
        Ok(Request::Help) => {
            println!(rt; "{USAGE}")?;
            Ok(ExitCode::SUCCESS)
        }
        Err(error) => {
            eprintln!(rt; "fold: {error}\n{USAGE}")?;
            Ok(ExitCode::from(FAULTY))
        }
    }
}
