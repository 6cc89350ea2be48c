//! Prints the stacks of the threads of a core file, in lines like gdb's or as JSON, or what an unwinder meets in the call frames of ELF files.
//!
//! The exit status is 0 if the stacks were printed, 2 if the arguments or the core has a fault, or the core hasn't the thread that is
//! asked for, and 1 if the core can't be read, standard output failed or memory ran out. Of files it is 0 if nothing was found, 2 if
//! one of them can't be read, and else 1.
#![tactic(auto)]

mod arguments;
mod core_parts;
mod files;
mod lint;
mod progress;
mod unread;

use anyhow::{Context, Result, bail};
use arguments::{CoreRequest, Request, USAGE, request_of};
use backtrace_files::{has_other_build_id, is_debug_file_of};
use backtrace_text::push_name;
use backtrace_walks::write_stacks;
use core_files::{CoreError, CoreFile, Thread};
use core_parts::read_parts;
use files::{NamedFile, given_files, read_files};
use json_program::Streamed;
use lint::lint_files;
use std::io::{BufWriter, Write};
use std::process::ExitCode;
use std::{env, fs, io};
use unread::{ReadSection, unread_sections, unread_symbols};

// The exit status if the arguments, the core or a file has a fault.
const FAULTY: u8 = 2;

// Says something of a file on standard error, by its name in ASCII.
fn say_of(rt: &HostRuntime, name: &[u8], what: &str) -> Result<()> {
    let mut line = Vec::new(rt.alloc());
    push_name(rt.alloc(), &mut line, name)?;
    let name = String::from_utf8(line)?;
    eprintln!(rt; "backtrace: {name}: {what}")?;
    Ok(())
}

// Says of a file that it is missing or another than the core's, and if what the core's memory has of it is taken.
fn say_missing(rt: &HostRuntime, file: &NamedFile<'_>, why: &str) -> Result<()> {
    if file.image.is_some() {
        let what = format!(in rt.alloc(); "{why}; its pages in the core are used")?;
        say_of(rt, file.name, what.as_str())
    } else {
        say_of(rt, file.name, why)
    }
}

// Says of a file that it is missing or another than the core's, if it is.
fn say_if_missing(rt: &HostRuntime, core: &CoreFile<'_>, file: &NamedFile<'_>) -> Result<()> {
    match &file.bytes {
        Ok(bytes) if !has_other_build_id(core, file.name, bytes.as_slice()) => Ok(()),
        Ok(_) => say_missing(rt, file, "has another build id than the core"),
        Err(error) => {
            let why = format!(in rt.alloc(); "{error}")?;
            say_missing(rt, file, why.as_str())
        }
    }
}

// Says of a file, or of its debug file, which sections aren't read, if there are such.
fn say_unread(rt: &HostRuntime, name: &[u8], whose: &str, sections: &[ReadSection]) -> Result<()> {
    if sections.is_empty() {
        return Ok(());
    }
    let mut what = format!(in rt.alloc(); "{whose}compressed, so not read")?;
    let mut before = ": ";
    for section in sections {
        what.push_str(before)?;
        what.push_str(section.text())?;
        before = ", ";
    }
    say_of(rt, name, what.as_str())
}

// Says of a file that is used what isn't read of it and of its debug file, and if this is of another build.
fn say_unused(rt: &HostRuntime, file: &NamedFile<'_>, bytes: &[u8]) -> Result<()> {
    match file.debug_bytes() {
        Some(debug) if is_debug_file_of(bytes, debug) => {
            let own = unread_sections(rt.alloc(), bytes, true)?;
            say_unread(rt, file.name, "", &own)?;
            let symbols = unread_symbols(rt.alloc(), debug)?;
            say_unread(rt, file.name, "its file with symbols: ", &symbols)
        }
        other => {
            if other.is_some() {
                say_of(rt, file.name, "its file with symbols is of another build")?;
            }
            let own = unread_sections(rt.alloc(), bytes, false)?;
            say_unread(rt, file.name, "", &own)
        }
    }
}

// Says of a file what of it isn't used, if anything isn't: all of it, or what isn't read.
fn say_of_file(rt: &HostRuntime, core: &CoreFile<'_>, file: &NamedFile<'_>) -> Result<()> {
    say_if_missing(rt, core, file)?;
    match file.used_bytes(core) {
        Some(bytes) => say_unused(rt, file, bytes),
        None => Ok(()),
    }
}

// Whether one of the threads has this id.
fn has_thread(threads: &[Thread], id: u64) -> bool {
    threads.iter().any(|thread| u64::from(thread.id) == id)
}

// Prints the stacks of a core that was read.
fn print_stacks(
    rt: &HostRuntime,
    core: &CoreFile<'_>,
    request: &CoreRequest<'_>,
) -> Result<ExitCode> {
    if let Some(id) = request.options.thread {
        if !has_thread(core.threads(), id) {
            eprintln!(rt; "backtrace: the core has no thread {id}")?;
            return Ok(ExitCode::from(FAULTY));
        }
    }
    if core.is_cut_off() {
        let path = request.core;
        eprintln!(rt; "backtrace: {path}: cut off: a part of the memory is lost")?;
    }
    let files = read_files(rt, request, core)?;
    for file in &files {
        say_of_file(rt, core, file)?;
    }
    let given = given_files(rt.alloc(), files.as_slice(), core.mapped_files())?;
    let mut sink = Streamed::new(BufWriter::new(rt.alloc(), io::writer(rt))?);
    write_stacks(
        rt.alloc(),
        core,
        given.as_slice(),
        &request.options,
        &mut sink,
    )?;
    sink.into_inner().flush()?;
    Ok(ExitCode::SUCCESS)
}

// Reads a core whole, and prints its stacks, or says what fault it has.
fn run_whole(rt: &HostRuntime, request: &CoreRequest<'_>) -> Result<ExitCode> {
    let path = request.core;
    let bytes = fs::read(rt, path).context(format_args!("{path}"))?;
    match CoreFile::parse(rt.alloc(), bytes.as_slice()) {
        Ok(core) => print_stacks(rt, &core, request),
        Err(CoreError::OutOfMemory) => bail!("out of memory"),
        Err(refusal) => {
            eprintln!(rt; "backtrace: {path}: {refusal}")?;
            Ok(ExitCode::from(FAULTY))
        }
    }
}

// Reads a core, and prints its stacks. What can't be read in parts, or has a fault, is read whole.
fn run(rt: &HostRuntime, request: &CoreRequest<'_>) -> Result<ExitCode> {
    let path = request.core;
    if let Some(parts) = read_parts(rt, path).context(format_args!("{path}"))? {
        match CoreFile::parse_in_parts(
            rt.alloc(),
            parts.head.as_slice(),
            parts.segments.as_slice(),
        ) {
            Ok(core) => return print_stacks(rt, &core, request),
            Err(CoreError::OutOfMemory) => bail!("out of memory"),
            Err(_) => {}
        }
    }
    run_whole(rt, request)
}

fn main(rt: HostRuntime) -> Result<ExitCode> {
    let words: Vec<String> = env::args(&rt)?.skip(1).collect(rt.alloc())?;
    match request_of(words.as_slice()) {
        Some(Request::Stacks(request)) => run(&rt, &request),
        Some(Request::Lint(files)) => lint_files(&rt, files),
        Some(Request::Help) => {
            println!(rt; "{USAGE}")?;
            Ok(ExitCode::SUCCESS)
        }
        None => {
            eprintln!(rt; "{USAGE}")?;
            Ok(ExitCode::from(FAULTY))
        }
    }
}
