//! What an unwinder meets in the call frames of ELF files.

ghost use Rattle.std.specs.Prelude.{◌≡◌};
ghost use Rattle.backtrace.specs.Statuses.{status_with};

use crate::FAULTY;
use anyhow::Result;
use backtrace_lint::write_lint;
use json_program::Streamed;
use std::process::ExitCode;
use std::{fs, io};

// The exit status if there are findings.
const FOUND: u8 = 1;

// The exit status of several files: that of those before this one, and whether this one has findings, if it can be read.
fn status_with(before: u8, found: Option<bool>) -> u8
    ensures { result ≡ status_with before found }
{
    let Some(has_findings) = found else {
        return FAULTY;
    };
    if has_findings && before < FOUND {
        return FOUND;
    }
    before
}

// Prints the findings of a file, and returns whether there are some, or none if it can't be read.
fn lint_file(rt: &HostRuntime, path: &str) -> Result<Option<bool>> {
    let bytes = match fs::read(rt, path) {
        Ok(bytes) => bytes,
        Err(error) => {
            eprintln!(rt; "backtrace: {path}: {error}")?;
            return Ok(None);
        }
    };
    let mut sink = Streamed::new(io::writer(rt));
    match write_lint(rt.alloc(), path.as_bytes(), bytes.as_slice(), &mut sink)? {
        Ok(found) => Ok(Some(found)),
        Err(refusal) => {
            eprintln!(rt; "backtrace: {path}: {refusal}")?;
            Ok(None)
        }
    }
}

/// Prints the findings of files, and returns the exit status.
pub(crate) fn lint_files(rt: &HostRuntime, paths: &[String]) -> Result<ExitCode> {
    let mut status = 0;
    for path in paths {
        let found = lint_file(rt, path.as_str())?;
        status = status_with(status, found);
    }
    Ok(ExitCode::from(status))
}
