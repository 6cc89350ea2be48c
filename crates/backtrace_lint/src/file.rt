//! The findings of a file.

ghost use Rattle.std.specs.Prelude.{◌≡◌, false, IfOk};
ghost use Rattle.json_program.specs.Errors.{ReportsFailures};
ghost use Rattle.json_program.specs.Stream.{WritesText};
ghost use Rattle.backtrace_lint.specs.Headers.{header_for};
ghost use Rattle.backtrace_lint.specs.LintText.{has_findings, lint_text_of, no_call_frames_text, text_with_header, written_text};
ghost use Rattle.backtrace_lint.specs.LintViews.{IsLint};
ghost use Rattle.frame_table_files.specs.SectionViews.{section_seen};

use crate::headers::header_for;
use crate::sections::file_section_text;
use frame_table_files::{FileError, FileSection, section_of_file};
use json_program::{RunError, Sink, write_all};
use line_parts::push_bytes;
use std::alloc::{AllocError, Global};

// The line of a file without call frames.
fn no_call_frames_text(alloc: Global, name: &[u8]) -> Result<Vec<u8>, AllocError>
    ensures { IfOk result (λ text. text.items ≡ no_call_frames_text name.now) }
{
    let mut text = Vec::new(alloc);
    push_bytes(&mut text, name)?;
    push_bytes(&mut text, b": no call frames\n")?;
    Ok(text)
}

// The lines of a file by its section of call frames, or why its header can't be read.
fn text_with_header(
    alloc: Global,
    name: &[u8],
    file: &[u8],
    section: &FileSection<'_>,
) -> Result<Result<Vec<u8>, FileError>, AllocError>
    ensures { IfOk result (IsLint (text_with_header name.now (section_seen section.now)
        (header_for section.now.name file.now))) }
{
    match header_for(section.name, file) {
        Ok(header) => Ok(Ok(file_section_text(alloc, name, section, &header)?)),
        Err(error) => Ok(Err(FileError::Elf(error))),
    }
}

/// The lines of what an unwinder meets in the call frames of the file with these bytes, or why the file can't be read.
pub fn lint_text(
    alloc: Global,
    name: &[u8],
    file: &[u8],
) -> Result<Result<Vec<u8>, FileError>, AllocError>
    ensures { IfOk result (IsLint (lint_text_of name.now file.now)) }
{
    match section_of_file(file, None) {
        Ok(section) => text_with_header(alloc, name, file, &section),
        Err(FileError::NoCallFrames) => Ok(Ok(no_call_frames_text(alloc, name)?)),
        Err(FileError::NoSection(section)) => Ok(Err(FileError::NoSection(section))),
        Err(FileError::Elf(error)) => Ok(Err(FileError::Elf(error))),
    }
}

/// Writes these lines. Returns whether there are some, or why the file can't be read. A call that fails has written a prefix of them.
pub fn write_lint<W: Sink>(
    alloc: Global,
    name: &[u8],
    file: &[u8],
    writer: &mut W,
) -> Result<Result<bool, FileError>, RunError>
    requires { W.has_failed writer.old ≡ false }
    ensures text { WritesText result (W.contents writer.old) (W.contents writer.new)
        (written_text (lint_text_of name.now file.now)) }
    ensures found { IfOk result (λ found. found ≡ has_findings (lint_text_of name.now file.now)) }
    ensures errors { ReportsFailures result false (W.has_failed writer.new) }
{
    let lint = lint_text(alloc, name, file)?;
    match lint {
        Ok(text) => {
            write_all(writer, text.as_slice())?;
            Ok(Ok(!text.is_empty()))
        }
        Err(refusal) => Ok(Err(refusal)),
    }
}
