//! One run of the program over an ELF file: its bytes in, the listing of its section out.

ghost use Rattle.std.specs.Prelude.{◌≡◌, false, IfOk};
ghost use Rattle.json_program.specs.Errors.{ReportsFailures};
ghost use Rattle.json_program.specs.Stream.{WritesText};
ghost use Rattle.frame_table.specs.FileText.{ending_of_file, text_of_file};

use crate::located::{list, located_of_file};
use crate::program::{Ending, ending_by};
use frame_table_files::{FileError, SectionName, section_of_file};
use json_program::{RunError, Sink};
use std::alloc::Global;

/// Writes the listing of a section of the file with these bytes: the one with a name, or else the one that is there. Returns
/// how the run ends, or why nothing is listed.
pub fn list_file<W: Sink>(
    alloc: Global,
    file: &[u8],
    name: Option<SectionName>,
    writer: &mut W,
) -> Result<Result<Ending, FileError>, RunError>
    requires { W.has_failed writer.old ≡ false }
    ensures text { WritesText result (W.contents writer.old) (W.contents writer.new)
        (text_of_file name file.now) }
    ensures ending { IfOk result (λ ending. ending ≡ ending_of_file name file.now) }
    ensures errors { ReportsFailures result false (W.has_failed writer.new) }
{
    match section_of_file(file, name) {
        Ok(section) => {
            let located = located_of_file(&section);
            Ok(Ok(ending_by(list(alloc, &located, writer)?)))
        }
        Err(refusal) => Ok(Err(refusal)),
    }
}
