//! The findings of a section and of its header.

ghost use Rattle.std.specs.Prelude.{◌≡◌, IfOk};
ghost use Rattle.line_parts.specs.Parts.{Pushes};
ghost use Rattle.backtrace_lint.specs.PlaceViews.{place_seen};
ghost use Rattle.backtrace_lint.specs.GatheredViews.{Gathers, gathered_text_of};
ghost use Rattle.backtrace_lint.specs.HeaderViews.{header_seen, if_seen};
ghost use Rattle.backtrace_lint.specs.LintText.{file_rows_text, file_section_text, frames_of, header_lines, lines_of, rows_text};
ghost use Rattle.frame_table_files.specs.SectionViews.{section_seen};

use crate::fdes::ListedFde;
use crate::file_rows::rows_of_section;
use crate::gathered::{Gathered, gather};
use crate::header_lines::{push_header_fault, push_header_rows};
use crate::header_tables::located_fdes;
use crate::headers::{HeaderSection, header_rows, section_start, with_header};
use crate::left_out::left_outs;
use crate::lines::{Place, push_fault, push_left_outs, push_overlaps};
use crate::overlaps::overlaps_of;
use crate::row_lines::{push_failed, push_unsaid};
use crate::rows::RowFindings;
use dwarf_frame_entries::{DebugFrame, EhFrame};
use dwarf_readers::LittleEndian;
use frame_table_files::{FileSection, SectionName};
use std::alloc::{AllocError, Global};

// What the list of a file's section has.
fn gather_section(alloc: Global, section: &FileSection<'_>) -> Result<Gathered, AllocError>
    ensures { IfOk result (Gathers (frames_of (section_seen section.now))) }
{
    match section.name {
        SectionName::EhFrame => {
            let frames = EhFrame::new(section.bytes, LittleEndian);
            gather(alloc, &frames, &section.bases)
        }
        SectionName::DebugFrame => {
            let frames = DebugFrame::new(section.bytes, LittleEndian);
            gather(alloc, &frames, &section.bases)
        }
    }
}

// The lines of what was gathered of a section.
fn gathered_text(
    alloc: Global,
    place: &Place<'_>,
    gathered: &Gathered,
) -> Result<Vec<u8>, AllocError>
    ensures { IfOk result (λ text. text.items ≡ gathered_text_of (place_seen place.now) gathered.now) }
{
    let mut text = Vec::new(alloc);
    push_fault(alloc, &mut text, place, &gathered.fault)?;
    let outs = left_outs(alloc, &gathered.fdes)?;
    push_left_outs(alloc, &mut text, place, &outs)?;
    let overlaps = overlaps_of(alloc, &gathered.fdes)?;
    push_overlaps(alloc, &mut text, place, &overlaps)?;
    Ok(text)
}

// Appends the lines of what is found in the rows of a section.
fn push_rows(
    alloc: Global,
    text: &mut Vec<u8>,
    place: &Place<'_>,
    rows: &RowFindings,
) -> Result<(), AllocError>
    ensures { Pushes result text.old text.new
        (rows_text (place_seen place.now) rows.now.unsaid.items rows.now.failed.items) }
{
    push_unsaid(alloc, text, place, &rows.unsaid)?;
    push_failed(alloc, text, place, &rows.failed)
}

// Appends the lines of the rows of a file's section.
fn push_file_rows(
    alloc: Global,
    text: &mut Vec<u8>,
    place: &Place<'_>,
    section: &FileSection<'_>,
) -> Result<(), AllocError>
    ensures { Pushes result text.old text.new
        (file_rows_text (place_seen place.now) (section_seen section.now)) }
{
    let rows = rows_of_section(alloc, section)?;
    push_rows(alloc, text, place, &rows)
}

// Appends the lines of the header of a section that has these FDEs.
fn push_header(
    alloc: Global,
    text: &mut Vec<u8>,
    name: &[u8],
    section: &FileSection<'_>,
    header: &HeaderSection<'_>,
    fdes: &[ListedFde],
) -> Result<(), AllocError>
    ensures { Pushes result text.old text.new
        (header_lines name.now (section_seen section.now) (header_seen header.now) fdes.now) }
{
    let place = Place {
        file: name,
        section: b".eh_frame_hdr",
    };
    let bases = with_header(header.address, &section.bases);
    match header_rows(alloc, header.bytes, &bases)? {
        Ok(rows) => {
            let located = located_fdes(alloc, fdes)?;
            let start = section_start(&section.bases);
            push_header_rows(alloc, text, &place, start, &rows, &located)
        }
        Err(fault) => push_header_fault(alloc, text, &place, fault),
    }
}

// Appends these lines if there is a header.
fn push_if_headed(
    alloc: Global,
    text: &mut Vec<u8>,
    name: &[u8],
    section: &FileSection<'_>,
    header: &Option<HeaderSection<'_>>,
    fdes: &[ListedFde],
) -> Result<(), AllocError>
    ensures { Pushes result text.old text.new (lines_of name.now (section_seen section.now)
        (if_seen header.now) fdes.now) }
{
    match header {
        Some(header) => push_header(alloc, text, name, section, header, fdes),
        None => Ok(()),
    }
}

/// The lines of a file's section, and of its header, if it has one.
pub(crate) fn file_section_text(
    alloc: Global,
    name: &[u8],
    section: &FileSection<'_>,
    header: &Option<HeaderSection<'_>>,
) -> Result<Vec<u8>, AllocError>
    ensures { IfOk result (λ text. text.items ≡ file_section_text name.now (section_seen section.now)
        (if_seen header.now)) }
{
    let place = Place {
        file: name,
        section: section.name.text().as_bytes(),
    };
    let gathered = gather_section(alloc, section)?;
    let mut text = gathered_text(alloc, &place, &gathered)?;
    push_file_rows(alloc, &mut text, &place, section)?;
    push_if_headed(alloc, &mut text, name, section, header, &gathered.fdes)?;
    Ok(text)
}
