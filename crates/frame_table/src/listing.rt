//! The listing of a section, entry by entry.

ghost use Rattle.std.specs.Prelude.{◌≡◌, Ok, false};
ghost use Rattle.json_program.specs.Errors.{ReportsFailures};
ghost use Rattle.json_program.specs.Stream.{WritesText};
ghost use Rattle.frame_table.specs.Entries.{fault_text};
ghost use Rattle.dwarf_frame_entries.specs.EntryViews.{entry_view};
ghost use Rattle.dwarf_frame_entries.specs.SectionFdes.{IsOfSection};
ghost use Rattle.frame_table.specs.EntryWrites.{Lists, ListsSection, section_by};

use crate::cies::push_cie;
use crate::fdes::push_fde;
use crate::listed::Listed;
use crate::parts::{PartEnd, fault_text};
use dwarf_constants::Error;
use dwarf_frame_entries::{
    CieOrFde, Entry, KnownCies, UnwindContext, UnwindContextStorage, UnwindSection,
};
use dwarf_frame_rows::_UnwindSectionPrivate;
use dwarf_readers::Reader;
use json_program::{RunError, Sink, write_all};
use std::alloc::{AllocError, Global};

// Appends the text of an entry.
fn push_entry<R: Reader, Section: UnwindSection<R>, S: UnwindContextStorage<R::Offset>>(
    alloc: Global,
    listed: &Listed<'_, Section>,
    context: &mut UnwindContext<R::Offset, S>,
    cies: &mut KnownCies<'_, Section, R>,
    entry: &CieOrFde<'_, Section, R>,
    text: &mut Vec<u8>,
) -> Result<PartEnd, AllocError>
    requires entry { IsOfSection (section_by Section.frame listed.now)
        (Ok (entry_view R.stretch R.Offset.value entry.now)) }
    requires cies { cies.old ≡ (section_by Section.frame listed.now).within }
    ensures lists { Lists Section.frame Section.extensions S.limits listed.now
        R.stretch R.Offset.value entry.now text.old text.new result }
    ensures same { cies.new ≡ cies.old }
{
    match entry {
        Entry::Cie(cie) => push_cie(alloc, listed, context, cie, text),
        Entry::Fde(partial) => push_fde(alloc, listed, context, cies, partial, text),
    }
}

// The offset at which a section starts.
fn start_of<R: Reader, Section: UnwindSection<R>>(section: &Section) -> u64
    ensures { result ≡ (R.stretch (Section.reader section.now)).offset }
{
    section.section().offset_id().0
}

// Writes the line of a fault.
fn write_fault<W: Sink>(
    alloc: Global,
    error: Error,
    offset: u64,
    writer: &mut W,
) -> Result<(), RunError>
    requires { W.has_failed writer.old ≡ false }
    ensures text { WritesText result (W.contents writer.old) (W.contents writer.new)
        (fault_text error offset) }
    ensures errors { ReportsFailures result false (W.has_failed writer.new) }
{
    let line = fault_text(alloc, error, offset)?;
    write_all(writer, line.as_bytes())
}

/// Writes the entries of a section with their rows, and a line for each fault, and returns whether there is
/// no fault. What the context held before has no effect.
pub(crate) fn write_listing<
    R: Reader,
    Section: UnwindSection<R>,
    S: UnwindContextStorage<R::Offset>,
    W: Sink,
>(
    alloc: Global,
    listed: &Listed<'_, Section>,
    context: &mut UnwindContext<R::Offset, S>,
    writer: &mut W,
) -> Result<bool, RunError>
    requires { W.has_failed writer.old ≡ false }
    ensures listing { ListsSection Section.frame Section.extensions S.limits listed.now
        W.contents writer.old writer.new result }
    ensures errors { ReportsFailures result false (W.has_failed writer.new) }
{
    let mut offset = start_of(listed.section);
    let mut is_whole = true;
    let mut cies = KnownCies::new(alloc, listed.section, listed.bases);
    let mut entries = listed.section.entries(listed.bases);
    'entries: loop {
        match entries.next() {
            Ok(Some(entry)) => {
                let mut text = Vec::new(alloc);
                let end = push_entry(alloc, listed, context, &mut cies, &entry, &mut text)?;
                write_all(writer, text.as_slice())?;
                offset = end.offset;
                is_whole &= end.is_whole;
            }
            Ok(None) => return Ok(is_whole),
            Err(error) => {
                write_fault(alloc, error, offset, writer)?;
                return Ok(false);
            }
        }
    }
}
