//! Entries of a section of call frames, as findings see them.

ghost use Rattle.std.specs.Prelude.{◌≡◌, Ok};
ghost use Rattle.dwarf_endianity.specs.Answers.{Gives};
ghost use Rattle.dwarf_frame_entries.specs.EntryViews.{entry_view};
ghost use Rattle.dwarf_frame_entries.specs.SectionFdes.{IsOfSection};
ghost use Rattle.dwarf_frame_entries.specs.SectionWithin.{section_within};
ghost use Rattle.backtrace_lint.specs.ListedFdes.{code_of, listed_entry, listed_fde};
ghost use Rattle.backtrace_lint.specs.Faults.{end_of_entry, offset_after, offset_of};

use crate::fdes::{Code, ListedFde};
use dwarf_frame_entries::{
    BaseAddresses, CieOrFde, Entry, FrameDescriptionEntry, KnownCies, PartialFrameDescriptionEntry,
    UnwindSection,
};
use dwarf_readers::{Reader, ReaderOffset};

// The code of an FDE.
fn code_of<R: Reader>(fde: &FrameDescriptionEntry<R>) -> Code
    ensures { result ≡ code_of fde.now }
{
    Code {
        start: fde.initial_address(),
        end: fde.end_address(),
    }
}

// An FDE of a section's list. Its CIE is read only if no FDE before it names that.
fn listed_fde<R: Reader, Section: UnwindSection<R>>(
    cies: &mut KnownCies<'_, Section, R>,
    partial: &PartialFrameDescriptionEntry<'_, Section, R>,
) -> ListedFde
    requires { partial.now.within ≡ cies.old }
    ensures listed { result ≡ listed_fde R.Offset.limit Section.kind partial.now }
    ensures same { cies.new ≡ cies.old }
{
    let read = match cies.fde(partial) {
        Ok(fde) => Ok(code_of(&fde)),
        Err(error) => Err(error),
    };
    ListedFde {
        offset: partial.offset().into_u64(),
        read,
    }
}

/// The FDE that an entry is, if it isn't a CIE.
pub(crate) fn listed_entry<R: Reader, Section: UnwindSection<R>>(
    cies: &mut KnownCies<'_, Section, R>,
    entry: &CieOrFde<'_, Section, R>,
) -> Option<ListedFde>
    requires { IsOfSection (section_within R.Offset.limit Section.kind cies.old)
        (Ok (entry_view R.stretch R.Offset.value entry.now)) }
    ensures listed { result ≡ listed_entry R.Offset.limit Section.kind
        (entry_view R.stretch R.Offset.value entry.now) }
    ensures same { cies.new ≡ cies.old }
{
    match entry {
        Entry::Cie(_) => None,
        Entry::Fde(partial) => Some(listed_fde(cies, partial)),
    }
}

// The offset of an entry.
fn offset_of<R: Reader, Section: UnwindSection<R>>(entry: &CieOrFde<'_, Section, R>) -> R::Offset
    ensures { R.Offset.value result ≡ offset_of (entry_view R.stretch R.Offset.value entry.now) }
{
    match entry {
        Entry::Cie(cie) => cie.offset(),
        Entry::Fde(partial) => partial.offset(),
    }
}

// The offset after the entry at an offset.
fn end_of_entry<R: Reader, Section: UnwindSection<R>>(
    section: &Section,
    bases: &BaseAddresses,
    offset: R::Offset,
) -> dwarf_constants::Result<u64>
    ensures { Gives (λ end. end) result
        (end_of_entry (Section.frame section.now bases.now) (R.Offset.value offset)) }
{
    let _bases = bases;
    let mut behind = *section.section();
    behind.skip(offset)?;
    let (length, _format) = behind.read_initial_length()?;
    behind.skip(length)?;
    Ok(behind.offset_id().0)
}

/// The offset after an entry.
pub(crate) fn offset_after<R: Reader, Section: UnwindSection<R>>(
    section: &Section,
    bases: &BaseAddresses,
    entry: &CieOrFde<'_, Section, R>,
) -> u64
    ensures { result ≡ offset_after (Section.frame section.now bases.now)
        (entry_view R.stretch R.Offset.value entry.now) }
{
    let offset = offset_of(entry);
    match end_of_entry(section, bases, offset) {
        Ok(end) => end,
        Err(_) => offset.into_u64(),
    }
}
