//! Entries of either kind, and the iterator over those of a section.

ghost use Rattle.std.specs.Prelude.{◌≡◌};
ghost use Rattle.dwarf_frame_entries.specs.EntryLists.{TellsEnd, entry_list_of};
ghost use Rattle.dwarf_frame_entries.specs.EntryViews.{GivesNextEntry, entry_view};
ghost use Rattle.dwarf_frame_entries.specs.Parts.{IsPart};
ghost use Rattle.dwarf_frame_rows.specs.FrameSection.{frame_section};

use crate::cie::CommonInformationEntry;
use crate::fde::PartialFrameDescriptionEntry;
use crate::parse::parse_entry;
use crate::section::UnwindSection;
use dwarf_constants::Result;
use dwarf_frame_rows::{_UnwindSectionPrivate, BaseAddresses};
use dwarf_readers::Reader;
use std::marker::Model;

/// An entry of either kind, with these types for CIEs and FDEs.
#[derive(Debug, Drop)]
pub enum Entry<C, F> {
    Cie(C),
    Fde(F),
}

/// An entry of a section, of either kind.
pub type CieOrFde<'bases, Section, R> = Entry<
    CommonInformationEntry<R>,
    PartialFrameDescriptionEntry<'bases, Section, R>,
>;

/// An iterator over the entries of a section. After an error it is at its end.
#[derive(Debug, Drop)]
pub struct CfiEntriesIter<'bases, Section: UnwindSection<R>, R: Reader> {
    section: Section,
    bases: &'bases BaseAddresses,
    // The bytes of the entries that are left.
    input: R,
}

impl<'bases, Section: UnwindSection<R>, R: Reader> Model for CfiEntriesIter<'bases, Section, R> {
    ghost use Rattle.dwarf_frame_entries.specs.EntryLists.{EntryList, entry_list_from};
    ghost use Rattle.dwarf_frame_entries.specs.Parts.{IsPart};
    ghost use Rattle.dwarf_frame_rows.specs.FrameSection.{frame_section};

    ghost Value = { EntryList };

    ghost view = { λ i. entry_list_from (frame_section R.Offset.limit Section.kind
        (Section.size i.section) (R.stretch (Section.reader i.section)) i.bases.now)
        (R.stretch i.input) };

    ghost invariant = { λ i. IsPart (R.stretch (Section.reader i.section)) (R.stretch i.input) };
}

impl<'bases, Section: UnwindSection<R>, R: Reader> CfiEntriesIter<'bases, Section, R> {
    ghost use Rattle.list_laws.specs.Items.{GivesNext};

    // The entries of a section.
    pub(crate) fn new(section: &Section, bases: &'bases BaseAddresses) -> Self
        ensures { result ≡ entry_list_of (Section.frame section.now bases.now) }
    {
        CfiEntriesIter {
            section: *section,
            bases,
            input: *section.section(),
        }
    }

    /// The next entry, or `None` at the end: that of the section, or, in `.eh_frame`, a length of
    /// 0. Fails if the entry can't be read. After an error or the end it returns only `Ok(None)`.
    #[inline(always)]
    pub fn next(&mut self) -> Result<Option<CieOrFde<'bases, Section, R>>>
        ensures list { GivesNext (entry_view R.stretch R.Offset.value) result
            self.old.entries self.new.entries }
        ensures end { TellsEnd result self.old.end self.new.end }
    {
        let mut input = self.input;
        match read_next(&self.section, self.bases, &mut input) {
            Ok(Some(entry)) => {
                self.input = input;
                Ok(Some(entry))
            }
            Ok(None) => {
                self.input.empty();
                Ok(None)
            }
            Err(error) => {
                self.input.empty();
                Err(error)
            }
        }
    }
}

// Reads the next entry. What `input` has after the end or an error isn't specified.
#[inline(always)]
fn read_next<'bases, Section: UnwindSection<R>, R: Reader>(
    section: &Section,
    bases: &'bases BaseAddresses,
    input: &mut R,
) -> Result<Option<CieOrFde<'bases, Section, R>>>
    requires { IsPart (R.stretch (Section.reader section.now)) (R.stretch input.old) }
    ensures { GivesNextEntry R.stretch R.Offset.value (frame_section R.Offset.limit Section.kind
        (Section.size section.now) (R.stretch (Section.reader section.now)) bases.now)
        result input.old input.new }
{
    while !input.is_empty() {
        match parse_entry(section, bases, input) {
            Ok(Some(entry)) => return Ok(Some(entry)),
            Ok(None) => {
                if Section::has_zero_terminator() {
                    return Ok(None);
                }
            }
            Err(error) => return Err(error),
        }
    }
    Ok(None)
}

impl<'bases, Section: UnwindSection<R>, R: Reader> Iterator for CfiEntriesIter<'bases, Section, R> {
    ghost use Rattle.std.specs.Iterator.{YieldsFirstBy, item_count};
    ghost use Rattle.dwarf_frame_entries.specs.EntryViews.{item_view};

    type Item = Result<CieOrFde<'bases, Section, R>>;

    ghost next_gives = { YieldsFirstBy (item_view R.stretch R.Offset.value)
        (λ left. left.entries) };

    ghost remaining = { item_count (λ left. left.entries) };

    fn next(&mut self) -> Option<Result<CieOrFde<'bases, Section, R>>> {
        CfiEntriesIter::next(self).transpose()
    }
}
