//! A pass over the entries of a section.

ghost use Rattle.std.specs.Prelude.{◌≡◌, IfOk, Ok, OnOk};
ghost use Rattle.dwarf_frame_entries.specs.EntryViews.{entry_view};
ghost use Rattle.dwarf_frame_entries.specs.SectionFdes.{IsOfSection};
ghost use Rattle.dwarf_frame_entries.specs.SectionWithin.{section_within};
ghost use Rattle.backtrace_lint.specs.GatheredViews.{Gathers};
ghost use Rattle.backtrace_lint.specs.ListedFdes.{listed_entry, with_listed};

use crate::entries::{listed_entry, offset_after};
use crate::fdes::{Fault, ListedFde};
use dwarf_frame_entries::{BaseAddresses, CieOrFde, KnownCies, UnwindSection};
use dwarf_readers::Reader;
use std::alloc::{AllocError, Global};

/// The FDEs of a section's list, and the error that ends it, if one does.
#[derive(Drop)]
pub(crate) struct Gathered {
    pub(crate) fdes: Vec<ListedFde>,
    pub(crate) fault: Option<Fault>,
}

// Adds the FDE that an entry is, if it isn't a CIE.
fn push_entry<R: Reader, Section: UnwindSection<R>>(
    fdes: &mut Vec<ListedFde>,
    cies: &mut KnownCies<'_, Section, R>,
    entry: &CieOrFde<'_, Section, R>,
) -> Result<(), AllocError>
    requires { IsOfSection (section_within R.Offset.limit Section.kind cies.old)
        (Ok (entry_view R.stretch R.Offset.value entry.now)) }
    ensures listed { OnOk result (fdes.new.items ≡ with_listed fdes.old.items
        (listed_entry R.Offset.limit Section.kind (entry_view R.stretch R.Offset.value entry.now))) }
    ensures same { cies.new ≡ cies.old }
{
    let Some(fde) = listed_entry(cies, entry) else {
        return Ok(());
    };
    fdes.push(fde)?;
    Ok(())
}

/// What the list of a section's entries has.
pub(crate) fn gather<R: Reader, Section: UnwindSection<R>>(
    alloc: Global,
    section: &Section,
    bases: &BaseAddresses,
) -> Result<Gathered, AllocError>
    ensures { IfOk result (Gathers (Section.frame section.now bases.now)) }
{
    let mut fdes = Vec::new(alloc);
    let mut offset = 0;
    let mut cies = KnownCies::new(alloc, section, bases);
    let mut entries = section.entries(bases);
    'entries: loop {
        match entries.next() {
            Ok(Some(entry)) => {
                push_entry(&mut fdes, &mut cies, &entry)?;
                offset = offset_after(section, bases, &entry);
            }
            Ok(None) => return Ok(Gathered { fdes, fault: None }),
            Err(error) => {
                let fault = Some(Fault { offset, error });
                return Ok(Gathered { fdes, fault });
            }
        }
    }
}
