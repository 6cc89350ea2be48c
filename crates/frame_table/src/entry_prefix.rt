//! The length and the id that an entry begins with, and the text of a CIE's augmentation.

ghost use Rattle.dwarf_endianity.specs.Answers.{Gives};
ghost use Rattle.dwarf_readers.specs.Stretch.{Reads};
ghost use Rattle.dwarf_frame_entries.specs.Entries.{id_at};
ghost use Rattle.frame_table.specs.EntryPrefix.{augmentation_text, entry_prefix_at};
ghost use Rattle.frame_table.specs.EntryPrefixViews.{prefix_view};

use dwarf_constants::{Format, Result};
use dwarf_frame_entries::{BaseAddresses, CieOffsetEncoding, UnwindSection};
use dwarf_readers::{Reader, ReaderOffset};

/// What an entry begins with: its length and its id.
#[derive(Drop)]
pub(crate) struct EntryPrefix<R> {
    /// How wide the id is.
    pub(crate) width: CieOffsetEncoding,
    pub(crate) id: u64,
    /// The bytes after the id.
    pub(crate) parts: R,
    /// The offset after the entry.
    pub(crate) end: u64,
}

/// What a CIE begins with, and the text of its augmentation.
#[derive(Drop)]
pub(crate) struct CiePrefix<R> {
    pub(crate) entry: EntryPrefix<R>,
    pub(crate) augmentation: R,
}

// Reads an id of this width.
fn read_id<R: Reader>(width: CieOffsetEncoding, input: &mut R) -> Result<u64>
    ensures { Reads result (id_at width (R.stretch input.old)) (R.stretch input.new) }
{
    match width {
        CieOffsetEncoding::U32 => Ok(u64::from(input.read_u32()?)),
        CieOffsetEncoding::U64 => input.read_u64(),
    }
}

/// The prefix of the entry at an offset of the section.
pub(crate) fn entry_prefix_at<R: Reader, Section: UnwindSection<R>>(
    section: &Section,
    bases: &BaseAddresses,
    offset: R::Offset,
) -> Result<EntryPrefix<R>>
    ensures { Gives (prefix_view R.stretch) result (entry_prefix_at (Section.frame section.now bases.now)
        (R.Offset.value offset)) }
{
    let _bases = bases;
    let mut parts = *section.section();
    parts.skip(offset)?;
    let (length, format) = parts.read_initial_length()?;
    let mut behind = parts;
    let width = Section::cie_offset_encoding(format);
    let id = read_id(width, &mut parts)?;
    behind.skip(length)?;
    Ok(EntryPrefix {
        width,
        id,
        parts,
        end: behind.offset_id().0,
    })
}

/// The text of the augmentation of the CIE with this prefix.
pub(crate) fn augmentation_of<R: Reader>(prefix: &EntryPrefix<R>) -> Result<R>
    ensures { Gives (λ text. (R.stretch text).bytes) result
        (augmentation_text (prefix_view R.stretch prefix.now)) }
{
    let mut parts = prefix.parts;
    parts.read_u8()?;
    parts.read_null_terminated_slice()
}
