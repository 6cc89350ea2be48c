//! What a listing has of frame description entries.

ghost use Rattle.std.specs.Prelude.{◌≡◌, ◌++◌, OnOk};
ghost use Rattle.dwarf_frame_entries.specs.Entries.{fde_of};
ghost use Rattle.dwarf_frame_rows.specs.Effects.{Limits};
ghost use Rattle.frame_table.specs.Entries.{fde_line, fde_or_fault, fde_places, fde_table, whole_fde_part};
ghost use Rattle.frame_table.specs.EntryWrites.{HasTable, ListsFde, WritesPart, setting_by};
ghost use Rattle.frame_table.specs.EntryPrefixViews.{prefix_view};

use crate::columns::add_columns;
use crate::entry_prefix::{EntryPrefix, entry_prefix_at};
use crate::listed::Listed;
use crate::parts::{PartEnd, end_part, push_fault, push_prefix, table_of};
use crate::tables::Table;
use dwarf_frame_entries::{
    FrameDescriptionEntry, KnownCies, PartialFrameDescriptionEntry, UnwindContext,
    UnwindContextStorage, UnwindOffset, UnwindSection,
};
use dwarf_readers::{Reader, ReaderOffset};
use line_parts::{push_bytes, push_hex};
use std::alloc::{AllocError, Global};
use std::collections::BTreeSet;

// The table of an FDE.
fn fde_table<R: Reader, Section: UnwindSection<R>>(
    alloc: Global,
    listed: &Listed<'_, Section>,
    fde: &FrameDescriptionEntry<R>,
) -> Result<Table, AllocError>
    ensures { (limits : Limits) → HasTable
        (fde_table (setting_by Section.frame Section.extensions limits listed.now) fde.now) result }
{
    let cie = fde.cie();
    let (section, bases) = (listed.section, listed.bases);
    let mut columns = BTreeSet::new(alloc);
    add_columns(&mut columns, cie.instructions(section, bases))?;
    let own = fde.instructions(section, bases);
    table_of(alloc, listed.machine, cie, columns, own)
}

// Appends the offset of an FDE's CIE, and the range of its code.
fn push_places(
    alloc: Global,
    address_size: u8,
    cie_offset: u64,
    start: u64,
    end: u64,
    text: &mut Vec<u8>,
) -> Result<(), AllocError>
    ensures { OnOk result (text.new.items
        ≡ text.old.items ++ fde_places address_size cie_offset start end) }
{
    push_bytes(text, b" FDE cie=")?;
    push_hex(alloc, text, 8, cie_offset)?;
    push_bytes(text, b" pc=")?;
    push_hex(alloc, text, 2 * usize::from(address_size), start)?;
    push_bytes(text, b"..")?;
    push_hex(alloc, text, 2 * usize::from(address_size), end)?;
    push_bytes(text, b"\n")
}

// Appends the line of an FDE.
fn push_fde_line<R: Reader>(
    alloc: Global,
    cie_offset: u64,
    fde: &FrameDescriptionEntry<R>,
    prefix: &EntryPrefix<R>,
    text: &mut Vec<u8>,
) -> Result<(), AllocError>
    ensures { OnOk result (text.new.items ≡ text.old.items
        ++ fde_line cie_offset fde.now (prefix_view R.stretch prefix.now)) }
{
    let offset = fde.offset().into_u64();
    let length = fde.entry_len().into_u64();
    let cie = fde.cie();
    let size = cie.address_size();
    let start = fde.initial_address();
    let end = fde.end_address();
    push_prefix(alloc, size, offset, length, prefix, text)?;
    push_places(alloc, size, cie_offset, start, end, text)
}

// Appends the text of an FDE whose prefix is read.
fn push_whole_fde<R: Reader, Section: UnwindSection<R>, S: UnwindContextStorage<R::Offset>>(
    alloc: Global,
    listed: &Listed<'_, Section>,
    context: &mut UnwindContext<R::Offset, S>,
    cie_offset: u64,
    fde: &FrameDescriptionEntry<R>,
    prefix: &EntryPrefix<R>,
    text: &mut Vec<u8>,
) -> Result<PartEnd, AllocError>
    ensures { let s = setting_by Section.frame Section.extensions S.limits listed.now in
        WritesPart (whole_fde_part s cie_offset fde.now (prefix_view R.stretch prefix.now))
        text.old.items text.new.items result }
{
    push_fde_line(alloc, cie_offset, fde, prefix, text)?;
    let table = fde_table(alloc, listed, fde)?;
    let program = fde.program(listed.section, listed.bases);
    let refusal = table.push(alloc, context, program, text)?;
    end_part(alloc, refusal, fde.offset().into_u64(), prefix.end, text)
}

// The offset of an FDE's CIE.
fn cie_offset_of<R: Reader, Section: UnwindSection<R>>(
    partial: &PartialFrameDescriptionEntry<'_, Section, R>,
) -> u64
    ensures { result ≡ partial.now.cie_offset }
{
    UnwindOffset::into(partial.cie_offset()).into_u64()
}

// Appends the text of an FDE whose prefix is read, or the line of the error if the FDE can't be read. Its CIE is read only if no FDE
// before it names that.
fn push_fde_or_fault<R: Reader, Section: UnwindSection<R>, S: UnwindContextStorage<R::Offset>>(
    alloc: Global,
    listed: &Listed<'_, Section>,
    context: &mut UnwindContext<R::Offset, S>,
    cies: &mut KnownCies<'_, Section, R>,
    partial: &PartialFrameDescriptionEntry<'_, Section, R>,
    prefix: &EntryPrefix<R>,
    text: &mut Vec<u8>,
) -> Result<PartEnd, AllocError>
    requires { partial.now.within ≡ cies.old }
    ensures lists { let s = setting_by Section.frame Section.extensions S.limits listed.now in
        WritesPart (fde_or_fault s partial.now (prefix_view R.stretch prefix.now)
        (fde_of R.Offset.limit Section.kind partial.now))
        text.old.items text.new.items result }
    ensures same { cies.new ≡ cies.old }
{
    match cies.fde(partial) {
        Ok(fde) => {
            let cie_offset = cie_offset_of(partial);
            push_whole_fde(alloc, listed, context, cie_offset, &fde, prefix, text)
        }
        Err(error) => {
            let offset = partial.offset().into_u64();
            push_fault(alloc, error, offset, prefix.end, text)
        }
    }
}

/// Appends the text of an FDE.
pub(crate) fn push_fde<R: Reader, Section: UnwindSection<R>, S: UnwindContextStorage<R::Offset>>(
    alloc: Global,
    listed: &Listed<'_, Section>,
    context: &mut UnwindContext<R::Offset, S>,
    cies: &mut KnownCies<'_, Section, R>,
    partial: &PartialFrameDescriptionEntry<'_, Section, R>,
    text: &mut Vec<u8>,
) -> Result<PartEnd, AllocError>
    requires { partial.now.within ≡ cies.old }
    ensures lists { ListsFde Section.frame Section.extensions S.limits listed.now
        partial.now text.old text.new result }
    ensures same { cies.new ≡ cies.old }
{
    match entry_prefix_at(listed.section, listed.bases, partial.offset()) {
        Ok(prefix) => push_fde_or_fault(alloc, listed, context, cies, partial, &prefix, text),
        Err(error) => {
            let offset = partial.offset().into_u64();
            push_fault(alloc, error, offset, offset, text)
        }
    }
}
