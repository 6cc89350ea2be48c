//! What both kinds of entry have in a listing.

ghost use Rattle.std.specs.Prelude.{◌≡◌, IfOk, string_bytes};
ghost use Rattle.dwarf_frame_entries.specs.EntryViews.{cie_view};
ghost use Rattle.frame_table.specs.Entries.{entry_table, fault_part, fault_text, head_of, id_digits, prefix_text};
ghost use Rattle.frame_table.specs.EntryWrites.{EndsPart, HasTable, WritesPart};
ghost use Rattle.frame_table.specs.EntryPrefixViews.{prefix_view};
ghost use Rattle.line_parts.specs.Parts.{Pushes};

use crate::columns::add_columns;
use crate::entry_prefix::EntryPrefix;
use crate::names::Machine;
use crate::tables::Table;
use dwarf_constants::Error;
use dwarf_frame_entries::{CallFrameInstructionIter, CieOffsetEncoding, CommonInformationEntry};
use dwarf_readers::Reader;
use line_parts::{push_bytes, push_hex};
use std::alloc::{AllocError, Global};
use std::collections::BTreeSet;

/// How the text of an entry ends.
#[derive(Clone, Copy)]
pub(crate) struct PartEnd {
    /// The offset after the entry.
    pub(crate) offset: u64,
    /// Whether the entry has no fault.
    pub(crate) is_whole: bool,
}

/// The line of a fault: the error's name, and the offset of the entry that has it.
pub(crate) fn fault_text(alloc: Global, error: Error, offset: u64) -> Result<String, AllocError>
    ensures { IfOk result (λ text. string_bytes text ≡ fault_text error offset) }
{
    format!(in alloc; "fault {error} at 0x{offset:x}\n")
}

/// Appends the line of a fault.
pub(crate) fn push_fault(
    alloc: Global,
    error: Error,
    offset: u64,
    end: u64,
    text: &mut Vec<u8>,
) -> Result<PartEnd, AllocError>
    ensures { WritesPart (fault_part offset end error) text.old.items text.new.items result }
{
    push_bytes(text, fault_text(alloc, error, offset)?.as_bytes())?;
    Ok(PartEnd {
        offset: end,
        is_whole: false,
    })
}

/// Ends the text of an entry: with the line of the error that ends its rows, if there is one.
pub(crate) fn end_part(
    alloc: Global,
    refusal: Option<Error>,
    offset: u64,
    end: u64,
    text: &mut Vec<u8>,
) -> Result<PartEnd, AllocError>
    ensures { EndsPart offset end refusal text.old.items text.new.items result }
{
    match refusal {
        None => Ok(PartEnd {
            offset: end,
            is_whole: true,
        }),
        Some(error) => push_fault(alloc, error, offset, end, text),
    }
}

// How many digits an id has.
fn id_digits(width: CieOffsetEncoding) -> usize
    ensures { result ≡ id_digits width }
{
    match width {
        CieOffsetEncoding::U32 => 8,
        CieOffsetEncoding::U64 => 16,
    }
}

/// Appends the beginning of an entry's line: its offset, its length and its id.
pub(crate) fn push_prefix<R: Reader>(
    alloc: Global,
    address_size: u8,
    offset: u64,
    length: u64,
    prefix: &EntryPrefix<R>,
    text: &mut Vec<u8>,
) -> Result<(), AllocError>
    ensures { Pushes result text.old text.new
        (prefix_text address_size (head_of offset length) (prefix_view R.stretch prefix.now)) }
{
    push_bytes(text, b"\n")?;
    push_hex(alloc, text, 8, offset)?;
    push_bytes(text, b" ")?;
    push_hex(alloc, text, 2 * usize::from(address_size), length)?;
    push_bytes(text, b" ")?;
    push_hex(alloc, text, id_digits(prefix.width), prefix.id)
}

/// The table of an entry with a CIE: its columns are added to those of earlier instructions.
pub(crate) fn table_of<'a, R: Reader>(
    alloc: Global,
    machine: Option<Machine>,
    cie: &CommonInformationEntry<R>,
    mut columns: BTreeSet<u16>,
    own: CallFrameInstructionIter<'a, R>,
) -> Result<Table, AllocError>
    ensures { HasTable (entry_table machine (cie_view R.stretch R.Offset.value cie.now)
        columns.keys own.entry) result }
{
    let nops = add_columns(&mut columns, own)?;
    Ok(Table {
        machine,
        address_size: cie.address_size(),
        return_address: cie.return_address_register(),
        columns: columns.into_iter().collect(alloc)?,
        is_shown: !nops,
    })
}
