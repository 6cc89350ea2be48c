//! The table of an `.eh_frame_hdr` beside the FDEs of its section.

ghost use Rattle.std.specs.Prelude.{◌≡◌, ◌||◌, ◌==◌, ◌+◌, ℕ, [], ◌∷◌, IfOk, OnOk};
ghost use Rattle.std.specs.Ordering.{nat_cmp};
ghost use Rattle.std.specs.BTreeMap as tree_map;
ghost use Rattle.std.specs.BTreeSet as tree_set;
ghost use Rattle.backtrace_lint.specs.HeaderTableViews.{AddsNamed, AddsStart, rowless_among, rowless_in};
ghost use Rattle.backtrace_lint.specs.HeaderTables.{is_named, is_start, located, located_fdes, named_by, rowless_fdes, start_at, unordered_from, unordered_if, unordered_rows, untrue_from, untrue_if, untrue_rows};

use crate::fdes::ListedFde;
use dwarf_constants::Error;
use std::alloc::{AllocError, Global};
use std::collections::{BTreeMap, BTreeSet};

/// Why the rows of an `.eh_frame_hdr` can't be compared with FDEs.
#[derive(Debug, Clone, Copy, PartialEq, Eq)]
pub enum HeaderFault {
    /// What is before the table can't be read.
    Unread(Error),
    /// It says that `.eh_frame` is at this address, which is another one.
    OtherSection(u64),
    /// It has no table, or one without rows.
    NoTable,
    /// The row with this index can't be read.
    UnreadRow(u64, Error),
}

/// A row of the table of an `.eh_frame_hdr`.
#[derive(Debug, Clone, Copy, PartialEq, Eq)]
pub struct HeaderRow {
    /// The address where the code of an FDE starts.
    pub start: u64,
    /// The address of the FDE itself.
    pub fde: u64,
}

/// A row that doesn't start above the one before it.
#[derive(Debug, Clone, Copy, PartialEq, Eq)]
pub struct UnorderedRow {
    /// Its index in the table.
    pub index: u64,
    /// Its start.
    pub start: u64,
    /// The start of the row before it.
    pub before: u64,
}

/// A row that isn't an FDE's.
#[derive(Debug, Clone, Copy, PartialEq, Eq)]
pub struct UntrueRow {
    /// Its index in the table.
    pub index: u64,
    /// The row.
    pub row: HeaderRow,
    /// Where the code of the FDE that it names starts, if one is there that can be read.
    pub named: Option<u64>,
}

/// An FDE that can be read.
#[derive(Debug, Clone, Copy, PartialEq, Eq)]
pub struct LocatedFde {
    /// Its offset in the section, in bytes.
    pub offset: u64,
    /// The first address of its code.
    pub start: u64,
}

// An FDE, if it can be read.
fn located(fde: &ListedFde) -> Option<LocatedFde>
    ensures { result ≡ located fde.now }
{
    match fde.read {
        Ok(code) => Some(LocatedFde {
            offset: fde.offset,
            start: code.start,
        }),
        Err(_) => None,
    }
}

/// The FDEs that can be read, in the order of the section.
pub fn located_fdes(alloc: Global, fdes: &[ListedFde]) -> Result<Vec<LocatedFde>, AllocError>
    ensures { IfOk result (λ found. found.items ≡ located_fdes fdes.now) }
{
    let mut found = Vec::new(alloc);
    for fde in fdes {
        if let Some(fde) = located(fde) {
            found.push(fde)?;
        }
    }
    Ok(found)
}

// What is said of a row after one with this start, if it doesn't start above that.
fn unordered_if(index: u64, before: u64, start: u64) -> Option<UnorderedRow>
    ensures { result ≡ unordered_if index before start }
{
    if before < start {
        return None;
    }
    Some(UnorderedRow {
        index,
        start,
        before,
    })
}

// The rows that don't start above the one before them; before these are one row, with this start.
fn unordered_after(
    alloc: Global,
    first: u64,
    rows: &[HeaderRow],
) -> Result<Vec<UnorderedRow>, AllocError>
    ensures { IfOk result (λ found. found.items ≡ unordered_from 1 first rows.now) }
{
    let mut found = Vec::new(alloc);
    let mut before = first;
    for place in 0..rows.len() {
        let start = rows[place].start;
        if let Some(row) = unordered_if(place as u64 + 1, before, start) {
            found.push(row)?;
        }
        before = start;
    }
    Ok(found)
}

/// The rows of a table that don't start above the row before them.
pub fn unordered_rows(alloc: Global, rows: &[HeaderRow]) -> Result<Vec<UnorderedRow>, AllocError>
    ensures { IfOk result (λ found. found.items ≡ unordered_rows rows.now) }
{
    match rows {
        [] => Ok(Vec::new(alloc)),
        [first, others @ ..] => unordered_after(alloc, first.start, others),
    }
}

// Adds where the code of an FDE starts, by the FDE's offset, unless that has a start.
fn add_start(starts: &mut BTreeMap<u64, u64>, fde: LocatedFde) -> Result<(), AllocError>
    ensures { OnOk result (AddsStart fde starts.old starts.new) }
{
    if !starts.contains_key(&fde.offset) {
        starts.insert(fde.offset, fde.start)?;
    }
    Ok(())
}

// Where the code of each FDE starts, by the FDE's offset.
fn starts_by_offset(alloc: Global, fdes: &[LocatedFde]) -> Result<BTreeMap<u64, u64>, AllocError>
    ensures { IfOk result (λ starts. (offset : ℕ)
        → tree_map.get nat_cmp starts offset ≡ start_at fdes.now offset) }
{
    let mut starts = BTreeMap::new(alloc);
    for fde in fdes {
        add_start(&mut starts, *fde)?;
    }
    Ok(starts)
}

// Where the code of the FDE at an address starts, by what is known of offsets.
fn start_named(starts: &BTreeMap<u64, u64>, section: u64, address: u64) -> Option<u64>
    ensures { result ≡ named_by (tree_map.get nat_cmp starts.now) section address }
{
    match address.checked_sub(section) {
        Some(offset) => starts.get(&offset).copied(),
        None => None,
    }
}

// Whether a start that is named is this one.
fn is_start(named: Option<u64>, start: u64) -> bool
    ensures { result ≡ is_start named start }
{
    match named {
        Some(named) => named == start,
        None => false,
    }
}

// What is said of a row by the start of the FDE that it names, if it isn't that FDE's.
fn untrue_if(index: u64, row: HeaderRow, named: Option<u64>) -> Option<UntrueRow>
    ensures { result ≡ untrue_if index row named }
{
    if is_start(named, row.start) {
        return None;
    }
    Some(UntrueRow { index, row, named })
}

// The rows of a table that aren't an FDE's, by where the code of FDEs starts.
fn untrue_among(
    alloc: Global,
    starts: &BTreeMap<u64, u64>,
    section: u64,
    rows: &[HeaderRow],
) -> Result<Vec<UntrueRow>, AllocError>
    ensures { IfOk result (λ found. found.items
        ≡ untrue_from (named_by (tree_map.get nat_cmp starts.now) section) 0 rows.now) }
{
    let mut found = Vec::new(alloc);
    for index in 0..rows.len() {
        let row = rows[index];
        let named = start_named(starts, section, row.fde);
        if let Some(untrue) = untrue_if(index as u64, row, named) {
            found.push(untrue)?;
        }
    }
    Ok(found)
}

/// The rows of a table that aren't an FDE's: the FDE that they name starts elsewhere, or isn't there. `section` is the address of
/// `.eh_frame`.
pub fn untrue_rows(
    alloc: Global,
    section: u64,
    rows: &[HeaderRow],
    fdes: &[LocatedFde],
) -> Result<Vec<UntrueRow>, AllocError>
    ensures { IfOk result (λ found. found.items ≡ untrue_rows section rows.now fdes.now) }
{
    let starts = starts_by_offset(alloc, fdes)?;
    untrue_among(alloc, &starts, section, rows)
}

// Adds the offset of what a row names, if that isn't before the section.
fn add_named(named: &mut BTreeSet<u64>, section: u64, row: HeaderRow) -> Result<(), AllocError>
    ensures { OnOk result (AddsNamed section row named.old named.new) }
{
    if let Some(offset) = row.fde.checked_sub(section) {
        named.insert(offset)?;
    }
    Ok(())
}

// The offsets in the section of what rows name.
fn offsets_named(
    alloc: Global,
    section: u64,
    rows: &[HeaderRow],
) -> Result<BTreeSet<u64>, AllocError>
    ensures { IfOk result (λ named. (offset : ℕ)
        → tree_set.contains nat_cmp named offset ≡ is_named rows.now (section + offset)) }
{
    let mut named = BTreeSet::new(alloc);
    for row in rows {
        add_named(&mut named, section, *row)?;
    }
    Ok(named)
}

// An FDE, unless its offset is one of these.
#[tactic(auto, unfolding(crate::specs::HeaderTableViews::rowless_in))]
fn rowless_in(named: &BTreeSet<u64>, fde: LocatedFde) -> Option<LocatedFde>
    ensures { result ≡ rowless_in named.now fde }
{
    if named.contains(&fde.offset) {
        None
    } else {
        Some(fde)
    }
}

// The FDEs that aren't at one of these offsets.
fn rowless_among(
    alloc: Global,
    named: &BTreeSet<u64>,
    fdes: &[LocatedFde],
) -> Result<Vec<LocatedFde>, AllocError>
    ensures { IfOk result (λ found. found.items ≡ rowless_among named.now fdes.now) }
{
    let mut found = Vec::new(alloc);
    for fde in fdes {
        if let Some(fde) = rowless_in(named, *fde) {
            found.push(fde)?;
        }
    }
    Ok(found)
}

/// The FDEs that no row of a table names, in the order of the section. `section` is the address of `.eh_frame`.
pub fn rowless_fdes(
    alloc: Global,
    section: u64,
    rows: &[HeaderRow],
    fdes: &[LocatedFde],
) -> Result<Vec<LocatedFde>, AllocError>
    ensures { IfOk result (λ found. found.items ≡ rowless_fdes section rows.now fdes.now) }
{
    let named = offsets_named(alloc, section, rows)?;
    rowless_among(alloc, &named, fdes)
}
