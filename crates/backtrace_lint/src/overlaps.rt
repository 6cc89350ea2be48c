//! FDEs that overlap.

ghost use Rattle.std.specs.Prelude.{◌≡◌, IfOk};
ghost use Rattle.std.specs.List.{filter_map};
ghost use Rattle.backtrace_lint.specs.Overlaps.{further, in_order, overlap_if, overlaps_from, overlaps_in, overlaps_of, spanned};

use crate::fdes::ListedFde;
use std::alloc::{AllocError, Global};

/// An FDE whose code has an address.
#[derive(Debug, Clone, Copy, PartialEq, Eq)]
pub struct SpannedFde {
    /// The FDE's offset in the section, in bytes.
    pub offset: u64,
    /// The first address of its code.
    pub start: u64,
    /// The address after the last.
    pub end: u64,
}

/// Two FDEs with an address in common.
#[derive(Debug, Clone, Copy, PartialEq, Eq)]
pub struct Overlap {
    /// The one that starts first, or if both start alike is first in the section.
    pub first: SpannedFde,
    /// The other.
    pub second: SpannedFde,
}

// An FDE, if it can be read and its code has an address.
fn spanned(fde: &ListedFde) -> Option<SpannedFde>
    ensures { result ≡ spanned fde.now }
{
    match fde.read {
        Ok(code) if code.start < code.end => Some(SpannedFde {
            offset: fde.offset,
            start: code.start,
            end: code.end,
        }),
        _ => None,
    }
}

// The FDEs whose code has an address, in the order of the section.
fn all_spanned(alloc: Global, fdes: &[ListedFde]) -> Result<Vec<SpannedFde>, AllocError>
    ensures { IfOk result (λ found. found.items ≡ filter_map spanned fdes.now) }
{
    let mut found = Vec::new(alloc);
    for fde in fdes {
        if let Some(fde) = spanned(fde) {
            found.push(fde)?;
        }
    }
    Ok(found)
}

// FDEs in the order of their starts.
fn in_order(mut fdes: Vec<SpannedFde>) -> Result<Vec<SpannedFde>, AllocError>
    ensures { IfOk result (λ sorted. sorted.items ≡ in_order fdes.items) }
{
    fdes.sort_by_key(|fde| fde.start)?;
    Ok(fdes)
}

// Of two FDEs the one that ends further, or the first if both end alike.
fn further(fde: SpannedFde, other: SpannedFde) -> SpannedFde
    ensures { result ≡ further fde other }
{
    if fde.end < other.end { other } else { fde }
}

// The overlap of two FDEs of which the first doesn't start later, if there is one.
fn overlap_if(first: SpannedFde, second: SpannedFde) -> Option<Overlap>
    ensures { result ≡ overlap_if first second }
{
    if second.start < first.end {
        Some(Overlap { first, second })
    } else {
        None
    }
}

// The overlaps of FDEs in the order of their starts, of which this one was before them and ends furthest.
fn overlaps_from(
    alloc: Global,
    before: SpannedFde,
    fdes: &[SpannedFde],
) -> Result<Vec<Overlap>, AllocError>
    ensures { IfOk result (λ found. found.items ≡ overlaps_from before fdes.now) }
{
    let mut found = Vec::new(alloc);
    let mut furthest = before;
    for fde in fdes {
        if let Some(overlap) = overlap_if(furthest, *fde) {
            found.push(overlap)?;
        }
        furthest = further(furthest, *fde);
    }
    Ok(found)
}

// The overlaps of FDEs in the order of their starts.
fn overlaps_in(alloc: Global, fdes: &[SpannedFde]) -> Result<Vec<Overlap>, AllocError>
    ensures { IfOk result (λ found. found.items ≡ overlaps_in fdes.now) }
{
    match fdes {
        [] => Ok(Vec::new(alloc)),
        [first, others @ ..] => overlaps_from(alloc, *first, others),
    }
}

/// The FDEs that overlap one before them in the order of their starts, each with the one that ends furthest of those before it, in
/// that order.
pub fn overlaps_of(alloc: Global, fdes: &[ListedFde]) -> Result<Vec<Overlap>, AllocError>
    ensures { IfOk result (λ found. found.items ≡ overlaps_of fdes.now) }
{
    let spanned = all_spanned(alloc, fdes)?;
    let sorted = in_order(spanned)?;
    overlaps_in(alloc, sorted.as_slice())
}
