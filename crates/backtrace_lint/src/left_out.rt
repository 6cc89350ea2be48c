//! The FDEs that an index leaves out.

ghost use Rattle.std.specs.Prelude.{◌≡◌, IfOk};
ghost use Rattle.std.specs.List.{filter_map};
ghost use Rattle.backtrace_lint.specs.LeftOut.{cause_of, left_out};

use crate::fdes::{Code, ListedFde};
use dwarf_constants::Error;
use std::alloc::{AllocError, Global};

/// Why an index leaves out an FDE.
#[derive(Debug, Clone, Copy, PartialEq, Eq)]
pub enum LeftOutCause {
    /// It can't be read.
    Unread(Error),
    /// Its start has more than 32 bits.
    FarStart,
    /// Its offset has more than 32 bits.
    FarOffset,
}

/// An FDE that an index leaves out.
#[derive(Debug, Clone, Copy, PartialEq, Eq)]
pub struct LeftOut {
    /// The FDE's offset in the section, in bytes.
    pub offset: u64,
    /// Why.
    pub cause: LeftOutCause,
}

// Why an index leaves out an FDE at an offset, if it does.
fn cause_of(offset: u64, read: Result<Code, Error>) -> Option<LeftOutCause>
    ensures { result ≡ cause_of offset read }
{
    match read {
        Ok(code) => {
            if code.start >= 1 << 32 {
                return Some(LeftOutCause::FarStart);
            }
            if offset >= 1 << 32 {
                return Some(LeftOutCause::FarOffset);
            }
            None
        }
        Err(error) => Some(LeftOutCause::Unread(error)),
    }
}

// What is said of an FDE, if an index leaves it out.
fn left_out(fde: &ListedFde) -> Option<LeftOut>
    ensures { result ≡ left_out fde.now }
{
    match cause_of(fde.offset, fde.read) {
        Some(cause) => Some(LeftOut {
            offset: fde.offset,
            cause,
        }),
        None => None,
    }
}

/// The FDEs that an index leaves out whose base is 0, in the order of the section.
pub fn left_outs(alloc: Global, fdes: &[ListedFde]) -> Result<Vec<LeftOut>, AllocError>
    ensures { IfOk result (λ found. found.items ≡ filter_map left_out fdes.now) }
{
    let mut found = Vec::new(alloc);
    for fde in fdes {
        if let Some(out) = left_out(fde) {
            found.push(out)?;
        }
    }
    Ok(found)
}
