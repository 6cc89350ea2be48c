//! Addresses relative to a module's base.

ghost use Rattle.std.specs.Prelude.{◌≡◌};
ghost use Rattle.framehop_loads.specs.UnwindData.{relative_address, relative_range};

use std::ops::Range;

// An address relative to a base, if it isn't below the base and fits 32 bits.
pub(crate) fn relative_to(base_svma: u64, svma: u64) -> Option<u32>
    ensures { result ≡ relative_address base_svma svma }
{
    u32::try_from(svma.checked_sub(base_svma)?).ok()
}

// A range of addresses relative to a base, if both fit.
pub(crate) fn relative_range(base_svma: u64, svma_range: &Range<u64>) -> Option<Range<u32>>
    ensures { result ≡ relative_range base_svma svma_range.now }
{
    let start = relative_to(base_svma, svma_range.start)?;
    let end = relative_to(base_svma, svma_range.end)?;
    Some(start..end)
}
