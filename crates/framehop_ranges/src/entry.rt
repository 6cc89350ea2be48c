//! What a table has for each range of addresses.

use sorted_starts::HasStart;

/// Where a range starts, and the value from there on. They are side by side, so that the memory in which a look-up finds
/// the last start at or below an address has its value too.
#[derive(Clone, Copy)]
pub(crate) struct RangeEntry<V> {
    pub(crate) start: u32,
    pub(crate) value: V,
}

impl<V> HasStart for RangeEntry<V> {
    ghost start = { λ entry. entry.start };

    #[inline(always)]
    fn start(&self) -> u32 {
        self.start
    }
}
