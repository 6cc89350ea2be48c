//! Offsets with types that say which section they are into, and in what units they count (DWARF 5,
//! 7.5.5).
#![tactic(auto)]

ghost use Rattle.std.specs.Prelude.{◌≡◌};

/// An offset into `.debug_abbrev`, in bytes.
#[derive(Debug, Clone, Copy, PartialEq, Eq, PartialOrd, Ord, Hash)]
pub struct DebugAbbrevOffset<T = usize>(pub T);

/// An offset into `.debug_addr`, in bytes.
#[derive(Debug, Clone, Copy, PartialEq, Eq, PartialOrd, Ord, Hash)]
pub struct DebugAddrOffset<T = usize>(pub T);

/// The offset of a unit's addresses in `.debug_addr`, in bytes.
#[derive(Debug, Clone, Copy, PartialEq, Eq, PartialOrd, Ord, Hash)]
pub struct DebugAddrBase<T = usize>(pub T);

/// The index of an address among a unit's in `.debug_addr`.
#[derive(Debug, Clone, Copy, PartialEq, Eq, PartialOrd, Ord, Hash)]
pub struct DebugAddrIndex<T = usize>(pub T);

/// An offset into `.debug_aranges`, in bytes.
#[derive(Debug, Clone, Copy, PartialEq, Eq, PartialOrd, Ord, Hash)]
pub struct DebugArangesOffset<T = usize>(pub T);

/// An offset into `.debug_info`, in bytes.
#[derive(Debug, Clone, Copy, PartialEq, Eq, PartialOrd, Ord, Hash)]
pub struct DebugInfoOffset<T = usize>(pub T);

/// An offset into `.debug_line`, in bytes.
#[derive(Debug, Clone, Copy, PartialEq, Eq, PartialOrd, Ord, Hash)]
pub struct DebugLineOffset<T = usize>(pub T);

/// An offset into `.debug_line_str`, in bytes.
#[derive(Debug, Clone, Copy, PartialEq, Eq, PartialOrd, Ord, Hash)]
pub struct DebugLineStrOffset<T = usize>(pub T);

/// An offset into `.debug_loc` or `.debug_loclists`, in bytes.
#[derive(Debug, Clone, Copy, PartialEq, Eq, PartialOrd, Ord, Hash)]
pub struct LocationListsOffset<T = usize>(pub T);

/// The offset of a unit's lists in `.debug_loclists`, in bytes.
#[derive(Debug, Clone, Copy, PartialEq, Eq, PartialOrd, Ord, Hash)]
pub struct DebugLocListsBase<T = usize>(pub T);

/// The index of a list among a unit's in `.debug_loclists`.
#[derive(Debug, Clone, Copy, PartialEq, Eq, PartialOrd, Ord, Hash)]
pub struct DebugLocListsIndex<T = usize>(pub T);

/// An offset into `.debug_macinfo`, in bytes.
#[derive(Debug, Clone, Copy, PartialEq, Eq, PartialOrd, Ord, Hash)]
pub struct DebugMacinfoOffset<T = usize>(pub T);

/// An offset into `.debug_macro`, in bytes.
#[derive(Debug, Clone, Copy, PartialEq, Eq, PartialOrd, Ord, Hash)]
pub struct DebugMacroOffset<T = usize>(pub T);

/// An offset into `.debug_names`, in bytes.
#[derive(Debug, Clone, Copy, PartialEq, Eq, PartialOrd, Ord, Hash)]
pub struct DebugNamesOffset<T = usize>(pub T);

/// An offset into `.debug_ranges` or `.debug_rnglists`, in bytes, before a base is added.
#[derive(Debug, Clone, Copy, PartialEq, Eq, PartialOrd, Ord, Hash)]
pub struct RawRangeListsOffset<T = usize>(pub T);

/// An offset into `.debug_ranges` or `.debug_rnglists`, in bytes.
#[derive(Debug, Clone, Copy, PartialEq, Eq, PartialOrd, Ord, Hash)]
pub struct RangeListsOffset<T = usize>(pub T);

/// The offset of a unit's lists in `.debug_rnglists`, in bytes.
#[derive(Debug, Clone, Copy, PartialEq, Eq, PartialOrd, Ord, Hash)]
pub struct DebugRngListsBase<T = usize>(pub T);

/// The index of a list among a unit's in `.debug_rnglists`.
#[derive(Debug, Clone, Copy, PartialEq, Eq, PartialOrd, Ord, Hash)]
pub struct DebugRngListsIndex<T = usize>(pub T);

/// An offset into `.debug_str`, in bytes.
#[derive(Debug, Clone, Copy, PartialEq, Eq, PartialOrd, Ord, Hash)]
pub struct DebugStrOffset<T = usize>(pub T);

/// The index of an entry among a unit's in `.debug_str_offsets`.
#[derive(Debug, Clone, Copy, PartialEq, Eq, PartialOrd, Ord, Hash)]
pub struct DebugStrOffsetsIndex<T = usize>(pub T);

/// An offset into `.debug_types`, in bytes.
#[derive(Debug, Clone, Copy, PartialEq, Eq, PartialOrd, Ord, Hash)]
pub struct DebugTypesOffset<T = usize>(pub T);

/// An offset into `.debug_frame`, in bytes.
#[derive(Debug, Clone, Copy, PartialEq, Eq, PartialOrd, Ord, Hash)]
pub struct DebugFrameOffset<T = usize>(pub T);

impl<T> From<T> for DebugFrameOffset<T> {
    ghost from_gives = { λ offset result. result.0 ≡ offset };

    fn from(offset: T) -> DebugFrameOffset<T> {
        DebugFrameOffset(offset)
    }
}

/// An offset into `.eh_frame`, in bytes.
#[derive(Debug, Clone, Copy, PartialEq, Eq, PartialOrd, Ord, Hash)]
pub struct EhFrameOffset<T = usize>(pub T);

impl<T> From<T> for EhFrameOffset<T> {
    ghost from_gives = { λ offset result. result.0 ≡ offset };

    fn from(offset: T) -> EhFrameOffset<T> {
        EhFrameOffset(offset)
    }
}

/// An offset into `.debug_info` or `.debug_types`, in bytes.
#[derive(Debug, Clone, Copy, PartialEq, Eq, PartialOrd, Ord, Hash)]
pub struct UnitSectionOffset<T = usize>(pub T);

/// An offset into a unit, in bytes from its header.
#[derive(Debug, Clone, Copy, PartialEq, Eq, PartialOrd, Ord, Hash)]
pub struct UnitOffset<T = usize>(pub T);
