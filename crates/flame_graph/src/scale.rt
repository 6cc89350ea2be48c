//! What the places and the numbers of boxes depend on.

ghost use Rattle.std.specs.Prelude.{◌<◌, ◌^◌};

/// Which end of a stack is at the bottom.
#[derive(Debug, Clone, Copy, PartialEq, Eq)]
pub enum Direction {
    /// The outermost function: a flame graph.
    Flame,
    /// The innermost function: an icicle graph.
    Icicle,
}

/// What the places and the numbers of all boxes depend on.
#[derive(Debug, Drop)]
pub(crate) struct Scale<'a> {
    /// What is counted.
    pub(crate) unit: &'a [u8],
    /// The samples of all stacks.
    pub(crate) total: u64,
    /// How many levels there are above the one for all stacks.
    pub(crate) levels: u128,
    /// Which end of a stack is at the bottom.
    pub(crate) direction: Direction,
    ghost small: { levels < 2 ^ 65 },
}
