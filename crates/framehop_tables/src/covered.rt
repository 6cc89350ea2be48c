//! What a table says of an address.

/// What a table says of an address.
#[derive(Debug, Clone, Copy, PartialEq, Eq)]
pub enum Covered<Rule> {
    /// Nothing: no FDE is known for it.
    Nothing,
    /// The unwind rule there.
    Says(Rule),
    /// That no rule says its row, which is one of the FDE at this offset in the section, in bytes.
    Evaluates(u32),
}
