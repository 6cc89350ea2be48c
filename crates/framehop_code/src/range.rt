//! Ranges of addresses, and the bounds of the code around an address.
ghost use Rattle.std.specs.Prelude.{◌≡◌, ◌+◌, ◌-◌, ◌^◌, ◌<◌, IsTrue};
ghost use Rattle.framehop_code.specs.Ranges.{bounds_around, everywhere, is_inside, of_length};

/// Addresses from one on, and below another. It contains none if it ends at or below its begin.
#[derive(Clone, Copy, Debug, PartialEq, Eq)]
pub struct CodeRange {
    pub begin: u64,
    pub end: u64,
}

impl CodeRange {
    /// So many addresses from one on. It doesn't wrap: it ends at the last address, 2^64 - 1, which it doesn't contain.
    pub fn of_length(begin: u64, length: u64) -> CodeRange
        ensures { result ≡ of_length begin length }
    {
        CodeRange {
            begin,
            end: begin.saturating_add(length),
        }
    }

    /// Each address but the last.
    pub fn everywhere() -> CodeRange
        ensures { result ≡ everywhere }
    {
        CodeRange {
            begin: 0,
            end: u64::MAX,
        }
    }

    /// Whether an address is inside.
    pub fn contains(self, address: u64) -> bool
        ensures { result ≡ is_inside self address }
    {
        self.begin <= address && address < self.end
    }
}

/// The bounds of the code around an address: the row that a table has for it, as the range of an FDE, a function of compact unwind info
/// or a `RUNTIME_FUNCTION`, if that contains the address, and else everywhere.
pub fn bounds_around(row: Option<CodeRange>, address: u64) -> CodeRange
    ensures bounds { result ≡ bounds_around row address }
    ensures inside { address < 2 ^ 64 - 1 → IsTrue (is_inside result address) }
{
    match row {
        Some(row) if row.contains(address) => row,
        _ => CodeRange::everywhere(),
    }
}
