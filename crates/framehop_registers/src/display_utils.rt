//! How numbers are printed.

use std::fmt;
use std::fmt::{Debug, LowerHex};

/// A number whose `Debug` is hexadecimal, in lower case and without `0x` (with it under `{:#?}`).
#[derive(Clone, Copy, PartialEq, Eq)]
pub struct HexNum<N: LowerHex>(pub N);

impl<N: LowerHex> Debug for HexNum<N> {
    fn fmt<W: fmt::Write>(&self, f: &mut fmt::Formatter<W>) -> fmt::Result {
        LowerHex::fmt(&self.0, f)
    }
}
