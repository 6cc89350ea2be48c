//! The registers that a function without a frame pointer saves, by their permutation.

ghost use Rattle.std.specs.Prelude.{◌≡◌, ◌≤◌};
ghost use Rattle.std.specs.Option.{option_map};
ghost use Rattle.framehop_compact.specs.SavedRegisters.{registers_of, factorial, saved_after_bp};

/// A register that a function can save, in the order of the encoding's numbers from 1 (`UNWIND_X86_64_REG_RBX` to
/// `UNWIND_X86_64_REG_RBP`).
#[derive(Clone, Copy, Debug, Default, PartialEq, Eq)]
pub enum RegisterNameX86_64 {
    /// 1
    #[default]
    RBX,
    /// 2
    R12,
    /// 3
    R13,
    /// 4
    R14,
    /// 5
    R15,
    /// 6
    RBP,
}

// The factorials of the numbers up to 6.
const FACTORIALS: [u32; 7] = [1, 1, 2, 6, 24, 120, 720];

// The factorial of a number up to 6, without a branch, which no processor could foresee.
#[inline(always)]
fn factorial(number: u8) -> u32
    requires { number ≤ 6 }
    ensures { result ≡ factorial number }
{
    FACTORIALS[usize::from(number)]
}

// How many registers come before RBP in each list of all six, in lexicographic order. Each line has the lists with the same first
// two registers.
#[rattlefmt::skip]
const BEFORE_BP: [u8; 720] = [
    5, 4, 5, 4, 3, 3, 5, 4, 5, 4, 3, 3, 5, 4, 5, 4, 3, 3, 2, 2, 2, 2, 2, 2,
    5, 4, 5, 4, 3, 3, 5, 4, 5, 4, 3, 3, 5, 4, 5, 4, 3, 3, 2, 2, 2, 2, 2, 2,
    5, 4, 5, 4, 3, 3, 5, 4, 5, 4, 3, 3, 5, 4, 5, 4, 3, 3, 2, 2, 2, 2, 2, 2,
    5, 4, 5, 4, 3, 3, 5, 4, 5, 4, 3, 3, 5, 4, 5, 4, 3, 3, 2, 2, 2, 2, 2, 2,
    1, 1, 1, 1, 1, 1, 1, 1, 1, 1, 1, 1, 1, 1, 1, 1, 1, 1, 1, 1, 1, 1, 1, 1,
    5, 4, 5, 4, 3, 3, 5, 4, 5, 4, 3, 3, 5, 4, 5, 4, 3, 3, 2, 2, 2, 2, 2, 2,
    5, 4, 5, 4, 3, 3, 5, 4, 5, 4, 3, 3, 5, 4, 5, 4, 3, 3, 2, 2, 2, 2, 2, 2,
    5, 4, 5, 4, 3, 3, 5, 4, 5, 4, 3, 3, 5, 4, 5, 4, 3, 3, 2, 2, 2, 2, 2, 2,
    5, 4, 5, 4, 3, 3, 5, 4, 5, 4, 3, 3, 5, 4, 5, 4, 3, 3, 2, 2, 2, 2, 2, 2,
    1, 1, 1, 1, 1, 1, 1, 1, 1, 1, 1, 1, 1, 1, 1, 1, 1, 1, 1, 1, 1, 1, 1, 1,
    5, 4, 5, 4, 3, 3, 5, 4, 5, 4, 3, 3, 5, 4, 5, 4, 3, 3, 2, 2, 2, 2, 2, 2,
    5, 4, 5, 4, 3, 3, 5, 4, 5, 4, 3, 3, 5, 4, 5, 4, 3, 3, 2, 2, 2, 2, 2, 2,
    5, 4, 5, 4, 3, 3, 5, 4, 5, 4, 3, 3, 5, 4, 5, 4, 3, 3, 2, 2, 2, 2, 2, 2,
    5, 4, 5, 4, 3, 3, 5, 4, 5, 4, 3, 3, 5, 4, 5, 4, 3, 3, 2, 2, 2, 2, 2, 2,
    1, 1, 1, 1, 1, 1, 1, 1, 1, 1, 1, 1, 1, 1, 1, 1, 1, 1, 1, 1, 1, 1, 1, 1,
    5, 4, 5, 4, 3, 3, 5, 4, 5, 4, 3, 3, 5, 4, 5, 4, 3, 3, 2, 2, 2, 2, 2, 2,
    5, 4, 5, 4, 3, 3, 5, 4, 5, 4, 3, 3, 5, 4, 5, 4, 3, 3, 2, 2, 2, 2, 2, 2,
    5, 4, 5, 4, 3, 3, 5, 4, 5, 4, 3, 3, 5, 4, 5, 4, 3, 3, 2, 2, 2, 2, 2, 2,
    5, 4, 5, 4, 3, 3, 5, 4, 5, 4, 3, 3, 5, 4, 5, 4, 3, 3, 2, 2, 2, 2, 2, 2,
    1, 1, 1, 1, 1, 1, 1, 1, 1, 1, 1, 1, 1, 1, 1, 1, 1, 1, 1, 1, 1, 1, 1, 1,
    5, 4, 5, 4, 3, 3, 5, 4, 5, 4, 3, 3, 5, 4, 5, 4, 3, 3, 2, 2, 2, 2, 2, 2,
    5, 4, 5, 4, 3, 3, 5, 4, 5, 4, 3, 3, 5, 4, 5, 4, 3, 3, 2, 2, 2, 2, 2, 2,
    5, 4, 5, 4, 3, 3, 5, 4, 5, 4, 3, 3, 5, 4, 5, 4, 3, 3, 2, 2, 2, 2, 2, 2,
    5, 4, 5, 4, 3, 3, 5, 4, 5, 4, 3, 3, 5, 4, 5, 4, 3, 3, 2, 2, 2, 2, 2, 2,
    1, 1, 1, 1, 1, 1, 1, 1, 1, 1, 1, 1, 1, 1, 1, 1, 1, 1, 1, 1, 1, 1, 1, 1,
    0, 0, 0, 0, 0, 0, 0, 0, 0, 0, 0, 0, 0, 0, 0, 0, 0, 0, 0, 0, 0, 0, 0, 0,
    0, 0, 0, 0, 0, 0, 0, 0, 0, 0, 0, 0, 0, 0, 0, 0, 0, 0, 0, 0, 0, 0, 0, 0,
    0, 0, 0, 0, 0, 0, 0, 0, 0, 0, 0, 0, 0, 0, 0, 0, 0, 0, 0, 0, 0, 0, 0, 0,
    0, 0, 0, 0, 0, 0, 0, 0, 0, 0, 0, 0, 0, 0, 0, 0, 0, 0, 0, 0, 0, 0, 0, 0,
    0, 0, 0, 0, 0, 0, 0, 0, 0, 0, 0, 0, 0, 0, 0, 0, 0, 0, 0, 0, 0, 0, 0, 0,
];

// How many registers come after RBP in the list with this count and number, if there is one and it has RBP. A list of fewer
// registers begins lists of all six. The number of the first of them is its own, multiplied by how many they are: the factorial of
// how many registers aren't saved. The list of no register has any number.
pub(crate) fn saved_after_bp(count: u8, number: u16) -> Option<Option<u8>>
    ensures { result ≡ option_map saved_after_bp (registers_of count number) }
{
    if count > 6 {
        return None;
    }
    let first = u32::from(number) * factorial(6 - count);
    if first >= 720 {
        return if count == 0 { Some(None) } else { None };
    }
    let before = BEFORE_BP[first as usize];
    if before < count {
        Some(Some(count - 1 - before))
    } else {
        Some(None)
    }
}
