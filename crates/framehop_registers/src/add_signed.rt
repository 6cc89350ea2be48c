//! Sums of an unsigned and a signed number.

ghost use Rattle.std.specs.Prelude.{◌≡◌, ℤ, pos, ◌^◌, ◌+ℤ◌, ◌≤ℤ◌, ◌<ℤ◌, IfSome, IfNone};
ghost use Rattle.std.specs.Int.{int_rem_euclid};

/// An unsigned number that a signed number of the same width can be added to.
pub trait AddSigned: Sized {
    /// The signed numbers.
    type Signed;

    ghost sum: { Self → Self.Signed → ℤ };

    ghost value: { Self → ℤ };

    ghost limit: { ℤ };

    /// The sum, modulo 2 to the power of the width.
    fn wrapping_add_signed(self, rhs: Self::Signed) -> Self
        ensures { value result ≡ int_rem_euclid (sum self rhs) limit };

    /// The sum, or `None` if it is no unsigned number of this width.
    fn checked_add_signed(self, rhs: Self::Signed) -> Option<Self>
        ensures fits { IfSome result (λ total. value total ≡ sum self rhs) }
        ensures none { IfNone result (¬ ((pos 0 ≤ℤ sum self rhs) × (sum self rhs <ℤ limit))) };
}

/// The sum, modulo 2 to the power of the width.
pub fn wrapping_add_signed<T: AddSigned>(lhs: T, rhs: T::Signed) -> T
    ensures { T.value result ≡ int_rem_euclid (T.sum lhs rhs) T.limit }
{
    lhs.wrapping_add_signed(rhs)
}

/// The sum, or `None` if it is no unsigned number of this width.
pub fn checked_add_signed<T: AddSigned>(lhs: T, rhs: T::Signed) -> Option<T>
    ensures fits { IfSome result (λ total. T.value total ≡ T.sum lhs rhs) }
    ensures none { IfNone result (¬ ((pos 0 ≤ℤ T.sum lhs rhs) × (T.sum lhs rhs <ℤ T.limit))) }
{
    lhs.checked_add_signed(rhs)
}

impl AddSigned for u64 {
    type Signed = i64;

    ghost sum = { λ lhs rhs. pos lhs +ℤ rhs };

    ghost value = { pos };

    ghost limit = { pos (2 ^ 64) };

    fn wrapping_add_signed(self, rhs: i64) -> u64 {
        self.wrapping_add_signed(rhs)
    }

    fn checked_add_signed(self, rhs: i64) -> Option<u64> {
        self.checked_add_signed(rhs)
    }
}

impl AddSigned for u32 {
    type Signed = i32;

    ghost sum = { λ lhs rhs. pos lhs +ℤ rhs };

    ghost value = { pos };

    ghost limit = { pos (2 ^ 32) };

    fn wrapping_add_signed(self, rhs: i32) -> u32 {
        self.wrapping_add_signed(rhs)
    }

    fn checked_add_signed(self, rhs: i32) -> Option<u32> {
        self.checked_add_signed(rhs)
    }
}
