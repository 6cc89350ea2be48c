//! Values of expressions (DWARF 5, 2.5.1), and operations on them (2.5.1.4, 2.5.1.5).

ghost use Rattle.std.specs.Prelude.{◌≡◌, ◌+◌, ◌-◌, ◌*◌, ◌/◌, ◌%◌, ◌^◌, ◌<◌, ◌==◌, false, pos, neg_ℤ, ◌+ℤ◌, ◌-ℤ◌, IsTrue, MatchResult, unsigned_abs, int_div, int_le, int_lt};
ghost use Rattle.std.specs.Int.Signed.{shr_z};
ghost use Rattle.dwarf_constants.specs.declared.error.Error.TheVariants.{UnsupportedAddressSize};
ghost use Rattle.dwarf_readers.specs.InitialLength.{is_size};
ghost use Rattle.dwarf_endianity.specs.Answers.{Gives};
ghost use Rattle.dwarf_readers.specs.Stretch.{◌>>=◌ as ◌and_then◌};
ghost use Rattle.dwarf_expressions.specs.Effects.{of_top, of_two, truth};
ghost use Rattle.dwarf_expressions.specs.Values.{modulus, signed, value_from, value_of};

use dwarf_constants::{Error, Result};
use dwarf_operations::Operation;
use dwarf_readers::is_address_size;

/// A value of an expression.
#[derive(Debug, Clone, Copy, PartialEq, Eq)]
pub enum Value {
    /// A number without a type, of the size of an address.
    Generic(u64),
}

/// The size of an address, 1, 2, 4 or 8 bytes, which is the size of values.
#[derive(Debug, Clone, Copy)]
pub(crate) struct AddressSize {
    bytes: u8,
    ghost is_size: { IsTrue (is_size bytes) },
}

impl AddressSize {
    pub(crate) fn new(bytes: u8) -> Result<AddressSize>
        ensures { MatchResult result (λ size. size.bytes ≡ bytes)
            (λ e. (is_size bytes ≡ false) × (e ≡ UnsupportedAddressSize bytes)) }
    {
        if !is_address_size(bytes) {
            return Err(Error::UnsupportedAddressSize(bytes));
        }
        Ok(AddressSize { bytes })
    }

    // How many of 64 bits no value has.
    fn unused_bits(self) -> u32
        ensures { result + 8 * self.bytes ≡ 64 }
    {
        64 - 8 * u32::from(self.bytes)
    }

    /// The value of a number.
    pub(crate) fn wrap(self, number: u64) -> u64
        ensures { result ≡ number % modulus self.bytes }
    {
        let unused = self.unused_bits();
        (number << unused) >> unused
    }

    // A value as a signed number.
    fn signed(self, value: u64) -> i64
        requires { value < modulus self.bytes }
        ensures { result ≡ signed self.bytes value }
    {
        let unused = self.unused_bits();
        (value << unused).cast_signed() >> unused
    }

    fn abs(self, value: u64) -> u64
        requires { value < modulus self.bytes }
        ensures { result ≡ value_of self.bytes (pos (unsigned_abs (signed self.bytes value))) }
    {
        self.wrap(self.signed(value).unsigned_abs())
    }

    fn neg(self, value: u64) -> u64
        requires { value < modulus self.bytes }
        ensures { result ≡ value_of self.bytes (neg_ℤ (pos value)) }
    {
        self.wrap(0u64.wrapping_sub(value))
    }

    fn not(self, value: u64) -> u64
        requires { value < modulus self.bytes }
        ensures { result ≡ value_of self.bytes (pos (modulus self.bytes - 1 - value)) }
    {
        self.wrap(!value)
    }

    fn plus(self, left: u64, right: u64) -> u64
        ensures { result ≡ value_of self.bytes (pos (left + right)) }
    {
        self.wrap(left.wrapping_add(right))
    }

    /// A number plus a signed one.
    pub(crate) fn plus_signed(self, number: u64, offset: i64) -> u64
        ensures value { result ≡ value_of self.bytes (pos number +ℤ offset) }
        ensures below { result < modulus self.bytes }
    {
        self.wrap(number.wrapping_add_signed(offset))
    }

    fn minus(self, left: u64, right: u64) -> u64
        ensures { result ≡ value_of self.bytes (pos left -ℤ pos right) }
    {
        self.wrap(left.wrapping_sub(right))
    }

    fn mul(self, left: u64, right: u64) -> u64
        ensures { result ≡ value_of self.bytes (pos (left * right)) }
    {
        self.wrap(left.wrapping_mul(right))
    }

    // The signed quotient, rounded toward 0.
    fn div(self, left: u64, right: u64) -> u64
        requires left { left < modulus self.bytes }
        requires right { right < modulus self.bytes }
        requires divisor { 0 < right }
        ensures { result ≡ value_of self.bytes
            (int_div (signed self.bytes left) (signed self.bytes right)) }
    {
        let quotient = self.signed(left).wrapping_div(self.signed(right));
        self.wrap(quotient.cast_unsigned())
    }

    fn checked_div(self, left: u64, right: u64) -> Result<u64>
        requires left { left < modulus self.bytes }
        requires right { right < modulus self.bytes }
        ensures { Gives (λ value. value) result
            (of_two self.bytes Operation.Div left right and_then value_from self.bytes) }
    {
        if right == 0 {
            return Err(Error::DivisionByZero);
        }
        Ok(self.div(left, right))
    }

    // The unsigned remainder.
    fn checked_mod(self, left: u64, right: u64) -> Result<u64>
        ensures { Gives (λ value. value) result
            (of_two self.bytes Operation.Mod left right and_then value_from self.bytes) }
    {
        if right == 0 {
            return Err(Error::DivisionByZero);
        }
        Ok(self.wrap(left % right))
    }

    fn shl(self, left: u64, right: u64) -> u64
        ensures { result ≡ value_of self.bytes (pos (left * 2 ^ right)) }
    {
        if right < 64 {
            self.wrap(left << right)
        } else {
            0
        }
    }

    fn shr(self, left: u64, right: u64) -> u64
        ensures { result ≡ value_of self.bytes (pos (left / 2 ^ right)) }
    {
        if right < 64 {
            self.wrap(left >> right)
        } else {
            0
        }
    }

    fn shra(self, left: u64, right: u64) -> u64
        requires { left < modulus self.bytes }
        ensures { result ≡ value_of self.bytes (shr_z (signed self.bytes left) (2 ^ right)) }
    {
        let by = right.min(63);
        self.wrap((self.signed(left) >> by).cast_unsigned())
    }

    // Whether a value is below another one as signed numbers.
    fn is_less(self, left: u64, right: u64) -> bool
        requires left { left < modulus self.bytes }
        requires right { right < modulus self.bytes }
        ensures { result ≡ int_lt (signed self.bytes left) (signed self.bytes right) }
    {
        self.signed(left) < self.signed(right)
    }

    // Whether a value isn't above another one as signed numbers.
    fn is_at_most(self, left: u64, right: u64) -> bool
        requires left { left < modulus self.bytes }
        requires right { right < modulus self.bytes }
        ensures { result ≡ int_le (signed self.bytes left) (signed self.bytes right) }
    {
        self.signed(left) <= self.signed(right)
    }

    // 1 if a comparison holds, else 0.
    fn truth(self, holds: bool) -> u64
        ensures { result ≡ value_of self.bytes (truth holds) }
    {
        u64::from(holds)
    }

    /// The result of an operation on the top of the stack.
    #[inline(always)]
    pub(crate) fn of_top(self, operation: Operation, top: u64) -> Result<u64>
        requires { top < modulus self.bytes }
        ensures { Gives (λ value. value) result
            (of_top self.bytes operation top and_then value_from self.bytes) }
    {
        match operation {
            Operation::Abs => Ok(self.abs(top)),
            Operation::Neg => Ok(self.neg(top)),
            Operation::Not => Ok(self.not(top)),
            Operation::PlusConstant { value } => Ok(self.plus(top, value)),
            _ => Err(Error::UnsupportedEvaluation),
        }
    }

    /// The result of an operation on the two values on top of the stack: the left one is below the
    /// right one.
    #[inline(always)]
    pub(crate) fn of_two(self, operation: Operation, left: u64, right: u64) -> Result<u64>
        requires left { left < modulus self.bytes }
        requires right { right < modulus self.bytes }
        ensures { Gives (λ value. value) result
            (of_two self.bytes operation left right and_then value_from self.bytes) }
    {
        match operation {
            Operation::And => Ok(self.wrap(left & right)),
            Operation::Div => self.checked_div(left, right),
            Operation::Minus => Ok(self.minus(left, right)),
            Operation::Mod => self.checked_mod(left, right),
            Operation::Mul => Ok(self.mul(left, right)),
            Operation::Or => Ok(self.wrap(left | right)),
            Operation::Plus => Ok(self.plus(left, right)),
            Operation::Shl => Ok(self.shl(left, right)),
            Operation::Shr => Ok(self.shr(left, right)),
            Operation::Shra => Ok(self.shra(left, right)),
            Operation::Xor => Ok(self.wrap(left ^ right)),
            Operation::Eq => Ok(self.truth(left == right)),
            Operation::Ge => Ok(self.truth(self.is_at_most(right, left))),
            Operation::Gt => Ok(self.truth(self.is_less(right, left))),
            Operation::Le => Ok(self.truth(self.is_at_most(left, right))),
            Operation::Lt => Ok(self.truth(self.is_less(left, right))),
            Operation::Ne => Ok(self.truth(left != right)),
            _ => Err(Error::UnsupportedEvaluation),
        }
    }
}
