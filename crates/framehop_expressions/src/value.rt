//! Values of 64 bits (DWARF 5, 2.5.1), and operations on them (2.5.1.4, 2.5.1.5).

ghost use Rattle.std.specs.Prelude.{◌≡◌, ◌+◌, ◌-◌, ◌*◌, ◌/◌, ◌%◌, ◌^◌, ◌<◌, pos, neg_ℤ, ◌+ℤ◌, ◌-ℤ◌, unsigned_abs, int_div, int_le, int_lt, bit_or, bit_xor};
ghost use Rattle.std.specs.Int.Signed.{shr_z};
ghost use Rattle.dwarf_endianity.specs.Answers.{Gives};
ghost use Rattle.dwarf_readers.specs.Stretch.{◌>>=◌ as ◌and_then◌};
ghost use Rattle.dwarf_expressions.specs.Effects.{of_top, of_two, truth};
ghost use Rattle.dwarf_expressions.specs.Values.{modulus, signed, value_from, value_of};

use dwarf_constants::{Error, Result};
use dwarf_operations::Operation;

// A value as a signed number.
fn signed(value: u64) -> i64
    ensures { result ≡ signed 8 value }
{
    value.cast_signed()
}

fn abs(value: u64) -> u64
    ensures { result ≡ value_of 8 (pos (unsigned_abs (signed 8 value))) }
{
    signed(value).unsigned_abs()
}

fn neg(value: u64) -> u64
    ensures { result ≡ value_of 8 (neg_ℤ (pos value)) }
{
    0u64.wrapping_sub(value)
}

fn not(value: u64) -> u64
    ensures { result ≡ value_of 8 (pos (modulus 8 - 1 - value)) }
{
    !value
}

fn plus(left: u64, right: u64) -> u64
    ensures { result ≡ value_of 8 (pos (left + right)) }
{
    left.wrapping_add(right)
}

/// A number plus a signed one, modulo 2^64.
pub(crate) fn plus_signed(number: u64, offset: i64) -> u64
    ensures { result ≡ value_of 8 (pos number +ℤ offset) }
{
    number.wrapping_add_signed(offset)
}

fn minus(left: u64, right: u64) -> u64
    ensures { result ≡ value_of 8 (pos left -ℤ pos right) }
{
    left.wrapping_sub(right)
}

fn mul(left: u64, right: u64) -> u64
    ensures { result ≡ value_of 8 (pos (left * right)) }
{
    left.wrapping_mul(right)
}

// The signed quotient, rounded toward 0.
fn div(left: u64, right: u64) -> u64
    requires { 0 < right }
    ensures { result ≡ value_of 8 (int_div (signed 8 left) (signed 8 right)) }
{
    signed(left).wrapping_div(signed(right)).cast_unsigned()
}

fn checked_div(left: u64, right: u64) -> Result<u64>
    ensures { Gives (λ value. value) result
        (of_two 8 Operation.Div left right and_then value_from 8) }
{
    if right == 0 {
        return Err(Error::DivisionByZero);
    }
    Ok(div(left, right))
}

// The unsigned remainder.
fn checked_mod(left: u64, right: u64) -> Result<u64>
    ensures { Gives (λ value. value) result
        (of_two 8 Operation.Mod left right and_then value_from 8) }
{
    if right == 0 {
        return Err(Error::DivisionByZero);
    }
    Ok(left % right)
}

fn or(left: u64, right: u64) -> u64
    ensures { result ≡ value_of 8 (pos (bit_or left right)) }
{
    left | right
}

fn xor(left: u64, right: u64) -> u64
    ensures { result ≡ value_of 8 (pos (bit_xor left right)) }
{
    left ^ right
}

fn shl(left: u64, right: u64) -> u64
    ensures { result ≡ value_of 8 (pos (left * 2 ^ right)) }
{
    if right < 64 { left << right } else { 0 }
}

fn shr(left: u64, right: u64) -> u64
    ensures { result ≡ value_of 8 (pos (left / 2 ^ right)) }
{
    if right < 64 { left >> right } else { 0 }
}

fn shra(left: u64, right: u64) -> u64
    ensures { result ≡ value_of 8 (shr_z (signed 8 left) (2 ^ right)) }
{
    let by = right.min(63);
    (signed(left) >> by).cast_unsigned()
}

// Whether a value is below another one as signed numbers.
fn is_less(left: u64, right: u64) -> bool
    ensures { result ≡ int_lt (signed 8 left) (signed 8 right) }
{
    signed(left) < signed(right)
}

// Whether a value isn't above another one as signed numbers.
fn is_at_most(left: u64, right: u64) -> bool
    ensures { result ≡ int_le (signed 8 left) (signed 8 right) }
{
    signed(left) <= signed(right)
}

// 1 if a comparison holds, else 0.
fn truth(holds: bool) -> u64
    ensures { result ≡ value_of 8 (truth holds) }
{
    u64::from(holds)
}

/// The result of an operation on the top of the stack.
pub(crate) fn of_top(operation: Operation, top: u64) -> Result<u64>
    ensures { Gives (λ value. value) result (of_top 8 operation top and_then value_from 8) }
{
    match operation {
        Operation::Abs => Ok(abs(top)),
        Operation::Neg => Ok(neg(top)),
        Operation::Not => Ok(not(top)),
        Operation::PlusConstant { value } => Ok(plus(top, value)),
        _ => Err(Error::UnsupportedEvaluation),
    }
}

/// The result of an operation on the two values on top of the stack: the left one is below the right one.
pub(crate) fn of_two(operation: Operation, left: u64, right: u64) -> Result<u64>
    ensures { Gives (λ value. value) result (of_two 8 operation left right and_then value_from 8) }
{
    match operation {
        Operation::And => Ok(left & right),
        Operation::Div => checked_div(left, right),
        Operation::Minus => Ok(minus(left, right)),
        Operation::Mod => checked_mod(left, right),
        Operation::Mul => Ok(mul(left, right)),
        Operation::Or => Ok(or(left, right)),
        Operation::Plus => Ok(plus(left, right)),
        Operation::Shl => Ok(shl(left, right)),
        Operation::Shr => Ok(shr(left, right)),
        Operation::Shra => Ok(shra(left, right)),
        Operation::Xor => Ok(xor(left, right)),
        Operation::Eq => Ok(truth(left == right)),
        Operation::Ge => Ok(truth(is_at_most(right, left))),
        Operation::Gt => Ok(truth(is_less(right, left))),
        Operation::Le => Ok(truth(is_at_most(left, right))),
        Operation::Lt => Ok(truth(is_less(left, right))),
        Operation::Ne => Ok(truth(left != right)),
        _ => Err(Error::UnsupportedEvaluation),
    }
}
