//! Reading of numbers of variable length (DWARF 5, 7.6).

ghost use Rattle.std.specs.Prelude.{◌≡◌, ◌≤◌, ◌<◌, ◌+◌, ◌*◌, ◌^◌, ◌==◌, ◌||◌, IfOk, IfErr, OnErr, OnOk};
ghost use Rattle.dwarf_readers.specs.Groups.{AreGroups, EndsInGroups, IsMostBytes};
ghost use Rattle.dwarf_readers.specs.Leb128.{behind_string, left_by_leb128, signed_at, string_of, unsigned_16_at, unsigned_at, unsigned_within};
ghost use Rattle.dwarf_readers.specs.Stretch.{Moves, Reads, behind};
ghost use Rattle.dwarf_readers.specs.Remainder.{size_of};

use crate::reader::Reader;
use dwarf_constants::{Error, Result};

// The bytes of a number: up to one below 128, or as many as a number may have.
#[derive(Clone, Copy)]
struct Groups {
    // The number in the bytes before the last.
    low: u64,
    last: u8,
    // How many bytes are before the last.
    count: u32,
}

// Reads a number's bytes, at most `most`.
#[inline(always)]
fn read_groups<R: Reader>(r: &mut R, most: u32) -> Result<Groups>
    requires some { 1 ≤ most }
    requires fits { most ≤ 10 }
    ensures groups { IfOk result (λ x.
        AreGroups most (R.stretch r.old) x.low x.last x.count (R.stretch r.new)) }
    ensures missing { IfErr result (λ e. EndsInGroups most (R.stretch r.old) e (R.stretch r.new)) }
{
    let mut low = 0;
    let mut count = 0;
    let mut last = r.read_u8()?;
    while last >= 128 && count + 1 < most {
        low += u64::from(last % 128) << (7 * count);
        count += 1;
        last = r.read_u8()?;
    }
    Ok(Groups { low, last, count })
}

/// Skips a number of any length.
pub fn skip<R: Reader>(r: &mut R) -> Result<()>
    ensures moved { Moves result
        (behind_string (R.stretch r.old) (string_of (R.stretch r.old).bytes)) (R.stretch r.new) }
    ensures refused { OnErr result
        (R.stretch r.new ≡ behind (size_of (R.stretch r.old)) (R.stretch r.old)) }
{
    'string: while r.read_u8()? >= 128 {}
    Ok(())
}

// Reads an unsigned number of at most `most` bytes that fits `bits` bits. A number of fewer bytes
// always fits.
#[inline(always)]
fn read_unsigned<R: Reader>(r: &mut R, most: u32, bits: u32) -> Result<u64>
    requires { IsMostBytes most bits }
    ensures read { Reads result (unsigned_within most bits (R.stretch r.old)) (R.stretch r.new) }
    ensures below { IfOk result (λ value. value < 2 ^ bits) }
    ensures shorter { OnOk result (size_of (R.stretch r.new) < size_of (R.stretch r.old)) }
    ensures refused { OnErr result (R.stretch r.new ≡ left_by_leb128 most (R.stretch r.old)) }
{
    // What the last of `most` bytes has to be below.
    let limit = 1u8 << (bits - 7 * (most - 1));
    let groups = read_groups(r, most)?;
    if groups.count + 1 == most && groups.last >= limit {
        return Err(Error::BadUnsignedLeb128);
    }
    Ok(groups.low + (u64::from(groups.last) << (7 * groups.count)))
}

/// Reads an unsigned number of at most ten bytes. Fails with `BadUnsignedLeb128` if the next ten bytes
/// have none that fits 64 bits.
#[inline(always)]
pub fn unsigned<R: Reader>(r: &mut R) -> Result<u64>
    ensures read { Reads result (unsigned_at (R.stretch r.old)) (R.stretch r.new) }
    ensures shorter { OnOk result (size_of (R.stretch r.new) < size_of (R.stretch r.old)) }
    ensures refused { OnErr result (R.stretch r.new ≡ left_by_leb128 10 (R.stretch r.old)) }
{
    read_unsigned(r, 10, 64)
}

/// Reads an unsigned number of at most three bytes: the number of a register, a tag or an attribute.
/// Fails with `BadUnsignedLeb128` if the next three bytes have none that fits 16 bits.
#[inline(always)]
pub fn u16<R: Reader>(r: &mut R) -> Result<u16>
    ensures read { Reads result (unsigned_16_at (R.stretch r.old)) (R.stretch r.new) }
    ensures shorter { OnOk result (size_of (R.stretch r.new) < size_of (R.stretch r.old)) }
    ensures refused { OnErr result (R.stretch r.new ≡ left_by_leb128 3 (R.stretch r.old)) }
{
    Ok(read_unsigned(r, 3, 16)? as u16)
}

// Whether seven bits are one bit, repeated.
fn is_sign(group: u8) -> bool
    ensures { result ≡ (group == 0 || group == 127) }
{
    group == 0 || group == 0x7f
}

/// Reads a signed number of at most ten bytes. Fails with `BadSignedLeb128` if the next ten bytes have
/// none that fits 64 bits.
#[inline(always)]
pub fn signed<R: Reader>(r: &mut R) -> Result<i64>
    ensures read { Reads result (signed_at (R.stretch r.old)) (R.stretch r.new) }
    ensures shorter { OnOk result (size_of (R.stretch r.new) < size_of (R.stretch r.old)) }
    ensures refused { OnErr result (R.stretch r.new ≡ left_by_leb128 10 (R.stretch r.old)) }
{
    let groups = read_groups(r, 10)?;
    // Of a tenth byte only the lowest bit is left: the others repeat it.
    let is_sign = is_sign(groups.last);
    if groups.count == 9 && !is_sign {
        return Err(Error::BadSignedLeb128);
    }
    let value = groups.low + (u64::from(groups.last) << (7 * groups.count));
    if groups.count == 9 || groups.last < 64 {
        return Ok(value.cast_signed());
    }
    // Bit 6 of the last byte is the sign: its weight is taken away twice.
    let weight = 1u64 << (7 * (groups.count + 1));
    Ok(value.wrapping_sub(weight).cast_signed())
}
