//! The order of the bytes of a number.

ghost use Rattle.std.specs.Prelude.{◌≡◌, ◌≤◌, ◌<◌, ◌++◌, Bool, true, false, not, refl, length, take, drop};
ghost use Rattle.std.specs.Int.{w16, w32, w64, cast_signed};
ghost use Rattle.dwarf_endianity.specs.declared.endianity.RunTimeEndian.TheVariants.{Little, Big};
ghost use Rattle.dwarf_endianity.specs.ByteOrder.{number_of, bytes_of, same_order};

use std::fmt::Debug;

/// The byte order of a section, little-endian or big-endian. Reads and writes take the first bytes
/// of what they are given.
pub trait Endianity: Debug + Default + Clone + Copy + PartialEq + Eq {
    /// Whether the most significant byte comes first.
    ghost is_big: { Self → Bool };

    /// Whether the most significant byte comes first.
    fn is_big_endian(self) -> bool
        ensures { result ≡ is_big self };

    /// Whether the least significant byte comes first.
    fn is_little_endian(self) -> bool
        ensures { result ≡ not (is_big self) }
    {
        !self.is_big_endian()
    }

    /// Reads a number of 2 bytes.
    fn read_u16(self, buf: &[u8]) -> u16
        requires { 2 ≤ length buf.now }
        ensures { result ≡ number_of (is_big self) (take 2 buf.now) }
    {
        let bytes = [buf[0], buf[1]];
        if self.is_big_endian() {
            u16::from_be_bytes(bytes)
        } else {
            u16::from_le_bytes(bytes)
        }
    }

    /// Reads a number of 4 bytes.
    fn read_u32(self, buf: &[u8]) -> u32
        requires { 4 ≤ length buf.now }
        ensures { result ≡ number_of (is_big self) (take 4 buf.now) }
    {
        let bytes = [buf[0], buf[1], buf[2], buf[3]];
        if self.is_big_endian() {
            u32::from_be_bytes(bytes)
        } else {
            u32::from_le_bytes(bytes)
        }
    }

    /// Reads a number of 8 bytes.
    fn read_u64(self, buf: &[u8]) -> u64
        requires { 8 ≤ length buf.now }
        ensures { result ≡ number_of (is_big self) (take 8 buf.now) }
    {
        let bytes = [
            buf[0], buf[1], buf[2], buf[3], buf[4], buf[5], buf[6], buf[7],
        ];
        if self.is_big_endian() {
            u64::from_be_bytes(bytes)
        } else {
            u64::from_le_bytes(bytes)
        }
    }

    /// Reads a number of 16 bytes.
    fn read_u128(self, buf: &[u8]) -> u128
        requires { 16 ≤ length buf.now }
        ensures { result ≡ number_of (is_big self) (take 16 buf.now) }
    {
        let bytes = [
            buf[0], buf[1], buf[2], buf[3], buf[4], buf[5], buf[6], buf[7], buf[8], buf[9],
            buf[10], buf[11], buf[12], buf[13], buf[14], buf[15],
        ];
        if self.is_big_endian() {
            u128::from_be_bytes(bytes)
        } else {
            u128::from_le_bytes(bytes)
        }
    }

    /// Reads a number of 2 bytes in two's complement.
    fn read_i16(self, buf: &[u8]) -> i16
        requires { 2 ≤ length buf.now }
        ensures { result ≡ cast_signed w16 (number_of (is_big self) (take 2 buf.now)) }
    {
        self.read_u16(buf).cast_signed()
    }

    /// Reads a number of 4 bytes in two's complement.
    fn read_i32(self, buf: &[u8]) -> i32
        requires { 4 ≤ length buf.now }
        ensures { result ≡ cast_signed w32 (number_of (is_big self) (take 4 buf.now)) }
    {
        self.read_u32(buf).cast_signed()
    }

    /// Reads a number of 8 bytes in two's complement.
    fn read_i64(self, buf: &[u8]) -> i64
        requires { 8 ≤ length buf.now }
        ensures { result ≡ cast_signed w64 (number_of (is_big self) (take 8 buf.now)) }
    {
        self.read_u64(buf).cast_signed()
    }

    /// Reads a number of 1 to 8 bytes, which is all of `buf`.
    fn read_uint(self, buf: &[u8]) -> u64
        requires some { 1 ≤ length buf.now }
        requires fits { length buf.now ≤ 8 }
        ensures { result ≡ number_of (is_big self) buf.now }
    {
        let mut bytes = [0; 8];
        if self.is_big_endian() {
            bytes[8 - buf.len()..].copy_from_slice(buf);
            u64::from_be_bytes(bytes)
        } else {
            bytes[..buf.len()].copy_from_slice(buf);
            u64::from_le_bytes(bytes)
        }
    }

    /// Writes a number to the first 2 bytes.
    fn write_u16(self, buf: &mut [u8], n: u16)
        requires { 2 ≤ length buf.old }
        ensures { buf.new ≡ bytes_of (is_big self) 2 n ++ drop 2 buf.old }
    {
        if self.is_big_endian() {
            buf[..2].copy_from_slice(&n.to_be_bytes());
        } else {
            buf[..2].copy_from_slice(&n.to_le_bytes());
        }
    }

    /// Writes a number to the first 4 bytes.
    fn write_u32(self, buf: &mut [u8], n: u32)
        requires { 4 ≤ length buf.old }
        ensures { buf.new ≡ bytes_of (is_big self) 4 n ++ drop 4 buf.old }
    {
        if self.is_big_endian() {
            buf[..4].copy_from_slice(&n.to_be_bytes());
        } else {
            buf[..4].copy_from_slice(&n.to_le_bytes());
        }
    }

    /// Writes a number to the first 8 bytes.
    fn write_u64(self, buf: &mut [u8], n: u64)
        requires { 8 ≤ length buf.old }
        ensures { buf.new ≡ bytes_of (is_big self) 8 n ++ drop 8 buf.old }
    {
        if self.is_big_endian() {
            buf[..8].copy_from_slice(&n.to_be_bytes());
        } else {
            buf[..8].copy_from_slice(&n.to_le_bytes());
        }
    }

    /// Writes a number to the first 16 bytes.
    fn write_u128(self, buf: &mut [u8], n: u128)
        requires { 16 ≤ length buf.old }
        ensures { buf.new ≡ bytes_of (is_big self) 16 n ++ drop 16 buf.old }
    {
        if self.is_big_endian() {
            buf[..16].copy_from_slice(&n.to_be_bytes());
        } else {
            buf[..16].copy_from_slice(&n.to_le_bytes());
        }
    }

    /// Two byte orders are equal if both or neither have the most significant byte first.
    ghost equal: { (a b : Self) → Self.eq a b ≡ same_order (is_big a) (is_big b) };
}

/// The least significant byte comes first.
#[derive(Debug, Clone, Copy, PartialEq, Eq, Hash, Default)]
pub struct LittleEndian;

impl Endianity for LittleEndian {
    ghost is_big = { λ _. false };

    ghost equal = { λ a b. refl };

    fn is_big_endian(self) -> bool {
        false
    }
}

/// The most significant byte comes first.
#[derive(Debug, Clone, Copy, PartialEq, Eq, Hash, Default)]
pub struct BigEndian;

impl Endianity for BigEndian {
    ghost is_big = { λ _. true };

    ghost equal = { λ a b. refl };

    fn is_big_endian(self) -> bool {
        true
    }
}

/// The byte order of this machine.
pub type NativeEndian = LittleEndian;

/// The byte order of this machine, as a value.
#[allow(non_upper_case_globals)]
pub const NativeEndian: NativeEndian = LittleEndian;

/// A byte order that is known when the program runs.
#[derive(Debug, Clone, Copy, PartialEq, Eq, Hash)]
pub enum RunTimeEndian {
    Little,
    Big,
}

impl Default for RunTimeEndian {
    ghost is_default = { λ e. e ≡ Little };

    fn default() -> Self {
        RunTimeEndian::Little
    }
}

impl Endianity for RunTimeEndian {
    ghost use Rattle.dwarf_endianity.specs.RunTimeEndian.{runs_big};

    ghost is_big = { runs_big };

    ghost equal = { λ a b. elim a as (λ x. ⟦<RunTimeEndian as PartialEq>⟧.eq x b
        ≡ same_order (runs_big x) (runs_big b)) [
          | Little ↦ elim b as (λ y. ⟦<RunTimeEndian as PartialEq>⟧.eq Little y ≡ not (runs_big y)) [
            | Little ↦ refl
            | Big ↦ refl
          ]
          | Big ↦ elim b as (λ y. ⟦<RunTimeEndian as PartialEq>⟧.eq Big y ≡ runs_big y) [
            | Little ↦ refl
            | Big ↦ refl
          ]
        ] };

    fn is_big_endian(self) -> bool {
        matches!(self, RunTimeEndian::Big)
    }
}
